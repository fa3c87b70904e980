//! A theorem over the definitions alone. It is the contract of a function that does nothing.
ghost use Rattle.script_maker.specs.Laws.{DrawnScriptsAreShort};

/// A script that is drawn is shorter than a script may be, so it is played whole.
pub fn drawn_scripts_are_short()
    ensures { DrawnScriptsAreShort }
{}
