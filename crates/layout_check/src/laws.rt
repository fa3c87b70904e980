//! Theorems over the definitions alone. Each is the contract of a function that does nothing.
ghost use Rattle.layout_check.specs.Laws.{RisenDoRise};

/// Numbers that rise between two bounds do rise.
pub fn risen_do_rise()
    ensures { RisenDoRise }
{}
