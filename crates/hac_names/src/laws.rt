//! Theorems over the definitions alone. Each is the contract of a function that does nothing.
ghost use Rattle.hac_names.specs.Laws.{PrintedPathIsRead, ReadNamesAreNames};

/// A printed path of names is read as the absolute word that leads to it.
pub fn printed_path_is_read()
    ensures { PrintedPathIsRead }
{}

/// The names of a word that is read are names.
pub fn read_names_are_names()
    ensures { ReadNamesAreNames }
{}
