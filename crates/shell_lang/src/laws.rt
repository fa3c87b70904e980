//! Theorems over the definitions alone. Each is the contract of a function that does nothing.
ghost use Rattle.shell_lang.specs.Laws.{PrintedLineIsRead, PrintedLineIsRefused};

/// A printed line is read as that line, and then the bytes behind it are. Where its text exceeds a
/// limit it is refused for that limit: it may have been read from fewer bytes.
pub fn printed_line_is_read()
    ensures read { PrintedLineIsRead }
    ensures refused { PrintedLineIsRefused }
{}
