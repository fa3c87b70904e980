//! Theorems over the definitions alone. Each is the contract of a function that does nothing.
ghost use Rattle.event_codec.specs.Laws.{ReadIsSnapshot, ReadIsWritten, SnapshotIsRead};
ghost use Rattle.event_codec.specs.Laws.{WrittenIsRead};

/// An event is read back from its spelling, in each version.
pub fn written_is_read()
    ensures { WrittenIsRead }
{}

/// Bytes that are read as an event are its spelling, so that each event has one in each version.
pub fn read_is_written()
    ensures { ReadIsWritten }
{}

/// A snapshot is read back from its spelling, its version too.
pub fn snapshot_is_read()
    ensures { SnapshotIsRead }
{}

/// Bytes that are read as a snapshot are its spelling, so that each snapshot has one.
pub fn read_is_snapshot()
    ensures { ReadIsSnapshot }
{}
