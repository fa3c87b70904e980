//! Theorems over the definitions alone. Each is the contract of a function that does nothing.
ghost use Rattle.snapshots.specs.Laws.{SnapshotsRestore};

/// What is stored of a valid state tells that state, but for where its sessions stand.
pub fn snapshots_restore()
    ensures { SnapshotsRestore }
{}
