//! States as they are stored: the documents of a mount are listed with it.
use crate::bytes::{Name, Seq};
use crate::numbers::Number;
use crate::states::Entry;
use crate::versions::Version;

/// A state as it is stored, as `snapshot_of` of the specs says. Where sessions stand is left out.
#[derive(Debug, Drop)]
pub struct Snapshot {
    /// The version of the store.
    pub version: Version,
    /// The number that the next entry takes.
    pub next: Number,
    /// The entries but the documents, their numbers rising.
    pub entries: Seq<StoredEntry>,
}

/// An entry as it is stored.
#[derive(Debug, Drop)]
pub struct StoredEntry {
    /// The entry.
    pub entry: Entry,
    /// The documents of a mount, their names rising. What is no mount has none.
    pub documents: Seq<Document>,
}

/// A document of a mount as it is stored.
#[derive(Debug, Drop)]
pub struct Document {
    /// The number by which it is known.
    pub number: Number,
    /// Its name in the space, and in the mount.
    pub name: Name,
}
