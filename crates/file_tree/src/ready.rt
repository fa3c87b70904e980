//! What a tree is ready for. A change that may want memory is prepared first, and then made without
//! any.
ghost use Rattle.std.specs.Prelude.{◌≡◌};
ghost use Rattle.file_tree.specs.Ready.{awaited, numbers_in, word_in};

use hac_model::{EntryKind, Number, PathWord, Seq};
use std::alloc::Global;

/// The change that was prepared last.
#[derive(Debug, Drop)]
pub enum Ready {
    /// Nothing was prepared, or the tree has changed since.
    Nothing,
    /// An entry is to be created.
    Add {
        /// The directory that it will be in.
        dir: Number,
        /// What it will be.
        kind: EntryKind,
    },
    /// A symbolic link is to be created.
    Link {
        /// The directory that it will be in.
        dir: Number,
        /// The word that it will lead by.
        word: PathWord,
    },
    /// An entry is to be moved.
    Move {
        /// Its new directory.
        dir: Number,
    },
    /// The text of a file is to be replaced.
    Text {
        /// The file.
        file: Number,
    },
    /// A mount is to be created.
    Mount {
        /// The directory that it will be in.
        dir: Number,
        /// How many documents it will have.
        count: u64,
    },
    /// A mount is to be synced.
    Sync {
        /// The mount.
        mount: Number,
        /// The documents that it will have, in byte order of names.
        numbers: Seq<Number>,
    },
}

/// The file that the prepared change will make dirty, given the number of a new entry.
pub(crate) fn awaited(next: Number, ready: &Ready) -> Option<Number>
    ensures { result ≡ awaited next ready.now }
{
    match ready {
        Ready::Add {
            kind: EntryKind::File,
            ..
        } => Some(next),
        Ready::Text { file } => Some(*file),
        _ => None,
    }
}

/// The word of the symbolic link that is to be created.
pub(crate) fn word_in(ready: Ready) -> Option<PathWord>
    ensures { result ≡ word_in ready }
{
    match ready {
        Ready::Link { word, .. } => Some(word),
        _ => None,
    }
}

/// The list of the mount that is to be synced.
pub(crate) fn numbers_in(alloc: Global, ready: Ready) -> Vec<Number>
    ensures { result.items ≡ numbers_in ready }
{
    match ready {
        Ready::Sync { numbers, .. } => numbers.into_vec(),
        _ => Vec::new(alloc),
    }
}
