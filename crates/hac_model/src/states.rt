//! The tree as a list of entries. Which states there can be is said by `IsValid` of the specs.
use crate::bytes::{Name, Seq, Text};
use crate::numbers::Number;
use crate::queries::Query;
use crate::terms::Term;
use crate::versions::Version;

/// The whole tree, and the directories of sessions. The root has the number 0 and no entry.
#[derive(Debug, Drop)]
pub struct State {
    /// The version of the store, which tells how much there may be.
    pub version: Version,
    /// The number that the next entry takes.
    pub next: Number,
    /// The entries, their numbers rising.
    pub entries: Seq<Entry>,
    /// The sessions that are in a directory other than the root.
    pub sessions: Seq<Session>,
}

/// A session and its directory.
#[derive(Debug, Drop)]
pub struct Session {
    /// The session's name.
    pub name: Name,
    /// The directory.
    pub dir: Number,
}

/// A file, a directory, a link or a document.
#[derive(Debug, Drop)]
pub struct Entry {
    /// The number by which it is known.
    pub number: Number,
    /// Its directory.
    pub parent: Number,
    /// Its name there.
    pub name: Name,
    /// What it is.
    pub body: Body,
}

/// The kind of an entry.
#[derive(Clone, Copy, Debug, PartialEq, Eq)]
pub enum EntryKind {
    /// A file.
    File,
    /// A plain directory.
    Dir,
    /// A symbolic link.
    Symlink,
    /// A directory with a query.
    Semantic,
    /// A directory that shows another collection.
    Mount,
    /// An entry of a mount.
    Document,
}

/// What an entry is, with what belongs to its kind.
#[derive(Debug, Drop)]
pub enum Body {
    /// A file.
    File {
        /// Its bytes.
        text: Text,
        /// It was made or written since it was last indexed.
        dirty: bool,
        /// The text as it was last indexed, by which queries judge the file.
        shown: Option<Text>,
    },
    /// A plain directory.
    Dir,
    /// A symbolic link.
    Symlink {
        /// The path word that it leads to, as it was given.
        target: Text,
    },
    /// A directory that the system fills with links to the items that satisfy its query.
    Semantic {
        /// Its query.
        query: Query<Number>,
        /// The items that the user added, rising.
        permanent: Seq<Number>,
        /// The items that the user removed, rising.
        prohibited: Seq<Number>,
    },
    /// A directory whose entries are the documents of a space.
    Mount {
        /// The space.
        space: Name,
        /// What the space answered, the terms rising.
        answers: Seq<Answer>,
    },
    /// An entry of a mount. Its text is the space's.
    Document,
}

/// What a space answered to the question for a term.
#[derive(Debug, Drop)]
pub struct Answer {
    /// The term.
    pub term: Term,
    /// The documents that had it, rising.
    pub documents: Seq<Number>,
}
