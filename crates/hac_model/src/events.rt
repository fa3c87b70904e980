//! What happens to a state.
use crate::bytes::{Name, Seq, Text};
use crate::marks::Mark;
use crate::numbers::Number;
use crate::queries::Query;

/// A change of the state. `accepted` of the specs says which events a state accepts, and `apply`
/// what they do to it.
#[derive(Debug, Drop)]
pub enum Event {
    /// A plain directory is created.
    Mkdir {
        /// The directory in which it is made.
        dir: Number,
        /// The name that it has there.
        name: Name,
    },
    /// A file is created.
    NewFile {
        /// The directory in which it is made.
        dir: Number,
        /// The name that it has there.
        name: Name,
        /// Its text.
        text: Text,
    },
    /// A file's text is replaced.
    Rewrite {
        /// The file.
        file: Number,
        /// Its new text.
        text: Text,
    },
    /// A symbolic link is created.
    Ln {
        /// The directory in which it is made.
        dir: Number,
        /// The name that it has there.
        name: Name,
        /// The path word that it leads to, as it was given.
        target: Text,
    },
    /// An entry moves, with everything below it.
    Mv {
        /// The entry.
        entry: Number,
        /// Its new directory.
        dir: Number,
        /// The name that it has there.
        name: Name,
    },
    /// A file or a symbolic link is removed.
    Rm {
        /// The entry.
        entry: Number,
    },
    /// An empty directory is removed.
    Rmdir {
        /// The directory.
        dir: Number,
    },
    /// A semantic directory is created.
    Smkdir {
        /// The directory in which it is made.
        dir: Number,
        /// The name that it has there.
        name: Name,
        /// Its query.
        query: Query<Number>,
        /// What the mounts answered to each question, in the order of the questions.
        told: Seq<Seq<Number>>,
    },
    /// A directory gets a query.
    Setq {
        /// The directory.
        dir: Number,
        /// Its new query.
        query: Query<Number>,
        /// What the mounts answered to each question, in the order of the questions.
        told: Seq<Seq<Number>>,
    },
    /// A directory's query is removed, with its marks.
    Unq {
        /// The directory.
        dir: Number,
    },
    /// An item's mark in a directory is set or removed.
    Mark(Mark),
    /// A mount is created.
    Smount {
        /// The directory in which it is made.
        dir: Number,
        /// The name that it has there.
        name: Name,
        /// The space that it shows.
        space: Name,
        /// The names of the space's documents, rising.
        docs: Seq<Name>,
        /// What the space answered to each question, in the order of the questions.
        told: Seq<Seq<Number>>,
    },
    /// A mount takes over the documents and the answers that its space has now.
    Ssync {
        /// The mount.
        mount: Number,
        /// The names of the space's documents, rising.
        docs: Seq<Name>,
        /// What the space answered to each question, in the order of the questions.
        told: Seq<Seq<Number>>,
    },
    /// A mount is removed, with its documents.
    Sumount {
        /// The mount.
        mount: Number,
    },
    /// The dirty file of the least number is indexed.
    Step,
    /// A session moves to another directory. This is never written to a store.
    Cd {
        /// The session's name.
        session: Name,
        /// The directory.
        dir: Number,
    },
}
