//! Commands whose paths were followed: in place of each path there is what it leads to.
use crate::bytes::{Name, Text};
use crate::numbers::Number;
use crate::places::Place;
use crate::queries::Query;

/// A command whose paths were followed in a state, as `resolve` of the specs says. What the command
/// does and shows depends on this and the state alone.
#[derive(Debug, Drop)]
pub enum Resolved {
    /// Creates a plain directory.
    Mkdir {
        /// Where it is to be.
        place: Place,
    },
    /// Removes a directory.
    Rmdir {
        /// The directory.
        dir: Number,
    },
    /// Creates a file, or replaces its text.
    Write {
        /// Where it is, or is to be.
        place: Place,
        /// The text.
        text: Text,
    },
    /// Shows the text of a file or a document.
    Cat {
        /// The file or the document.
        entry: Number,
    },
    /// Lists a directory.
    Ls {
        /// The directory.
        dir: Number,
    },
    /// Makes a directory a session's.
    Cd {
        /// The session's name.
        session: Name,
        /// The directory.
        dir: Number,
    },
    /// Shows the path of a session's directory.
    Pwd {
        /// The directory.
        dir: Number,
    },
    /// Moves an entry.
    Mv {
        /// The entry.
        entry: Number,
        /// Where it is to be.
        place: Place,
    },
    /// Removes a file or a symbolic link.
    Rm {
        /// The file or the link.
        entry: Number,
    },
    /// Creates a symbolic link.
    Ln {
        /// Where it is to be.
        place: Place,
        /// The path word that it leads to.
        target: Text,
    },
    /// Shows the target of a symbolic link.
    Readlink {
        /// The link.
        entry: Number,
    },
    /// Creates a semantic directory.
    Smkdir {
        /// Where it is to be.
        place: Place,
        /// Its query.
        query: Query<Number>,
    },
    /// Gives a directory a query.
    Setq {
        /// The directory.
        dir: Number,
        /// Its query.
        query: Query<Number>,
    },
    /// Removes a directory's query.
    Unq {
        /// The directory.
        dir: Number,
    },
    /// Shows a directory's query.
    Query {
        /// The directory.
        dir: Number,
    },
    /// Lists the links of a semantic directory.
    Sls {
        /// The directory.
        dir: Number,
    },
    /// Makes an item a permanent link of a directory.
    Sln {
        /// The item.
        item: Number,
        /// The directory.
        dir: Number,
    },
    /// Makes an item prohibited in a directory.
    Srm {
        /// The item.
        item: Number,
        /// The directory.
        dir: Number,
    },
    /// Removes an item's mark in a directory.
    Sforget {
        /// The item.
        item: Number,
        /// The directory.
        dir: Number,
    },
    /// Lists the items that satisfy a query.
    Find {
        /// The query.
        query: Query<Number>,
    },
    /// Mounts a space.
    Smount {
        /// Where the mount is to be.
        place: Place,
        /// The space.
        space: Name,
    },
    /// Asks a mount's space again.
    Ssync {
        /// The mount.
        mount: Number,
    },
    /// Removes a mount.
    Sumount {
        /// The mount.
        mount: Number,
    },
    /// Indexes all dirty files.
    Index,
    /// Indexes at most this many dirty files.
    Tick {
        /// The most steps.
        steps: u64,
    },
    /// Shows how many things of each kind there are.
    Counts,
    /// Writes the whole state as a new area of the store.
    Checkpoint,
}
