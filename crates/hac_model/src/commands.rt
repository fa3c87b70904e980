//! What a line of a script asks for.
use crate::bytes::{Name, Text};
use crate::paths::PathWord;
use crate::queries::RawQuery;

/// A command and the session that gives it.
#[derive(Debug, Drop)]
pub struct Line {
    /// The name of the session.
    pub session: Name,
    /// What it asks for.
    pub command: Command,
}

/// A command with its words. A relative path starts at the session's directory.
#[derive(Debug, Drop)]
pub enum Command {
    /// Creates a plain directory.
    Mkdir { path: PathWord },
    /// Removes an empty directory.
    Rmdir { path: PathWord },
    /// Creates the file, or replaces its text.
    Write { path: PathWord, text: Text },
    /// Shows the text of a file or a document.
    Cat { path: PathWord },
    /// Lists a directory, by default the session's.
    Ls { path: Option<PathWord> },
    /// Makes a directory the session's, by default the root.
    Cd { path: Option<PathWord> },
    /// Shows the path of the session's directory.
    Pwd,
    /// Moves an entry, with everything below it, to a path where nothing is yet.
    Mv { from: PathWord, to: PathWord },
    /// Removes a file or a symbolic link.
    Rm { path: PathWord },
    /// Creates a symbolic link.
    Ln { target: Text, path: PathWord },
    /// Shows the target of a symbolic link.
    Readlink { path: PathWord },
    /// Creates a semantic directory.
    Smkdir { path: PathWord, query: RawQuery },
    /// Gives a directory a query.
    Setq { path: PathWord, query: RawQuery },
    /// Removes a directory's query.
    Unq { path: PathWord },
    /// Shows a directory's query.
    Query { path: PathWord },
    /// Lists the links of a semantic directory, by default the session's.
    Sls { path: Option<PathWord> },
    /// Makes an item a permanent link of a directory.
    Sln { item: PathWord, dir: PathWord },
    /// Makes an item prohibited in a directory.
    Srm { item: PathWord, dir: PathWord },
    /// Removes an item's mark in a directory.
    Sforget { item: PathWord, dir: PathWord },
    /// Lists the items that satisfy a query.
    Find { query: RawQuery },
    /// Mounts a space.
    Smount { path: PathWord, space: Name },
    /// Asks a mount's space again.
    Ssync { path: PathWord },
    /// Removes a mount.
    Sumount { path: PathWord },
    /// Indexes all dirty files, one after the other.
    Index,
    /// Indexes at most this many dirty files.
    Tick { steps: u64 },
    /// Shows how many things of each kind there are.
    Counts,
    /// Writes the whole tree to a new area of the store.
    Checkpoint,
}
