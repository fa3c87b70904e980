//! How much a state holds of what limits count.

/// How much a state holds of each thing that a limit or the program counts, as `counts` of the
/// specs says.
#[derive(Clone, Copy, Debug, PartialEq, Eq)]
pub struct Counts {
    /// Bytes of all files together, of each the longer of its text and its shown text.
    pub bytes: u64,
    /// Directories of any kind, with the root.
    pub directories: u64,
    /// Semantic directories.
    pub semantics: u64,
    /// Mounts.
    pub mounts: u64,
    /// Symbolic links.
    pub symlinks: u64,
    /// Files.
    pub files: u64,
    /// Files and documents.
    pub items: u64,
    /// Files that are to be indexed.
    pub dirty: u64,
    /// 1 where some path has more names than a path may have, else 0.
    pub long_paths: u64,
    /// The number that the next entry takes.
    pub next: u64,
}
