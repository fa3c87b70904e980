//! Versions of stores, and the limits that depend on them.
ghost use Rattle.std.specs.Prelude.{◌≡◌};
ghost use Rattle.hac_model.specs.Versions.{dirs_limit, docs_limit, mounts_limit, numbers_limit};
ghost use Rattle.hac_model.specs.Versions.{sessions_limit, store_limit, symlinks_limit};

use crate::limits::{
    DIRS_LIMIT, DOCS_LIMIT, MOUNTS_LIMIT, NUMBERS_LIMIT, SESSIONS_LIMIT, STORE_LIMIT,
    SYMLINKS_LIMIT,
};

/// The version of what is live in a store. It tells how many bytes a number has, and how much there
/// may be.
#[derive(Clone, Copy, Debug, PartialEq, Eq)]
pub enum Version {
    /// Numbers of four bytes.
    One,
    /// Numbers of eight bytes, and more of most things.
    Two,
}

impl Version {
    /// The most directories of any kind, with the root.
    pub(crate) fn dirs_limit(self) -> u64
        ensures { result ≡ dirs_limit self }
    {
        match self {
            Version::One => 10_000,
            Version::Two => DIRS_LIMIT,
        }
    }

    /// The most mounts.
    pub(crate) fn mounts_limit(self) -> u64
        ensures { result ≡ mounts_limit self }
    {
        match self {
            Version::One => 16,
            Version::Two => MOUNTS_LIMIT,
        }
    }

    /// The most symbolic links.
    pub(crate) fn symlinks_limit(self) -> u64
        ensures { result ≡ symlinks_limit self }
    {
        match self {
            Version::One => 10_000,
            Version::Two => SYMLINKS_LIMIT,
        }
    }

    /// The most sessions that are in a directory other than the root.
    pub fn sessions_limit(self) -> u64
        ensures { result ≡ sessions_limit self }
    {
        match self {
            Version::One => 64,
            Version::Two => SESSIONS_LIMIT,
        }
    }

    /// The most documents of one mount.
    pub fn docs_limit(self) -> u64
        ensures { result ≡ docs_limit self }
    {
        match self {
            Version::One => 10_000,
            Version::Two => DOCS_LIMIT,
        }
    }

    /// The greatest number that the next entry may take.
    pub(crate) fn numbers_limit(self) -> u64
        ensures { result ≡ numbers_limit self }
    {
        match self {
            Version::One => 4_294_967_295,
            Version::Two => NUMBERS_LIMIT,
        }
    }

    /// The most bytes of a store, up to the closed gate behind its log.
    pub fn store_limit(self) -> u64
        ensures { result ≡ store_limit self }
    {
        match self {
            Version::One => 4_294_967_296,
            Version::Two => STORE_LIMIT,
        }
    }
}
