//! The limits of a store, each with the word by which a refusal names it. Where a limit depends
//! on the version of a store, what stands here is the greatest of any version.
ghost use Rattle.std.specs.Prelude.{◌≡◌};
ghost use Rattle.hac_model.specs.Tree.Limits.{answer_limits, first_passed, layout_limits};

use crate::counts::Counts;
use crate::versions::Version;

/// The most bytes of a line, its end left out.
pub const LINE_LIMIT: usize = 65_536;

/// The most bytes of a name.
pub const NAME_LIMIT: usize = 255;

/// The most bytes of a file's text.
pub const TEXT_LIMIT: u64 = 1_048_576;

/// The most bytes of a query.
pub const QUERY_LIMIT: usize = 1_024;

/// The most terms of a query: words, beginnings of words, and directories.
pub const TERMS_LIMIT: u64 = 64;

/// The most parentheses and `NOT`s around any one term of a query.
pub const NESTING_LIMIT: u64 = 32;

/// The most bytes of a symbolic link's target.
pub const TARGET_LIMIT: u64 = 1_024;

/// The most files that one `tick` indexes.
pub const TICK_LIMIT: u64 = 65_536;

/// The most spaces that the words of the program name.
pub const SPACES_LIMIT: usize = 16;

/// The most bytes of a script.
pub const SCRIPT_LIMIT: u64 = 268_435_456;

/// The most bytes of all files together. A file counts with the longer of its text and its shown
/// text.
pub const TEXTS_LIMIT: u64 = 67_108_864;

/// The most directories of any kind, with the root.
pub const DIRS_LIMIT: u64 = 65_536;

/// The most semantic directories.
pub const SEMANTICS_LIMIT: u64 = 1_000;

/// The most mounts.
pub const MOUNTS_LIMIT: u64 = 64;

/// The most symbolic links.
pub const SYMLINKS_LIMIT: u64 = 65_536;

/// The most symbolic links that a path follows.
pub const FOLLOW_LIMIT: u64 = 16;

/// The most names in the path of an entry.
pub const PATH_LIMIT: u64 = 64;

/// The most sessions that are in a directory other than the root.
pub const SESSIONS_LIMIT: u64 = 1_024;

/// The most documents of one mount.
pub const DOCS_LIMIT: u64 = 65_536;

/// The most documents in all kept answers together, each counted once for each answer that names
/// it.
pub const ANSWERS_LIMIT: u64 = 4_194_304;

/// The most kept answers: pairs of a mount and a term.
pub const PAIRS_LIMIT: u64 = 65_536;

/// The most files and documents.
pub const ITEMS_LIMIT: u64 = 65_536;

/// The greatest number that the next entry may take.
pub const NUMBERS_LIMIT: u64 = 4_611_686_018_427_387_903;

/// The most bytes of a store, up to the closed gate behind its log.
pub const STORE_LIMIT: u64 = 1_099_511_627_776;

/// The most bytes of an event's payload. No event that can happen has more: it holds one text at
/// most, or what spaces told for a query, which counts against the answers that mounts may keep.
pub const PAYLOAD_LIMIT: u64 = 67_108_864;

/// The most bytes of a catalogue.
pub const CATALOGUE_LIMIT: usize = 67_108_864;

/// What a limit counts. A command that would exceed a limit is refused with its word. Some of them
/// no command of today can exceed.
#[derive(Clone, Copy, Debug, PartialEq, Eq)]
pub enum LimitWord {
    /// Bytes of a line without its end.
    Line,
    /// Bytes of a name.
    Name,
    /// Bytes of a symbolic link's target.
    Target,
    /// Bytes of a file's text.
    Text,
    /// Bytes of a query.
    Query,
    /// Word, prefix and directory terms of a query.
    Terms,
    /// Parentheses and `NOT`s around any one term of a query.
    Nesting,
    /// Bytes of all files together, of each the longer of its text and its shown text.
    Texts,
    /// Directories of any kind, with the root.
    Dirs,
    /// Semantic directories.
    Semantics,
    /// Mounts.
    Mounts,
    /// Symbolic links.
    Symlinks,
    /// Names in the path of an entry. A mount counts one more, for the documents that it may get.
    Path,
    /// Sessions that are in a directory other than the root.
    Sessions,
    /// Documents of one mount.
    Docs,
    /// Files and documents.
    Items,
    /// The next number.
    Numbers,
    /// Numbers in the kept answers, and kept answers.
    Answers,
    /// Bytes of the store file, and the generation of its root.
    Store,
}

/// A limit to be tested: a count above `most` is refused with the word.
#[derive(Clone, Copy, Debug, PartialEq, Eq)]
pub struct Limit {
    /// How much there is, or would be.
    pub count: u64,
    /// The most that there may be.
    pub most: u64,
    /// What is counted.
    pub word: LimitWord,
}

/// The word of the first limit that is exceeded.
#[tactic(auto, unfolding(crate::specs::Tree::Limits::first_passed))]
pub fn first_passed(limits: &[Limit]) -> Option<LimitWord>
    ensures { result ≡ first_passed limits.now }
{
    for limit in limits {
        if limit.count > limit.most {
            return Some(limit.word);
        }
    }
    None
}

impl Counts {
    /// The limits on the tree itself, in the order in which they are tested, in a store of this
    /// version.
    pub fn layout_limits(self, version: Version) -> [Limit; 6]
        ensures { result ≡ layout_limits version self }
    {
        [
            Limit {
                count: self.bytes,
                most: TEXTS_LIMIT,
                word: LimitWord::Texts,
            },
            Limit {
                count: self.directories,
                most: version.dirs_limit(),
                word: LimitWord::Dirs,
            },
            Limit {
                count: self.semantics,
                most: SEMANTICS_LIMIT,
                word: LimitWord::Semantics,
            },
            Limit {
                count: self.mounts,
                most: version.mounts_limit(),
                word: LimitWord::Mounts,
            },
            Limit {
                count: self.symlinks,
                most: version.symlinks_limit(),
                word: LimitWord::Symlinks,
            },
            Limit {
                count: self.long_paths,
                most: 0,
                word: LimitWord::Path,
            },
        ]
    }

    /// The limits that depend on what spaces answer too, in a store of this version.
    pub fn answer_limits(self, version: Version) -> [Limit; 2]
        ensures { result ≡ answer_limits version self }
    {
        [
            Limit {
                count: self.items,
                most: ITEMS_LIMIT,
                word: LimitWord::Items,
            },
            Limit {
                count: self.next,
                most: version.numbers_limit(),
                word: LimitWord::Numbers,
            },
        ]
    }
}
