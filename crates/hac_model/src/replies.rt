//! The replies to commands.
ghost use Rattle.std.specs.Prelude.{◌≡◌};
ghost use Rattle.hac_model.specs.declared.replies.Deny.TheVariants.{Memory};

use crate::bytes::{Name, Seq};
use crate::limits::LimitWord;
use crate::memory::Memory;
use crate::paths::Path;
use std::alloc::{AllocError, AllocFailed};

/// The reply to a command.
#[derive(Clone, Debug, Drop, PartialEq, Eq)]
pub enum Reply {
    /// The command was carried out: its data lines, without their ends.
    Lines(Seq<Name>),
    /// The command was refused, and changed nothing.
    Refused(Refusal),
}

/// Why a command is refused. How each is printed is said by `refusal_text` of the specs.
#[derive(Clone, Debug, Drop, PartialEq, Eq)]
pub enum Refusal {
    /// The line isn't a command.
    BadLine,
    /// A path word breaks the rules of names.
    BadName,
    /// Nothing is at the path, where an entry is wanted.
    NoPath(Path),
    /// Something other than a directory is at the path, where a directory is wanted.
    NotDir(Path),
    /// A directory is at the path, where a file is wanted.
    NotFile(Path),
    /// Something is already at the path where an entry is to be created.
    Exists(Path),
    /// The directory to be removed isn't empty.
    NotEmpty(Path),
    /// The entry would move into itself or below itself.
    Under(Path),
    /// The root can't be removed or moved, and gets no query.
    Root,
    /// The bytes aren't a query: the least place, counted from 1, such that no query begins with
    /// the bytes up to it.
    BadQuery(u64),
    /// The directory would depend on itself through this one.
    Cycle(Path),
    /// The query of this directory names the one to be removed, or that one was added to it.
    Referenced(Path),
    /// This session is in the directory to be removed.
    Busy(Name),
    /// The directory isn't semantic.
    NotSemantic(Path),
    /// The item isn't a link of the directory.
    NotLinked(Path),
    /// The item is already a permanent link of the directory.
    Already(Path),
    /// The item has no mark in the directory.
    NoMark(Path),
    /// The space isn't attached.
    NoSpace(Name),
    /// The space failed.
    SpaceFault(Name),
    /// The command would exceed a limit.
    Limit(LimitWord),
    /// The entries of this mount belong to its space.
    InMount(Path),
    /// The path leads through more symbolic links than a path may.
    Loop(Path),
    /// The entry isn't a symbolic link.
    NotLink(Path),
    /// The script ends before all bytes of a `put` came.
    ShortPut,
    /// The directory isn't a mount.
    NotMount(Path),
    /// The document's space no longer has it.
    Gone(Path),
}

/// Why a call returns no value: the command is refused, or memory ran out.
#[derive(Clone, Debug, Drop, PartialEq, Eq)]
pub enum Deny {
    /// The command is refused.
    Refused(Refusal),
    /// Memory ran out.
    Memory,
}

impl From<Memory> for Deny {
    ghost from_gives = { λ _ deny. deny ≡ Memory };

    fn from(_memory: Memory) -> Deny {
        Deny::Memory
    }
}

impl From<AllocError> for Deny {
    ghost from_gives = { λ _ deny. deny ≡ Memory };

    fn from(_error: AllocError) -> Deny {
        Deny::Memory
    }
}

impl<T: Drop> From<AllocFailed<T>> for Deny {
    ghost from_gives = { λ _ deny. deny ≡ Memory };

    fn from(_error: AllocFailed<T>) -> Deny {
        Deny::Memory
    }
}
