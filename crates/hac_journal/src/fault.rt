//! The ways in which an append or a read fails.
ghost use Rattle.std.specs.Prelude.{◌≡◌};
ghost use Rattle.hac_journal.specs.declared.fault.JournalFault.TheVariants as fault;

use hac_outside::Failed;
use std::alloc::{AllocError, AllocFailed};
use thiserror::Error;

/// Why a call of the journal didn't do its work.
#[derive(Clone, Copy, Debug, PartialEq, Eq, Error)]
pub enum JournalFault {
    /// A call of the disk failed. What was being written may be there in part.
    #[error("the disk failed")]
    Disk,
    /// The records don't fit in a store. Nothing was written.
    #[error("the store is full")]
    Full,
    /// Memory ran out. Nothing was written.
    #[error("out of memory")]
    Memory,
}

impl From<Failed> for JournalFault {
    ghost from_gives = { λ _ e. e ≡ fault.Disk };

    fn from(_: Failed) -> Self {
        JournalFault::Disk
    }
}

impl From<AllocError> for JournalFault {
    ghost from_gives = { λ _ e. e ≡ fault.Memory };

    fn from(_: AllocError) -> Self {
        JournalFault::Memory
    }
}

impl<T: Drop> From<AllocFailed<T>> for JournalFault {
    ghost from_gives = { λ _ e. e ≡ fault.Memory };

    fn from(_: AllocFailed<T>) -> Self {
        JournalFault::Memory
    }
}
