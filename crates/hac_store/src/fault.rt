//! The ways in which a call of a store fails.
use hac_checkpoint::RootFault;
use hac_journal::JournalFault;
use hac_model::Memory;
use hac_outside::Failed;
use thiserror::Error;

/// Why a call of a store didn't do its work.
#[derive(Clone, Copy, Debug, PartialEq, Eq, Error)]
pub enum StoreFault {
    /// A call of the disk failed.
    #[error("the disk failed")]
    Disk,
    /// The file holds no store.
    #[error("no store: byte {at}")]
    NotStore {
        /// The place of the first wrong byte, or the file's length where it ends
        /// too early.
        at: u64,
    },
    /// The file holds a store already.
    #[error("a store already")]
    AlreadyStore,
    /// The records don't fit in the store.
    #[error("the store is full")]
    Full,
    /// Memory ran out.
    #[error("out of memory")]
    Memory,
}

impl From<Failed> for StoreFault {
    ghost use Rattle.std.specs.Prelude.{◌≡◌};
    ghost use Rattle.hac_store.specs.declared.fault.StoreFault.TheVariants as fault;

    ghost from_gives = { λ _ e. e ≡ fault.Disk };

    fn from(_failed: Failed) -> StoreFault {
        StoreFault::Disk
    }
}

impl From<Memory> for StoreFault {
    ghost use Rattle.std.specs.Prelude.{◌≡◌};
    ghost use Rattle.hac_store.specs.declared.fault.StoreFault.TheVariants as fault;

    ghost from_gives = { λ _ e. e ≡ fault.Memory };

    fn from(_memory: Memory) -> StoreFault {
        StoreFault::Memory
    }
}

impl From<RootFault> for StoreFault {
    ghost use Rattle.std.specs.Prelude.{◌≡◌};
    ghost use Rattle.hac_store.specs.Faults.{of_root};

    ghost from_gives = { λ root e. e ≡ of_root root };

    fn from(fault: RootFault) -> StoreFault {
        match fault {
            RootFault::Disk => StoreFault::Disk,
            RootFault::Bad { at } => StoreFault::NotStore { at },
        }
    }
}

impl From<JournalFault> for StoreFault {
    ghost use Rattle.std.specs.Prelude.{◌≡◌};
    ghost use Rattle.hac_store.specs.Faults.{of_journal};

    ghost from_gives = { λ journal e. e ≡ of_journal journal };

    fn from(fault: JournalFault) -> StoreFault {
        match fault {
            JournalFault::Disk => StoreFault::Disk,
            JournalFault::Full => StoreFault::Full,
            JournalFault::Memory => StoreFault::Memory,
        }
    }
}
