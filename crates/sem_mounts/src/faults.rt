//! Why a call of spaces fails.
use crate::catalogues::CatalogueFault;
use hac_model::Memory;
use hac_outside::Failed;
use thiserror::Error;

/// Why a space wasn't attached.
#[derive(Clone, Copy, Debug, PartialEq, Eq, Error)]
pub enum AttachFault {
    /// The outside failed. A file that is missing is such a fault.
    #[error("the file could not be read")]
    Failed,
    /// The file is no catalogue.
    #[error("line {line} of the catalogue is bad")]
    BadCatalogue {
        /// The number of the first bad line, from 1.
        line: u64,
    },
    /// Memory ran out.
    #[error("out of memory")]
    Memory,
}

/// Why a space gave no answer.
#[derive(Clone, Copy, Debug, PartialEq, Eq, Error)]
pub enum SpaceFault {
    /// The outside failed.
    #[error("the space failed")]
    Failed,
    /// There is no such space.
    #[error("no such space is attached")]
    Absent,
    /// Memory ran out.
    #[error("out of memory")]
    Memory,
}

impl From<Memory> for AttachFault {
    ghost use Rattle.std.specs.Prelude.{◌≡◌};
    ghost use Rattle.sem_mounts.specs.declared.faults.AttachFault.TheVariants as fault;

    ghost from_gives = { λ _ e. e ≡ fault.Memory };

    fn from(_memory: Memory) -> AttachFault {
        AttachFault::Memory
    }
}

impl From<Memory> for SpaceFault {
    ghost use Rattle.std.specs.Prelude.{◌≡◌};
    ghost use Rattle.sem_mounts.specs.declared.faults.SpaceFault.TheVariants as fault;

    ghost from_gives = { λ _ e. e ≡ fault.Memory };

    fn from(_memory: Memory) -> SpaceFault {
        SpaceFault::Memory
    }
}

impl From<Failed> for AttachFault {
    ghost use Rattle.std.specs.Prelude.{◌≡◌};
    ghost use Rattle.sem_mounts.specs.declared.faults.AttachFault.TheVariants as fault;

    ghost from_gives = { λ _ e. e ≡ fault.Failed };

    fn from(_failed: Failed) -> AttachFault {
        AttachFault::Failed
    }
}

impl From<Failed> for SpaceFault {
    ghost use Rattle.std.specs.Prelude.{◌≡◌};
    ghost use Rattle.sem_mounts.specs.declared.faults.SpaceFault.TheVariants as fault;

    ghost from_gives = { λ _ e. e ≡ fault.Failed };

    fn from(_failed: Failed) -> SpaceFault {
        SpaceFault::Failed
    }
}

impl From<CatalogueFault> for AttachFault {
    ghost use Rattle.std.specs.Prelude.{◌≡◌};
    ghost use Rattle.sem_mounts.specs.Reading.{attach_fault};

    ghost from_gives = { λ fault e. e ≡ attach_fault fault };

    fn from(fault: CatalogueFault) -> AttachFault {
        match fault {
            CatalogueFault::Bad { line } => AttachFault::BadCatalogue { line },
            CatalogueFault::Memory => AttachFault::Memory,
        }
    }
}
