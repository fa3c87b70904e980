//! How a run ends.
ghost use Rattle.std.specs.Prelude.{◌≡◌};
ghost use Rattle.hac_top.specs.Ends.{status_number, store_status};

use hac_model::Memory;
use hac_store::StoreFault;
use line_reader::LineFault;

/// How a run ended.
#[derive(Clone, Copy, Debug, PartialEq, Eq)]
pub enum Status {
    /// The script was read to its end, and no command was refused.
    Done,
    /// The script was read to its end, and some command was refused.
    SomeRefused,
    /// The command line is faulty.
    Usage,
    /// The script can't be read further.
    ReadFault,
    /// The replies can't be written further.
    WriteFault,
    /// The store can't be read or written further.
    DiskFault,
    /// The file holds no store.
    NotStore {
        /// The place of the first wrong byte.
        at: u64,
    },
    /// Memory ran out.
    Memory,
    /// A space can't be attached.
    BadSpace {
        /// Which of the words that name a space it is, from 1.
        which: u64,
        /// The first bad line of its file, from 1. None where the file can't be read.
        line: Option<u64>,
    },
    /// The script is longer than a script may be.
    TooLong,
    /// A new store was asked for, and the file holds one already.
    AlreadyStore,
}

impl Status {
    /// The number with which a process ends.
    pub fn number(self) -> u8
        ensures { result ≡ status_number self }
    {
        match self {
            Status::Done => 0,
            Status::SomeRefused => 1,
            Status::Usage => 2,
            Status::ReadFault => 3,
            Status::WriteFault => 4,
            Status::DiskFault => 5,
            Status::NotStore { .. } => 6,
            Status::Memory => 7,
            Status::BadSpace { .. } => 8,
            Status::TooLong => 9,
            Status::AlreadyStore => 10,
        }
    }
}

impl From<LineFault> for Status {
    ghost use Rattle.std.specs.Prelude.{◌≡◌};
    ghost use Rattle.hac_top.specs.Ends.{line_status};

    ghost from_gives = { λ fault status. status ≡ line_status fault };

    fn from(fault: LineFault) -> Status {
        match fault {
            LineFault::Read => Status::ReadFault,
            LineFault::Memory => Status::Memory,
            LineFault::TooLong => Status::TooLong,
        }
    }
}

impl From<Memory> for Status {
    ghost use Rattle.std.specs.Prelude.{◌≡◌};
    ghost use Rattle.hac_top.specs.declared.status.Status.TheVariants as status;

    ghost from_gives = { λ _ made. made ≡ status.Memory };

    fn from(_memory: Memory) -> Status {
        Status::Memory
    }
}

/// The status of a run whose store failed. Where a store is full this is no status: there it has a
/// reply, and no store is full as it is opened.
pub(crate) fn store_status(fault: StoreFault) -> Status
    requires { fault ≡ StoreFault.Full → ⊥ }
    ensures { result ≡ store_status fault }
{
    match fault {
        StoreFault::Disk => Status::DiskFault,
        StoreFault::NotStore { at } => Status::NotStore { at },
        StoreFault::AlreadyStore => Status::AlreadyStore,
        StoreFault::Memory => Status::Memory,
        StoreFault::Full => unreachable!(),
    }
}
