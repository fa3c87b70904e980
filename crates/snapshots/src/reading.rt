//! A kept state from a snapshot, whatever that is.
ghost use Rattle.std.specs.Prelude.{◌≡◌, [], IfOk, IsErrOf, false};
ghost use Rattle.hac_model.specs.Payload.States.{restored};
ghost use Rattle.hac_model.specs.Tree.Valid.{IsValid};
ghost use Rattle.hac_model.specs.Tree.ValidTest.{is_valid};
ghost use Rattle.snapshots.specs.declared.reading.LoadFault.TheVariants as fault;

use crate::loading::load;
use crate::restoring::restored;
use hac_model::{Memory, Snapshot, State};
use kept_state::KeptState;
use state_check::is_valid;
use std::alloc::Global;

/// Why no state comes of a snapshot.
#[derive(Clone, Copy, Debug, PartialEq, Eq)]
pub enum LoadFault {
    /// It tells no state that there can be.
    Invalid,
    /// Memory ran out.
    Memory,
}

impl From<Memory> for LoadFault {
    ghost use Rattle.snapshots.specs.declared.reading.LoadFault.TheVariants as fault;

    ghost from_gives = { λ _ e. e ≡ fault.Memory };

    fn from(_memory: Memory) -> LoadFault {
        LoadFault::Memory
    }
}

/// The state that a snapshot tells, as a machine keeps it. The snapshot may be any, as one that was
/// read from a file: a state that isn't valid isn't kept. The texts are moved, not copied.
pub fn read(alloc: Global, snapshot: Snapshot) -> Result<KeptState, LoadFault>
    ensures kept { IfOk result (λ kept. kept ≡ record
        { state = restored snapshot; ready = [] }) }
    ensures valid { IfOk result (λ kept. IsValid kept.state) }
    ensures invalid { IsErrOf result fault.Invalid → is_valid (restored snapshot) ≡ false }
{
    let state = restored(alloc, snapshot)?;
    match is_valid(alloc, &state) {
        Ok(true) => Ok(load(alloc, state)?),
        Ok(false) => {
            drop(state);
            Err(LoadFault::Invalid)
        }
        Err(memory) => {
            drop(state);
            Err(memory.into())
        }
    }
}
