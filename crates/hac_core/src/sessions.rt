//! What sessions block, and that they may go where they are sent.
ghost use Rattle.hac_model.specs.Run.Answers.{Passes};
ghost use Rattle.hac_model.specs.Run.Refusals.{busy_cause, session_cause};

use hac_model::{Deny, LimitWord, Name, Number, Refusal};
use kept_state::KeptState;

/// No session stands in a directory to be removed. Where some do, the refusal has the least of
/// their names.
pub fn require_idle(kept: &KeptState, dir: Number) -> Result<(), Deny>
    ensures { Passes result (busy_cause kept.now.state dir) }
{
    match kept.least_visitor(dir)? {
        Some(name) => Err(Deny::Refused(Refusal::Busy(name))),
        None => Ok(()),
    }
}

/// There is a place for a session in a directory.
pub fn require_place(kept: &KeptState, session: &Name, dir: Number) -> Result<(), Deny>
    ensures { Passes result (session_cause kept.now.state session.now dir) }
{
    if kept.has_place_for(session, dir) {
        return Ok(());
    }
    Err(Deny::Refused(Refusal::Limit(LimitWord::Sessions)))
}
