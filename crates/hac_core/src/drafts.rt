//! Commands that passed the first tests, and their outcomes.
ghost use Rattle.std.specs.Prelude.{◌≡◌};
ghost use Rattle.hac_core.specs.Drafts.{reads};

use hac_model::{Asks, Counts, Event, Resolved};
use std::marker::Model;

/// An event of a state, and how much the state holds once it has happened. The counts are worked
/// out once, and kept until the event is applied.
#[derive(Debug, Drop)]
pub struct Change {
    /// The event.
    pub event: Event,
    /// How much the state holds after it.
    pub counts: Counts,
}

/// What is known of a command that a state doesn't refuse so far.
#[derive(Debug, Drop)]
pub(crate) enum Known {
    /// It only reads.
    Reads(Resolved),
    /// It makes an event.
    Changes(Change),
    /// It indexes this many files.
    Indexes(u64),
    /// It writes the whole state as a new area of the store.
    Saves,
}

/// A command that a machine's state doesn't refuse so far, its paths followed, with what it asks
/// spaces. It says nothing of later states.
#[derive(Drop)]
pub struct Draft {
    known: Known,
    asks: Asks,
}

impl Model for Draft {
    ghost use Rattle.hac_core.specs.Drafts.{DraftSeen};
    ghost use Rattle.hac_core.specs.DraftShape.{draft_code, draft_of};

    ghost Value = { DraftSeen };

    ghost coded = { draft_code };

    ghost view = { draft_of };
}

impl Draft {
    pub(crate) fn new(known: Known, asks: Asks) -> Draft
        ensures { result ≡ record { known = known; asks = asks } }
    {
        Draft { known, asks }
    }

    /// What the command asks spaces. It is answered, or settled, by what they answer.
    pub fn asks(&self) -> &Asks
        ensures { result.now ≡ self.now.asks }
    {
        &self.asks
    }

    /// Whether the command only reads, so that it is answered by `ask` and not by `settle`.
    pub fn reads(&self) -> bool
        ensures { result ≡ reads self.now }
    {
        matches!(self.known, Known::Reads(_))
    }

    pub(crate) fn into_known(self) -> Known
        ensures { result ≡ self.known }
    {
        self.known
    }
}

/// The outcome of a command that changes the state, or the store alone.
#[derive(Debug, Drop)]
pub enum Settled {
    /// One event, which is to be stored.
    Change(Change),
    /// An event that only moves a session. It is never stored.
    Session(Event),
    /// This many index steps.
    Steps(u64),
    /// A new area of the store with the whole state. It has no events.
    Checkpoint,
}
