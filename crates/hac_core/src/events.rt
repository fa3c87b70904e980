//! What a command makes: an event, index steps, a new area of the store, or nothing.
ghost use Rattle.std.specs.Prelude.{◌≡◌, None};
ghost use Rattle.hac_model.specs.Run.Refusals.{blocking_cause, marks, writes};
ghost use Rattle.hac_model.specs.Tree.Events.{dirty};
ghost use Rattle.hac_core.specs.Drafts.{IsFree, Makes};

use hac_model::{Event, Kind, Mark, Name, Number, Place, Resolved, Seq, Text};
use kept_state::KeptState;
use std::alloc::Global;

/// What a command makes.
#[derive(Debug, Drop)]
pub enum Made {
    /// One event.
    Event(Event),
    /// This many index steps.
    Steps(u64),
    /// A new area of the store, with the whole state.
    Area,
    /// Nothing: it only reads.
    Nothing(Resolved),
}

/// What a command makes that nothing blocks, before any space has answered.
pub fn made_by(alloc: Global, kept: &KeptState, command: Resolved) -> Made
    requires { blocking_cause kept.now.state command ≡ None }
    ensures { Makes kept.now.state command result }
{
    match command {
        Resolved::Mkdir { place } => {
            let (dir, name) = vacancy(place);
            Made::Event(Event::Mkdir { dir, name })
        }
        Resolved::Rmdir { dir } => Made::Event(Event::Rmdir { dir }),
        Resolved::Write { place, text } => Made::Event(writing(place, text)),
        Resolved::Cd { session, dir } => Made::Event(Event::Cd { session, dir }),
        Resolved::Mv { entry, place } => {
            let (dir, name) = vacancy(place);
            Made::Event(Event::Mv { entry, dir, name })
        }
        Resolved::Rm { entry } => Made::Event(Event::Rm { entry }),
        Resolved::Ln { place, target } => {
            let (dir, name) = vacancy(place);
            Made::Event(Event::Ln { dir, name, target })
        }
        Resolved::Smkdir { place, query } => {
            let (dir, name) = vacancy(place);
            let told = Seq::new(Vec::new(alloc));
            Made::Event(Event::Smkdir {
                dir,
                name,
                query,
                told,
            })
        }
        Resolved::Setq { dir, query } => {
            let told = Seq::new(Vec::new(alloc));
            Made::Event(Event::Setq { dir, query, told })
        }
        Resolved::Unq { dir } => Made::Event(Event::Unq { dir }),
        Resolved::Sln { item, dir } => Made::Event(marking(item, dir, Kind::Permanent)),
        Resolved::Srm { item, dir } => Made::Event(marking(item, dir, Kind::Prohibited)),
        Resolved::Sforget { item, dir } => Made::Event(marking(item, dir, Kind::Unlinked)),
        Resolved::Smount { place, space } => {
            let (dir, name) = vacancy(place);
            Made::Event(Event::Smount {
                dir,
                name,
                space,
                docs: Seq::new(Vec::new(alloc)),
                told: Seq::new(Vec::new(alloc)),
            })
        }
        Resolved::Ssync { mount } => Made::Event(Event::Ssync {
            mount,
            docs: Seq::new(Vec::new(alloc)),
            told: Seq::new(Vec::new(alloc)),
        }),
        Resolved::Sumount { mount } => Made::Event(Event::Sumount { mount }),
        Resolved::Index => Made::Steps(dirty(kept)),
        Resolved::Tick { steps } => Made::Steps(steps.min(dirty(kept))),
        Resolved::Checkpoint => Made::Area,
        other => Made::Nothing(other),
    }
}

/// How many files are dirty.
fn dirty(kept: &KeptState) -> u64
    ensures { result ≡ dirty kept.now.state }
{
    kept.counts().dirty
}

/// An item gets a mark in a directory, or loses it.
fn marking(item: Number, dir: Number, kind: Kind) -> Event
    ensures { result ≡ marks item dir kind }
{
    Event::Mark(Mark { dir, item, kind })
}

/// The directory and the name of a free place.
fn vacancy(place: Place) -> (Number, Name)
    requires { IsFree place }
    ensures { place ≡ Place.Free result.0 result.1 }
{
    match place {
        Place::Free { dir, name } => (dir, name),
        Place::There(_) => unreachable!(),
    }
}

/// A text is written to the file that is there, or to a new one.
fn writing(place: Place, text: Text) -> Event
    ensures { result ≡ writes place text }
{
    match place {
        Place::There(file) => Event::Rewrite { file, text },
        Place::Free { dir, name } => Event::NewFile { dir, name, text },
    }
}
