//! A log that is replayed: its events happen one by one, and links are found behind the last.
ghost use Rattle.std.specs.Prelude.{◌≡◌, ◌≤◌, ◌+◌, if◌then◌else◌, [], IfOk, IsErrOf, IsTrue};
ghost use Rattle.std.specs.Prelude.{OnOk, false};
ghost use Rattle.hac_model.specs.Payload.States.{restored};
ghost use Rattle.hac_model.specs.Run.History.{replay_cost};
ghost use Rattle.hac_model.specs.Tree.Costs.{opening};
ghost use Rattle.hac_model.specs.Tree.Events.{accepted, apply};
ghost use Rattle.hac_model.specs.Tree.Sessions.{is_stored};
ghost use Rattle.hac_model.specs.Tree.Valid.{IsValid};
ghost use Rattle.hac_model.specs.Tree.ValidTest.{is_valid};
ghost use Rattle.hac_model.specs.Tree.{root_alone};
ghost use Rattle.snapshots.specs.declared.reading.LoadFault.TheVariants as fault;
ghost use Rattle.event_check.specs.Fitting.{FitsAs, prohibits_found};

use crate::machine::Machine;
use event_check::fits;
use hac_model::{Counts, Event, Memory, Snapshot, Version};
use hac_outside::Steps;
use kept_links::UnlinkedState;
use kept_lookups::version;
use snapshots::LoadFault;
use std::alloc::Global;
use std::marker::Model;
use std::sync::ledger::Ledger;

/// A state that a log makes, event by event, seen as that state. Commands want its links, which are
/// found once all events have happened.
#[derive(Drop)]
pub struct Replay {
    alloc: Global,
    unlinked: UnlinkedState,
}

impl Model for Replay {
    ghost use Rattle.hac_model.specs.declared.states.State.{State};
    ghost use Rattle.hac_model.specs.contracts.states.State as state;

    ghost Value = { State };

    ghost coded = { state.the_row.coded };

    ghost use Rattle.hac_core.specs.Shape.{state_of_replay};

    ghost view = { state_of_replay };
}

impl Replay {
    /// The root alone, in a store of a version.
    pub fn new(alloc: Global, version: Version) -> Result<Replay, Memory>
        ensures { IfOk result (λ replay. replay ≡ root_alone version) }
    {
        Ok(Replay {
            alloc,
            unlinked: UnlinkedState::new(alloc, version)?,
        })
    }

    /// The version of the state's store.
    pub fn version(&self) -> Version
        ensures { result ≡ self.now.version }
    {
        version(self.unlinked.kept())
    }

    /// The state that a snapshot tells, for events to go on from. The snapshot may be any, as one
    /// that was read from a file.
    pub fn read(alloc: Global, snapshot: Snapshot) -> Result<Replay, LoadFault>
        ensures state { IfOk result (λ replay. replay ≡ restored snapshot) }
        ensures valid { IfOk result IsValid }
        ensures invalid { IsErrOf result fault.Invalid → is_valid (restored snapshot) ≡ false }
    {
        let kept = snapshots::read(alloc, snapshot)?;
        Ok(Replay {
            alloc,
            unlinked: UnlinkedState::of_kept(kept),
        })
    }

    /// Applies an event that is stored if it can happen, and says whether it could. It may be any
    /// such event, as one that was read from a log. An event that prohibits an item has that one
    /// judged; no other is judged here.
    pub fn happen<L: Ledger>(&mut self, event: Event, probes: &mut Steps<L>) -> Result<bool, Memory>
        requires { IsTrue (is_stored event) }
        ensures happened { IfOk result (λ happened. happened ≡ accepted self.old event) }
        ensures state { OnOk result (self.new
            ≡ (if accepted self.old event then apply self.old event else self.old)) }
        ensures probes { probes.new ≤ probes.old + replay_cost self.old event }
    {
        match self.fits(&event, probes) {
            Ok(Some(counts)) => {
                self.unlinked.happen(self.alloc, event, counts)?;
                Ok(true)
            }
            Ok(None) => {
                drop(event);
                Ok(false)
            }
            Err(memory) => {
                drop(event);
                Err(memory)
            }
        }
    }

    /// The machine of this state, whose links are found now: each item is judged once by each
    /// query.
    pub fn machine<L: Ledger>(self, probes: &mut Steps<L>) -> Result<Machine, Memory>
        ensures machine { IfOk result (λ machine. machine ≡ record { state = self; ready = [] }) }
        ensures valid { IsValid self }
        ensures probes { probes.new ≤ probes.old + opening self }
    {
        let Replay { alloc, unlinked } = self;
        unlinked.kept().know_valid();
        Ok(Machine {
            alloc,
            linked: unlinked.linked(alloc, probes)?,
        })
    }

    /// Whether an event can happen, and how much the state would hold then.
    fn fits<L: Ledger>(
        &mut self,
        event: &Event,
        probes: &mut Steps<L>,
    ) -> Result<Option<Counts>, Memory>
        ensures fits { IfOk result (FitsAs self.old event.now) }
        ensures same { self.new ≡ self.old }
        ensures probes { probes.new ≤ probes.old + replay_cost self.old event.now }
    {
        let found = self.prohibits_found(event, probes)?;
        fits(self.alloc, self.unlinked.kept(), event, found)
    }

    /// Whether an event prohibits an item that the directory finds.
    fn prohibits_found<L: Ledger>(
        &mut self,
        event: &Event,
        probes: &mut Steps<L>,
    ) -> Result<bool, Memory>
        ensures found { IfOk result (λ found. found ≡ prohibits_found self.old event.now) }
        ensures same { self.new ≡ self.old }
        ensures probes { probes.new ≤ probes.old + replay_cost self.old event.now }
    {
        match event {
            Event::Mark(mark) if mark.kind.is_prohibited() => {
                self.unlinked.finds(self.alloc, mark.dir, mark.item, probes)
            }
            _ => Ok(false),
        }
    }
}
