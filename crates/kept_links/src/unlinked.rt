//! A state that a log makes, event by event. Its links are found once, behind the last.
ghost use Rattle.std.specs.Prelude.{◌≡◌, ◌≤◌, ◌+◌, [], IfOk, IfSome, IsTrue, OnErr, OnOk};
ghost use Rattle.hac_model.specs.Tree.Costs.{opening, weight};
ghost use Rattle.hac_model.specs.Tree.Events.{accepted, apply};
ghost use Rattle.hac_model.specs.Tree.Limits as limits;
ghost use Rattle.hac_model.specs.Tree.Links.{has, transient_at};
ghost use Rattle.hac_model.specs.Tree.Sessions.{is_stored};
ghost use Rattle.hac_model.specs.Tree.{root_alone};
ghost use Rattle.reeval.specs.Settled.{AreLinksOf, AreSetsAsked};
ghost use Rattle.reindex.specs.Ways.{IsWayOf};

use crate::items::begin;
use crate::linked::LinkedState;
use hac_model::{Counts, Event, Memory, Number, Version};
use hac_outside::Steps;
use kept_state::KeptState;
use link_kinds::Links;
use reindex::{Way, finds, links_of, way_of};
use std::alloc::Global;
use std::marker::Model;
use std::sync::ledger::Ledger;

/// A state without its links, seen as that state.
#[derive(Drop)]
pub struct UnlinkedState {
    kept: KeptState,
    // All semantic directories, in order, where they were asked for and none has changed since.
    way: Option<Way>,
}

impl Model for UnlinkedState {
    ghost use Rattle.hac_model.specs.declared.states.State.{State};
    ghost use Rattle.hac_model.specs.contracts.states.State as state;

    ghost Value = { State };

    ghost coded = { state.the_row.coded };

    ghost use Rattle.kept_links.specs.Kept.{state_of_unlinked, IsUnlinked};

    ghost view = { state_of_unlinked };

    ghost invariant = { IsUnlinked };
}

impl UnlinkedState {
    /// The root alone, in a store of a version.
    pub fn new(alloc: Global, version: Version) -> Result<UnlinkedState, Memory>
        ensures { IfOk result (λ unlinked. unlinked ≡ root_alone version) }
    {
        Ok(UnlinkedState {
            kept: KeptState::new(alloc, version)?,
            way: None,
        })
    }

    /// This state, which is ready for nothing.
    pub fn of_kept(kept: KeptState) -> UnlinkedState
        requires { kept.ready ≡ [] }
        ensures { result ≡ kept.state }
    {
        UnlinkedState { kept, way: None }
    }

    /// The state as it is kept.
    pub fn kept(&self) -> &KeptState
        ensures { result.now ≡ record { state = self.now; ready = [] } }
    {
        &self.kept
    }

    /// Whether a directory finds an item: its query does, and the user says nothing of it there.
    pub fn finds<L: Ledger>(
        &mut self,
        alloc: Global,
        dir: Number,
        item: Number,
        probes: &mut Steps<L>,
    ) -> Result<bool, Memory>
        ensures finds { IfOk result (λ finds. finds ≡ has (transient_at self.old dir) item) }
        ensures same { self.new ≡ self.old }
        ensures probes { probes.new ≤ probes.old + weight self.old }
    {
        let way = match self.way.take() {
            Some(way) => way,
            None => way_of(alloc, &self.kept)?,
        };
        let found = finds(alloc, &self.kept, &way, dir, item, probes);
        self.way = Some(way);
        found
    }

    /// Applies an event that is stored. How much the state then holds is given. If memory runs out,
    /// the state stays.
    pub fn happen(&mut self, alloc: Global, event: Event, counts: Counts) -> Result<(), Memory>
        requires accepted { IsTrue (accepted self.old event) }
        requires stored { IsTrue (is_stored event) }
        requires counts { counts ≡ limits.counts (apply self.old event) }
        ensures ok { OnOk result (self.new ≡ apply self.old event) }
        ensures err { OnErr result (self.new ≡ self.old) }
    {
        leave_way(&mut self.way, &self.kept, &event);
        self.kept.prepare(alloc, event, counts)?;
        self.kept.commit();
        Ok(())
    }

    /// The same state with its links.
    pub fn linked<L: Ledger>(
        self,
        alloc: Global,
        probes: &mut Steps<L>,
    ) -> Result<LinkedState, Memory>
        ensures linked { IfOk result (λ linked. linked ≡ record { state = self; ready = [] }) }
        ensures probes { probes.new ≤ probes.old + opening self }
    {
        match way_and_links(alloc, &self.kept, probes) {
            Ok((way, found)) => Ok(LinkedState {
                kept: self.kept,
                found,
                way,
                delta: Vec::new(alloc),
                next: None,
                begun: None,
            }),
            Err(memory) => {
                drop(self);
                Err(memory)
            }
        }
    }
}

/// The way to all semantic directories of a state, and its links.
fn way_and_links<L: Ledger>(
    alloc: Global,
    kept: &KeptState,
    probes: &mut Steps<L>,
) -> Result<(Way, Links), Memory>
    ensures way { IfOk result (λ both. IsWayOf kept.now.state both.0) }
    ensures links { IfOk result (λ both. AreLinksOf kept.now.state both.1) }
    ensures sets { IfOk result (λ both. AreSetsAsked kept.now.state both.1) }
    ensures probes { probes.new ≤ probes.old + opening kept.now.state }
{
    let way = way_of(alloc, kept)?;
    match links_of(alloc, kept, &way, probes) {
        Ok(found) => Ok((way, found)),
        Err(memory) => {
            drop(way);
            Err(memory)
        }
    }
}

/// Forgets the way where the event changes it.
fn leave_way(way: &mut Option<Way>, kept: &KeptState, event: &Event)
    requires accepted { IsTrue (accepted kept.now.state event.now) }
    requires way { IfSome way.old (IsWayOf kept.now.state) }
    ensures before { IfSome way.new (IsWayOf kept.now.state) }
    ensures after { IfSome way.new (IsWayOf (apply kept.now.state event.now)) }
{
    kept.know_valid();
    match begin(kept, event) {
        Some(_) => *way = None,
        None => {}
    }
}
