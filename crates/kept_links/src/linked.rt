//! The state with its links, and the events that it is ready for.
ghost use Rattle.std.specs.Prelude.{◌≡◌, ◌≤◌, ◌+◌, ◌∷◌, [], IfOk, IsTrue, None, OnErr, OnOk};
ghost use Rattle.std.specs.Prelude.{replicate, unwrap_or};
ghost use Rattle.hac_model.specs.Laws.{AllHappen};
ghost use Rattle.hac_model.specs.Tree.Costs.{cost, costs};
ghost use Rattle.hac_model.specs.Tree.Events.{accepted, apply, apply_all};
ghost use Rattle.hac_model.specs.Tree.Limits as limits;
ghost use Rattle.hac_model.specs.Tree.Links.{atom};
ghost use Rattle.hac_model.specs.Tree.Sessions.{is_stored};
ghost use Rattle.hac_model.specs.Tree.{raised, root_alone};
ghost use Rattle.kept_links.specs.Kept.{is_step};
ghost use Rattle.reeval.specs.Settled.{AreLinksOf};

use crate::news::{prepared_news, prepared_steps};
use crate::sets::drop_plain;
use hac_model::{Counts, Event, Memory, Name, Number, Term, Version};
use hac_outside::Steps;
use hac_words::has_term;
use kept_lookups::{is_document, parent_of, shown_of};
use kept_state::KeptState;
use link_kinds::Links;
use reeval::{Change, apply};
use reindex::Way;
use std::alloc::Global;
use std::marker::Model;
use std::sync::ledger::Ledger;

/// A state with its links, seen as that state and as the events for which memory was taken.
#[derive(Drop)]
pub struct LinkedState {
    pub(crate) kept: KeptState,
    pub(crate) found: Links,
    // All semantic directories, in order.
    pub(crate) way: Way,
    // What is new once the events are applied that were prepared.
    pub(crate) delta: Vec<Change>,
    // All semantic directories then, if there are others, or they are in another order.
    pub(crate) next: Option<Way>,
    // The directory at which the prepared event begins. It alone may have sets and not be semantic,
    // until the event is applied or dropped.
    pub(crate) begun: Option<Number>,
}

impl Model for LinkedState {
    ghost use Rattle.kept_state.specs.Seen.{Seen, seen_code};

    ghost Value = { Seen };

    ghost coded = { seen_code };

    ghost use Rattle.kept_links.specs.Kept.{seen_of, AreLinksKept};

    ghost view = { seen_of };

    ghost invariant = { AreLinksKept };
}

impl LinkedState {
    /// The root alone, in a store of a version.
    pub fn new(alloc: Global, version: Version) -> Result<LinkedState, Memory>
        ensures { IfOk result (λ linked. linked
            ≡ record { state = root_alone version; ready = [] }) }
    {
        Ok(LinkedState {
            kept: KeptState::new(alloc, version)?,
            found: Links::new(alloc),
            way: Way::new(alloc),
            delta: Vec::new(alloc),
            next: None,
            begun: None,
        })
    }

    /// The state without its links.
    pub fn kept(&self) -> &KeptState
        ensures { result.now ≡ self.now }
    {
        &self.kept
    }

    /// The links of all directories: what they find, and what is lent to them.
    pub fn links(&self) -> &Links
        ensures { AreLinksOf self.now.state result.now }
    {
        &self.found
    }

    /// Whether an item has a term: a document by what its mount keeps, a file by its text as it was
    /// last indexed. That is one probe.
    pub fn has<L: Ledger>(&self, term: &Term, item: Number, probes: &mut Steps<L>) -> bool
        ensures answer { result ≡ atom self.now.state term.now item }
        ensures probe { probes.new ≡ probes.old + 1 }
    {
        probes.tick();
        if is_document(&self.kept, item) {
            return self
                .kept
                .has_answer(parent_of(&self.kept, item), term, item);
        }
        match shown_of(&self.kept, item) {
            Some(text) => has_term(text, term),
            None => false,
        }
    }

    /// Takes the memory that an event wants that is stored, so that `commit` can apply it. How much
    /// the state then holds is given. The state doesn't change, whatever the answer, and what was
    /// prepared before is dropped.
    pub fn prepare<L: Ledger>(
        &mut self,
        alloc: Global,
        event: Event,
        counts: Counts,
        probes: &mut Steps<L>,
    ) -> Result<(), Memory>
        requires accepted { IsTrue (accepted self.old.state event) }
        requires stored { IsTrue (is_stored event) }
        requires counts { counts ≡ limits.counts (apply self.old.state event) }
        ensures ok { OnOk result (self.new
            ≡ record { state = self.old.state; ready = event ∷ [] }) }
        ensures err { OnErr result (self.new ≡ record { state = self.old.state; ready = [] }) }
        ensures probes { probes.new ≤ probes.old + cost self.old.state event }
    {
        if is_step(&event) {
            drop(event);
            return self.prepare_steps(alloc, 1, probes);
        }
        self.delta.clear();
        self.next = None;
        drop_plain(&self.kept, &mut self.found, self.begun);
        self.begun = None;
        self.kept.prepare(alloc, event, counts)?;
        match prepared_news(alloc, &self.kept, &mut self.found, &self.way, probes) {
            Ok(news) => {
                self.delta = news.delta;
                self.next = news.way;
                self.begun = news.begun;
                Ok(())
            }
            Err(memory) => {
                self.kept.prepare_steps(0);
                Err(memory)
            }
        }
    }

    /// The same for a session that is to stand in another directory.
    pub fn prepare_session(
        &mut self,
        alloc: Global,
        session: Name,
        dir: Number,
    ) -> Result<(), Memory>
        requires { IsTrue (accepted self.old.state (Event.Cd session dir)) }
        ensures ok { OnOk result (self.new
            ≡ record { state = self.old.state; ready = Event.Cd session dir ∷ [] }) }
        ensures err { OnErr result (self.new ≡ record { state = self.old.state; ready = [] }) }
    {
        self.delta.clear();
        self.next = None;
        drop_plain(&self.kept, &mut self.found, self.begun);
        self.begun = None;
        self.kept.know_valid();
        self.kept.prepare_session(alloc, session, dir)?;
        Ok(())
    }

    /// Takes the memory that steps want: what is new in the links of the files that they index.
    pub fn prepare_steps<L: Ledger>(
        &mut self,
        alloc: Global,
        count: u64,
        probes: &mut Steps<L>,
    ) -> Result<(), Memory>
        requires { AllHappen self.old.state (replicate count Event.Step) }
        ensures ok { OnOk result (self.new
            ≡ record { state = self.old.state; ready = replicate count Event.Step }) }
        ensures err { OnErr result (self.new ≡ record { state = self.old.state; ready = [] }) }
        ensures probes { probes.new ≤ probes.old
            + costs self.old.state (replicate count Event.Step) }
    {
        self.delta.clear();
        self.next = None;
        drop_plain(&self.kept, &mut self.found, self.begun);
        self.begun = None;
        self.kept.prepare_steps(0);
        self.kept.know_valid();
        let delta = prepared_steps(alloc, &self.kept, &mut self.found, &self.way, count, probes)?;
        self.kept.prepare_steps(count);
        self.delta = delta;
        Ok(())
    }

    /// The state in a store of version 2, with the same links. A change that was prepared is
    /// dropped.
    pub fn raise(&mut self)
        ensures { self.new ≡ record { state = raised self.old.state; ready = [] } }
    {
        self.delta.clear();
        self.next = None;
        drop_plain(&self.kept, &mut self.found, self.begun);
        self.begun = None;
        self.kept.raise();
    }

    /// Applies the prepared events. This takes no memory, and can't fail. A directory that isn't
    /// semantic any more gives back its sets.
    pub fn commit(&mut self)
        ensures { self.new ≡ record {
          state = apply_all self.old.state self.old.ready;
          ready = [];
        } }
    {
        self.kept.commit();
        apply(&mut self.found, self.delta.as_slice());
        self.delta.clear();
        put_way(&mut self.way, &mut self.next);
        self.kept.know_valid();
        self.found.know_lists();
        drop_plain(&self.kept, &mut self.found, self.begun);
        self.begun = None;
    }
}

/// Takes the next way, if there is one.
fn put_way(way: &mut Way, next: &mut Option<Way>)
    ensures way { way.new ≡ unwrap_or next.old way.old }
    ensures next { next.new ≡ None }
{
    if let Some(new) = next.take() {
        *way = new;
    }
}

/// Whether an event is a step.
fn is_step(event: &Event) -> bool
    ensures { result ≡ is_step event.now }
{
    matches!(event, Event::Step)
}
