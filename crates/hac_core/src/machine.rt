//! The machine itself.
ghost use Rattle.std.specs.Prelude.{◌≡◌, ◌≤◌, ◌+◌, [], IfOk, IfErr, IsTrue, OnOk, OnErr};
ghost use Rattle.std.specs.Prelude.{true, false};
ghost use Rattle.hac_model.specs.Payload.States.{snapshot_of};
ghost use Rattle.hac_model.specs.Run.Answers.{Refuses};
ghost use Rattle.hac_model.specs.Run.Costs.{answering};
ghost use Rattle.hac_model.specs.Tree.Costs.{costs};
ghost use Rattle.hac_model.specs.Tree.Events.{apply_all, dirty};
ghost use Rattle.hac_model.specs.Script.Lines.{is_spelled_line};
ghost use Rattle.hac_model.specs.Run.Refusals.{cause, early_refusal};
ghost use Rattle.hac_model.specs.Spaces.Answering.{AreAnswersTo};
ghost use Rattle.hac_model.specs.Tree.{raised, root_alone};
ghost use Rattle.hac_model.specs.Tree.Valid.{IsValid};
ghost use Rattle.hac_core.specs.Drafts.{CanSettle, IsDraft, IsDraftFor, IsDraftOf, Settles, reads};
ghost use Rattle.hac_core.specs.Drafts.{Shows, settled_events};

use crate::blocking::require_unblocked;
use crate::drafting::drafted;
use crate::drafts::{Change, Draft, Known, Settled};
use crate::settling::settled;
use crate::showing::shown;
use command_paths::followed;
use hac_model::{Answers, Deny, Event, Line, Memory, Reply, Resolved, Snapshot, Version};
use hac_outside::Steps;
use kept_links::LinkedState;
use kept_lookups::version;
use std::alloc::Global;
use std::marker::Model;
use std::sync::ledger::Ledger;

/// A state that is kept with its links so that commands are quick, and the events for which memory
/// was taken.
#[derive(Drop)]
pub struct Machine {
    pub(crate) alloc: Global,
    pub(crate) linked: LinkedState,
}

impl Model for Machine {
    ghost use Rattle.hac_core.specs.Seen.{Seen, seen_code};

    ghost Value = { Seen };

    ghost coded = { seen_code };

    ghost use Rattle.hac_core.specs.Shape.{seen_of};

    ghost view = { seen_of };
}

impl Machine {
    /// The root alone, in a store of a version.
    pub fn new(alloc: Global, version: Version) -> Result<Machine, Memory>
        ensures { IfOk result (λ machine. machine ≡
            record { state = root_alone version; ready = [] }) }
    {
        Ok(Machine {
            alloc,
            linked: LinkedState::new(alloc, version)?,
        })
    }

    /// The version of the state's store.
    pub fn version(&self) -> Version
        ensures { result ≡ self.now.state.version }
    {
        version(self.linked.kept())
    }

    /// The state in a store of version 2. What was prepared is dropped.
    pub fn raise(&mut self)
        ensures { self.new ≡ record { state = raised self.old.state; ready = [] } }
    {
        self.linked.raise();
    }

    /// How many files are dirty.
    pub fn dirty(&self) -> u64
        ensures dirty { result ≡ dirty self.now.state }
        ensures valid { IsValid self.now.state }
    {
        self.linked.kept().counts().dirty
    }

    /// What is stored of the state. It copies the texts.
    pub fn snapshot(&self) -> Result<Snapshot, Memory>
        ensures { IfOk result (λ snapshot. snapshot ≡ snapshot_of self.now.state) }
    {
        snapshots::snapshot(self.alloc, self.linked.kept())
    }

    /// Follows the paths of a line that spells a command, and says whether the state refuses it
    /// whatever spaces answer: for what the paths lead to, for what blocks it, for a limit on the
    /// tree itself, or because a directory would depend on itself, in this order. The draft has
    /// what the command asks spaces.
    pub fn check(&self, line: Line) -> Result<Draft, Deny>
        requires { IsTrue (is_spelled_line line) }
        ensures draft { IfOk result (IsDraftOf self.now.state line) }
        ensures refused { IfErr result (λ deny. Refuses deny (early_refusal self.now.state line)) }
    {
        let kept = self.linked.kept();
        kept.know_valid();
        let command = followed(self.alloc, kept, line)?;
        match require_unblocked(self.alloc, &self.linked, &command) {
            Ok(()) => drafted(self.alloc, kept, command),
            Err(deny) => {
                drop(command);
                Err(deny)
            }
        }
    }

    /// Answers a command that reads, given what spaces answered to its questions. Only the space of
    /// a document can have a cause against it: that the document is gone. A listing asks of no item
    /// whether it has a term, since its links are kept. Only `find` does: it asks of each item once
    /// for each term of its query, at most.
    pub fn ask<L: Ledger>(
        &self,
        draft: Draft,
        answers: Answers,
        probes: &mut Steps<L>,
    ) -> Result<Reply, Deny>
        requires made { IsDraft self.now.state draft }
        requires reads { reads draft ≡ true }
        requires answered { AreAnswersTo draft.asks answers }
        ensures reply { (command : Resolved) → IsDraftFor self.now.state command draft →
            IfOk result (Shows self.now.state answers command) }
        ensures refused { (command : Resolved) → IsDraftFor self.now.state command draft →
            IfErr result (λ deny. Refuses deny (cause answers self.now.state command)) }
        ensures probes { (command : Resolved) → IsDraftFor self.now.state command draft →
            probes.new ≤ probes.old + answering self.now.state command }
    {
        self.linked.kept().know_valid();
        match draft.into_known() {
            Known::Reads(command) => shown(self.alloc, &self.linked, command, answers, probes),
            Known::Changes(_) | Known::Indexes(_) | Known::Saves => unreachable!(),
        }
    }

    /// The outcome of a command that changes the state, given what spaces answered to its
    /// questions, unless it would exceed a limit that `check` leaves aside.
    pub fn settle(&self, draft: Draft, answers: Answers) -> Result<Settled, Deny>
        requires made { IsDraft self.now.state draft }
        requires changes { reads draft ≡ false }
        requires answered { AreAnswersTo draft.asks answers }
        ensures settled { (command : Resolved) → IsDraftFor self.now.state command draft →
            IfOk result (Settles self.now.state answers command) }
        ensures refused { (command : Resolved) → IsDraftFor self.now.state command draft →
            IfErr result (λ deny. Refuses deny (cause answers self.now.state command)) }
    {
        let kept = self.linked.kept();
        kept.know_valid();
        match draft.into_known() {
            Known::Changes(change) => settled(self.alloc, kept, change, answers),
            Known::Indexes(count) => Ok(Settled::Steps(count)),
            Known::Saves => Ok(Settled::Checkpoint),
            Known::Reads(_) => unreachable!(),
        }
    }

    /// Takes the memory that events want, so that `commit` can apply them. The state doesn't
    /// change, whatever the answer, and what was prepared before is dropped. How often it asks
    /// whether an item has a term grows with what the events touch: with the items that they touch
    /// themselves, and with those that come to or leave a directory that they change. All items are
    /// asked only for a query that is new or changed.
    pub fn prepare<L: Ledger>(
        &mut self,
        settled: Settled,
        probes: &mut Steps<L>,
    ) -> Result<(), Memory>
        requires { CanSettle self.old.state settled }
        ensures ok { OnOk result (self.new ≡ record
            { state = self.old.state; ready = settled_events settled }) }
        ensures err { OnErr result (self.new ≡ record { state = self.old.state; ready = [] }) }
        ensures probes { probes.new ≤ probes.old + costs self.old.state (settled_events settled) }
    {
        match settled {
            Settled::Change(Change { event, counts }) => {
                self.linked.prepare(self.alloc, event, counts, probes)
            }
            Settled::Session(Event::Cd { session, dir }) => {
                self.linked.prepare_session(self.alloc, session, dir)
            }
            Settled::Session(_) => unreachable!(),
            Settled::Steps(count) => self.linked.prepare_steps(self.alloc, count, probes),
            Settled::Checkpoint => self.linked.prepare_steps(self.alloc, 0, probes),
        }
    }

    /// Applies the prepared events. This takes no memory, and can't fail.
    pub fn commit(&mut self)
        ensures { self.new ≡ record {
          state = apply_all self.old.state self.old.ready;
          ready = [];
        } }
    {
        self.linked.commit();
    }
}
