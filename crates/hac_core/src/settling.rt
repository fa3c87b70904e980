//! The outcome of a change, once spaces have answered.
ghost use Rattle.std.specs.Prelude.{◌≡◌, length, IfOk, IsTrue, None};
ghost use Rattle.hac_model.specs.Run.Answers.{Passes};
ghost use Rattle.hac_model.specs.Run.Asks.{query_asks, told_for};
ghost use Rattle.hac_model.specs.Run.Refusals.{docs_cause};
ghost use Rattle.hac_model.specs.Spaces.Answering.{AreAnswersTo};
ghost use Rattle.hac_model.specs.Tree.Events.{is_placed};
ghost use Rattle.hac_core.specs.Drafts.{IsCounted, answering, settled_change};
ghost use Rattle.event_check.specs.Fitting.{asks_spaces};
ghost use Rattle.hac_core.specs.Questions.{asks_for};
ghost use Rattle.hac_core.specs.Settling.{answered, keeping_cause, limits_cause, settling_cause};
ghost use Rattle.tree_counts.specs.Seated.{is_seated};

use crate::drafts::{Change, Settled};
use event_check::{counts_after, within_all};
use hac_model::{Answers, Deny, Event, LimitWord, Memory, Name, Number, Query, Refusal};
use kept_lookups::version;
use kept_state::KeptState;
use std::alloc::Global;
use tree_answers::{mounting, syncing, told_for};

/// The outcome of a change, given what spaces answered, unless it would exceed a limit.
pub fn settled(
    alloc: Global,
    kept: &KeptState,
    change: Change,
    answers: Answers,
) -> Result<Settled, Deny>
    requires seated { IsTrue (is_seated kept.now.state change.event) }
    requires counted { IsCounted kept.now.state change }
    requires answered { AreAnswersTo (asks_for kept.now.state change.event) answers }
    requires placed { docs_cause kept.now.state answers ≡ None →
        IsTrue (is_placed kept.now.state (answering kept.now.state answers change.event)) }
    ensures settled { IfOk result (λ settled. settled
        ≡ settled_change (answered kept.now.state answers change.event)) }
    ensures limits { Passes result (settling_cause kept.now.state answers change.event) }
{
    match require_few_documents(kept, &answers) {
        Ok(()) => settled_few(alloc, kept, change, answers),
        Err(deny) => {
            drop(change);
            drop(answers);
            Err(deny)
        }
    }
}

/// Denies more documents than a mount may have.
fn require_few_documents(kept: &KeptState, answers: &Answers) -> Result<(), Deny>
    ensures { Passes result (docs_cause kept.now.state answers.now) }
{
    if answers.list.as_slice().len() as u64 <= version(kept).docs_limit() {
        return Ok(());
    }
    Err(Deny::Refused(Refusal::Limit(LimitWord::Docs)))
}

/// The same where no mount gets more documents than it may have.
fn settled_few(
    alloc: Global,
    kept: &KeptState,
    change: Change,
    answers: Answers,
) -> Result<Settled, Deny>
    requires seated { IsTrue (is_seated kept.now.state change.event) }
    requires counted { IsCounted kept.now.state change }
    requires answered { AreAnswersTo (asks_for kept.now.state change.event) answers }
    requires few { docs_cause kept.now.state answers ≡ None }
    requires placed { IsTrue (is_placed kept.now.state
        (answering kept.now.state answers change.event)) }
    ensures settled { IfOk result (λ settled. settled
        ≡ settled_change (answered kept.now.state answers change.event)) }
    ensures limits { Passes result (settling_cause kept.now.state answers change.event) }
{
    let change = answered(alloc, kept, change, answers)?;
    match require_limits(alloc, kept, &change) {
        Ok(()) => Ok(outcome(change)),
        Err(deny) => {
            drop(change);
            Err(deny)
        }
    }
}

/// Denies a change that would exceed a limit, by the first such limit.
fn require_limits(alloc: Global, kept: &KeptState, change: &Change) -> Result<(), Deny>
    requires { IsTrue (is_placed kept.now.state change.now.event) }
    ensures { Passes result (limits_cause kept.now.state change.now) }
{
    within_all(version(kept), change.counts)?;
    require_few_answers(alloc, kept, &change.event)
}

/// Denies an event after which mounts would keep more answers than they may.
fn require_few_answers(alloc: Global, kept: &KeptState, event: &Event) -> Result<(), Deny>
    requires { IsTrue (is_placed kept.now.state event.now) }
    ensures { Passes result (keeping_cause kept.now.state event.now) }
{
    if kept.keeps_few_after(alloc, event)? {
        return Ok(());
    }
    Err(Deny::Refused(Refusal::Limit(LimitWord::Answers)))
}

/// The change with what spaces answered.
fn answered(
    alloc: Global,
    kept: &KeptState,
    change: Change,
    answers: Answers,
) -> Result<Change, Memory>
    requires seated { IsTrue (is_seated kept.now.state change.event) }
    requires counted { IsCounted kept.now.state change }
    requires answered { AreAnswersTo (asks_for kept.now.state change.event) answers }
    requires few { docs_cause kept.now.state answers ≡ None }
    ensures { IfOk result (λ change_now. change_now
        ≡ answered kept.now.state answers change.event) }
{
    kept.know_valid();
    if asks(&change.event) {
        let event = answering(alloc, kept, change.event, answers)?;
        Ok(counted(kept, event))
    } else {
        Ok(change)
    }
}

/// Whether spaces are asked for an event.
fn asks(event: &Event) -> bool
    ensures { result ≡ asks_spaces event.now }
{
    matches!(
        event,
        Event::Smkdir { .. } | Event::Setq { .. } | Event::Smount { .. } | Event::Ssync { .. }
    )
}

/// The event with what spaces answered.
fn answering(
    alloc: Global,
    kept: &KeptState,
    event: Event,
    answers: Answers,
) -> Result<Event, Memory>
    requires seated { IsTrue (is_seated kept.now.state event) }
    requires answered { AreAnswersTo (asks_for kept.now.state event) answers }
    ensures { IfOk result (λ event_now. event_now ≡ answering kept.now.state answers event) }
{
    match event {
        Event::Smkdir {
            dir,
            name,
            query,
            ..
        } => semantic(alloc, kept, dir, name, query, answers),
        Event::Setq { dir, query, .. } => asking(alloc, kept, dir, query, answers),
        Event::Smount {
            dir,
            name,
            space,
            ..
        } => mounting(alloc, kept, dir, name, space, answers),
        Event::Ssync { mount, .. } => syncing(alloc, kept, mount, answers),
        event => Ok(event),
    }
}

/// A semantic directory is created, and mounts are told what spaces answered.
fn semantic(
    alloc: Global,
    kept: &KeptState,
    dir: Number,
    name: Name,
    query: Query<Number>,
    answers: Answers,
) -> Result<Event, Memory>
    requires { length answers.found ≡ length (query_asks kept.now.state query).searches }
    ensures { IfOk result (λ event. event ≡ Event.Smkdir dir name query
        (told_for kept.now.state query answers.found)) }
{
    let told = told_for(alloc, kept, &query, answers.found.as_slice())?;
    Ok(Event::Smkdir {
        dir,
        name,
        query,
        told,
    })
}

/// A directory gets a query, and mounts are told what spaces answered.
fn asking(
    alloc: Global,
    kept: &KeptState,
    dir: Number,
    query: Query<Number>,
    answers: Answers,
) -> Result<Event, Memory>
    requires { length answers.found ≡ length (query_asks kept.now.state query).searches }
    ensures { IfOk result (λ event. event ≡ Event.Setq dir query
        (told_for kept.now.state query answers.found)) }
{
    let told = told_for(alloc, kept, &query, answers.found.as_slice())?;
    Ok(Event::Setq { dir, query, told })
}

/// An event with its counts.
fn counted(kept: &KeptState, event: Event) -> Change
    requires { IsTrue (is_seated kept.now.state event) }
    ensures event { result.event ≡ event }
    ensures counts { IsCounted kept.now.state result }
{
    let counts = counts_after(kept, &event);
    Change { event, counts }
}

/// The outcome of a change: one that moves a session isn't stored.
fn outcome(change: Change) -> Settled
    ensures { result ≡ settled_change change }
{
    match change.event {
        Event::Cd { session, dir } => Settled::Session(Event::Cd { session, dir }),
        event => Settled::Change(Change {
            event,
            counts: change.counts,
        }),
    }
}
