//! What is new in the links behind an event.
ghost use Rattle.std.specs.Prelude.{◌≡◌, ◌≤◌, ◌+◌, ◌==◌, ℕ, false, replicate, IfOk, OnErr};
ghost use Rattle.hac_model.specs.Laws.{AllHappen};
ghost use Rattle.hac_model.specs.Tree.Costs.{costs};
ghost use Rattle.hac_model.specs.Tree.Events.{apply_all};
ghost use Rattle.hac_model.specs.Tree.Touched.{begins};
ghost use Rattle.hac_model.specs.declared.events.Event.TheVariants.{Step};
ghost use Rattle.kept_links.specs.Coming.{BeginsNowhere, IsComing, cost_of};
ghost use Rattle.kept_links.specs.Coming.{state_before, state_behind};
ghost use Rattle.kept_links.specs.Kept.{AreNews, AreSetsFew, is_still};
ghost use Rattle.kept_state.specs.After.{are_quiet, next_state};
ghost use Rattle.reeval.specs.Settled.{AreLinksOf, AreSetsAsked, HasRoom};
ghost use Rattle.reindex.specs.Past.{Lead};
ghost use Rattle.reindex.specs.Ways.{IsWayOf};

use crate::coming::Coming;
use crate::items::begin;
use crate::outlook::Outlook;
use crate::sets::drop_plain;
use crate::tasks::{task_from, way_next};
use crate::touched::delta_of_touched;
use crate::transition::Transition;
use hac_model::{Event, Memory, Number};
use hac_outside::Steps;
use kept_state::KeptState;
use link_kinds::Links;
use reeval::{Change, plan, reserve};
use reindex::{Past, Way, delta_of_steps};
use std::alloc::Global;
use std::sync::ledger::Ledger;

/// What is new behind an event.
#[derive(Drop)]
pub(crate) struct News {
    /// The new verdicts.
    pub(crate) delta: Vec<Change>,
    /// The way to all semantic directories, where it is another one.
    pub(crate) way: Option<Way>,
    /// The directory at which the event begins. No other becomes semantic, or plain.
    pub(crate) begun: Option<Number>,
}

/// What will be new behind the event that a state is ready for, which is no step and moves no
/// session, and the memory for it. No link changes, whatever the answer, and if memory ran out no
/// directory keeps sets that isn't semantic.
pub(crate) fn prepared_news<L: Ledger>(
    alloc: Global,
    kept: &KeptState,
    found: &mut Links,
    way: &Way,
    probes: &mut Steps<L>,
) -> Result<News, Memory>
    requires links { AreLinksOf kept.now.state found.old }
    requires sets { AreSetsAsked kept.now.state found.old }
    requires way { IsWayOf kept.now.state way.now }
    requires event { are_quiet kept.now.ready ≡ false }
    ensures links { AreLinksOf kept.now.state found.new }
    ensures news { IfOk result (AreNews kept.now.state (next_state kept.now) way.now) }
    ensures room { IfOk result (λ news. HasRoom found.new news.delta.items) }
    ensures sets { IfOk result (λ news. AreSetsFew kept.now.state news.begun found.new) }
    ensures err { OnErr result (AreSetsAsked kept.now.state found.new) }
    ensures probes { probes.new ≤ probes.old + costs kept.now.state kept.now.ready }
{
    kept.know_valid();
    let news = next_news(alloc, kept, found, way, probes)?;
    match reserve(found, news.delta.as_slice()) {
        Ok(()) => Ok(news),
        Err(memory) => {
            drop_plain(kept, found, news.begun);
            drop(news);
            Err(memory)
        }
    }
}

/// What will be new behind so many steps, and the memory for it. No link changes, and no directory
/// gets sets that isn't semantic, whatever the answer.
pub(crate) fn prepared_steps<L: Ledger>(
    alloc: Global,
    kept: &KeptState,
    found: &mut Links,
    way: &Way,
    count: u64,
    probes: &mut Steps<L>,
) -> Result<Vec<Change>, Memory>
    requires links { AreLinksOf kept.now.state found.old }
    requires sets { AreSetsAsked kept.now.state found.old }
    requires way { IsWayOf kept.now.state way.now }
    requires happen { AllHappen kept.now.state (replicate count Step) }
    ensures links { AreLinksOf kept.now.state found.new }
    ensures sets { AreSetsAsked kept.now.state found.new }
    ensures leads { IfOk result (λ delta.
        Lead kept.now.state (apply_all kept.now.state (replicate count Step)) delta.items) }
    ensures room { IfOk result (λ delta. HasRoom found.new delta.items) }
    ensures probes { probes.new ≤ probes.old + costs kept.now.state (replicate count Step) }
{
    kept.know_valid();
    let delta = delta_of_steps(alloc, kept, found, way, count, probes)?;
    reserve(found, delta.as_slice())?;
    Ok(delta)
}

/// What will be new behind the event that a state is ready for.
fn next_news<L: Ledger>(
    alloc: Global,
    kept: &KeptState,
    found: &Links,
    way: &Way,
    probes: &mut Steps<L>,
) -> Result<News, Memory>
    requires links { AreLinksOf kept.now.state found.now }
    requires way { IsWayOf kept.now.state way.now }
    requires event { are_quiet kept.now.ready ≡ false }
    ensures news { IfOk result (AreNews kept.now.state (next_state kept.now) way.now) }
    ensures probes { probes.new ≤ probes.old + costs kept.now.state kept.now.ready }
{
    match kept.event() {
        Some(event) => news_of(
            alloc,
            &Coming {
                kept,
                found,
                way,
                event,
            },
            probes,
        ),
        None => unreachable!(),
    }
}

/// What will be new behind this event.
fn news_of<L: Ledger>(
    alloc: Global,
    coming: &Coming<'_>,
    probes: &mut Steps<L>,
) -> Result<News, Memory>
    requires { IsComing coming.now }
    ensures news { IfOk result
        (AreNews (state_before coming.now) (state_behind coming.now) coming.now.way.now) }
    ensures probes { probes.new ≤ probes.old + cost_of coming.now }
{
    coming.kept.know_valid();
    if is_still(coming.way, coming.event) {
        return Ok(News {
            delta: Vec::new(alloc),
            way: None,
            begun: None,
        });
    }
    match begin(coming.kept, coming.event) {
        Some(first) => news_from(alloc, coming, first, probes),
        None => news_of_touched(alloc, coming, probes),
    }
}

/// Whether nothing is new behind an event, by what is known without a look at the state.
fn is_still(way: &Way, event: &Event) -> bool
    ensures { result ≡ is_still way.now.lends event.now }
{
    match event {
        Event::Mkdir { .. } | Event::Rewrite { .. } | Event::Ln { .. } => true,
        Event::NewFile { .. } => !way.lends,
        _ => false,
    }
}

/// What will be new behind an event that begins at a directory.
fn news_from<L: Ledger>(
    alloc: Global,
    coming: &Coming<'_>,
    first: Number,
    probes: &mut Steps<L>,
) -> Result<News, Memory>
    requires coming { IsComing coming.now }
    requires begins { (dir : ℕ) → begins (state_before coming.now) coming.now.event.now dir
        ≡ (dir == first) }
    ensures news { IfOk result
        (AreNews (state_before coming.now) (state_behind coming.now) coming.now.way.now) }
    ensures probes { probes.new ≤ probes.old + cost_of coming.now }
{
    let Coming {
        kept,
        found,
        event,
        ..
    } = *coming;
    kept.know_valid();
    let outlook = Outlook::new(kept, event);
    let way = way_next(alloc, kept, &outlook, first)?;
    let transition = Transition {
        before: kept,
        after: &outlook,
        event,
    };
    let task = task_from(alloc, &transition, &way, first)?;
    let past = Past { kept, found };
    let delta = plan(alloc, &outlook, &past, &task, probes)?;
    Ok(News {
        delta,
        way: Some(way),
        begun: Some(first),
    })
}

/// What will be new behind an event that begins at no directory.
fn news_of_touched<L: Ledger>(
    alloc: Global,
    coming: &Coming<'_>,
    probes: &mut Steps<L>,
) -> Result<News, Memory>
    requires coming { IsComing coming.now }
    requires never { BeginsNowhere coming.now }
    ensures news { IfOk result
        (AreNews (state_before coming.now) (state_behind coming.now) coming.now.way.now) }
    ensures probes { probes.new ≤ probes.old + cost_of coming.now }
{
    coming.kept.know_valid();
    let delta = delta_of_touched(alloc, coming, probes)?;
    Ok(News {
        delta,
        way: None,
        begun: None,
    })
}
