//! What a directory says of an item in the next state.
ghost use Rattle.std.specs.Prelude.{◌≡◌, ◌≤◌, ◌+◌, ◌&&◌, ◌||◌, ℕ, Bool, IsTrue, Some, false, is_some};
ghost use Rattle.std.specs.Prelude.{if◌then◌else◌};
ghost use Rattle.std.specs.List.{list_any};
ghost use Rattle.hac_model.specs.Query.Queries.{query_meaning, terms};
ghost use Rattle.hac_model.specs.Tree.Costs.{terms_at};
ghost use Rattle.hac_model.specs.Tree.Links.{atom, holds, is_item, is_lent, is_permanent};
ghost use Rattle.hac_model.specs.Tree.Links.{is_semantic};
ghost use Rattle.hac_model.specs.Tree.Links.{passes, provide, query_at};
ghost use Rattle.reeval.specs.Judging.{is_linked, judgement, verdict_of};
ghost use Rattle.reeval.specs.Told.{told};

use crate::before::Before;
use crate::layout::Layout;
use crate::verdicts::{Change, Verdict, latest};
use hac_model::{Member, Number, Query, Term};
use hac_outside::Steps;
use query_eval::{Atoms, judge};
use std::sync::ledger::Ledger;

/// The terms that items have in the next state.
#[derive(Clone, Copy)]
struct NextTerms<'a, Y: Layout> {
    layout: &'a Y,
}

impl<'a, Y: Layout> Atoms for NextTerms<'a, Y> {
    ghost atoms = { λ next. atom (Y.state next.layout.now) };

    fn has<L: Ledger>(&self, term: &Term, item: Number, probes: &mut Steps<L>) -> bool {
        self.layout.has(term, item, probes)
    }
}

/// What an item is judged by: the next state, and the links before it with what is known to be new
/// for the item.
#[derive(Clone, Copy)]
pub(crate) struct Sight<'a, Y: Layout, B: Before> {
    /// The next state, but for links.
    pub(crate) layout: &'a Y,
    /// The links before.
    pub(crate) before: &'a B,
    /// The verdicts on the item that are new so far.
    pub(crate) news: &'a [Change],
}

impl<'a, Y: Layout, B: Before> Member for Sight<'a, Y, B> {
    ghost provides = { λ sight dir item. provide (Y.state sight.layout.now)
        (is_linked (told sight.news.now (verdict_of (B.state sight.before.now) item))) dir item };

    fn within(&self, dir: Number, item: Number) -> bool {
        self.layout.is_below(item, dir) || self.is_link(dir, item)
    }
}

impl<'a, Y: Layout, B: Before> Sight<'a, Y, B> {
    /// Whether an item is linked in a directory, or was added to it.
    fn is_link(&self, dir: Number, item: Number) -> bool
        ensures { result ≡ (is_semantic (Y.state self.now.layout.now) dir
            && (is_linked (told self.now.news.now (verdict_of (B.state self.now.before.now) item))
            dir || (is_permanent (Y.state self.now.layout.now) dir item
            && is_item (Y.state self.now.layout.now) item))) }
    {
        self.layout.query(dir).is_some()
            && (self.verdict(dir, item).is_linked() || self.layout.is_added(dir, item))
    }

    /// What is known of an item in a directory: the last news, or else what was known before.
    pub(crate) fn verdict(&self, dir: Number, item: Number) -> Verdict
        ensures { result ≡ told self.now.news.now
            (verdict_of (B.state self.now.before.now) item) dir }
    {
        latest(self.news, dir, self.before.verdict(dir, item))
    }

    /// What a directory says of an item. Where its query is not asked, it says what is known to
    /// be found.
    pub(crate) fn judge<L: Ledger>(
        &self,
        dir: Number,
        item: Number,
        asks: bool,
        probes: &mut Steps<L>,
    ) -> Verdict
        ensures verdict { (asks ≡ false →
            (told self.now.news.now (verdict_of (B.state self.now.before.now) item) dir).found
            ≡ (judgement (Y.state self.now.layout.now)
            (is_linked (told self.now.news.now (verdict_of (B.state self.now.before.now) item)))
            item dir).found) →
            result ≡ judgement (Y.state self.now.layout.now)
            (is_linked (told self.now.news.now (verdict_of (B.state self.now.before.now) item)))
            item dir }
        ensures probes { probes.new ≤ probes.old
            + (if asks then terms_at (Y.state self.now.layout.now) dir else 0) }
    {
        match self.layout.query(dir) {
            Some(query) if self.layout.is_item(item) => Verdict {
                found: self.finds(dir, query, item, asks, probes),
                lent: self.is_lent(dir, item),
            },
            _ => Verdict {
                found: false,
                lent: false,
            },
        }
    }

    /// Whether a directory finds an item, or is known to find it where its query is not asked.
    fn finds<L: Ledger>(
        &self,
        dir: Number,
        query: &Query<Number>,
        item: Number,
        asks: bool,
        probes: &mut Steps<L>,
    ) -> bool
        requires { query_at (Y.state self.now.layout.now) dir ≡ Some query.now }
        ensures finds { IsTrue (is_item (Y.state self.now.layout.now) item) →
            result ≡ (if asks then passes (Y.state self.now.layout.now)
            (is_linked (told self.now.news.now (verdict_of (B.state self.now.before.now) item)))
            dir item
            else (told self.now.news.now (verdict_of (B.state self.now.before.now) item) dir).found) }
        ensures probes { probes.new ≤ probes.old
            + (if asks then terms_at (Y.state self.now.layout.now) dir else 0) }
    {
        if asks {
            self.passes(dir, query, item, probes)
        } else {
            self.verdict(dir, item).found
        }
    }

    /// Whether a directory finds an item: queries judge it, the user says nothing of it there, the
    /// directory above provides it, and it satisfies the query. What costs least comes first.
    fn passes<L: Ledger>(
        &self,
        dir: Number,
        query: &Query<Number>,
        item: Number,
        probes: &mut Steps<L>,
    ) -> bool
        requires { query_at (Y.state self.now.layout.now) dir ≡ Some query.now }
        ensures passes { IsTrue (is_item (Y.state self.now.layout.now) item) →
            result ≡ passes (Y.state self.now.layout.now)
            (is_linked (told self.now.news.now (verdict_of (B.state self.now.before.now) item)))
            dir item }
        ensures probes { probes.new ≤ probes.old + terms_at (Y.state self.now.layout.now) dir }
    {
        self.layout.is_judged(item)
            && self.layout.is_unmarked(dir, item)
            && self.within(self.layout.parent(dir), item)
            && self.satisfies(query, item, probes)
    }

    /// Whether an item satisfies a query.
    fn satisfies<L: Ledger>(
        &self,
        query: &Query<Number>,
        item: Number,
        probes: &mut Steps<L>,
    ) -> bool
        ensures satisfies { result ≡ holds (Y.state self.now.layout.now)
            (is_linked (told self.now.news.now (verdict_of (B.state self.now.before.now) item)))
            query.now item }
        ensures probes { probes.new ≤ probes.old + terms query.now }
    {
        let next = NextTerms {
            layout: self.layout,
        };
        judge(query, &next, self, item, probes)
    }

    /// Whether a directory that the user added to this one provides an item.
    fn is_lent(&self, dir: Number, item: Number) -> bool
        ensures { result ≡ is_lent (Y.state self.now.layout.now)
            (is_linked (told self.now.news.now (verdict_of (B.state self.now.before.now) item)))
            dir item }
    {
        self.layout
            .lenders(dir)
            .iter()
            .any(|lender| self.within(*lender, item))
    }
}
