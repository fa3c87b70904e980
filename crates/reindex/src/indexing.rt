//! A state as it will be once files are indexed up to a number.
ghost use Rattle.std.specs.Prelude.{◌≡◌, ◌&&◌};
ghost use Rattle.std.specs.Option.{option_copied};
ghost use Rattle.hac_model.specs.Tree.Depends.{depends};
ghost use Rattle.hac_model.specs.Tree.Links.{atom, has, is_below, is_item, is_permanent};
ghost use Rattle.hac_model.specs.Tree.Links.{is_unmarked, kept_at, parent_of, shown_of};
ghost use Rattle.hac_model.specs.Tree.{is_document_at};
ghost use Rattle.reindex.specs.Steps.{indexed_through};

use hac_model::{Number, Query, Term};
use hac_outside::Steps;
use hac_words::has_term;
use kept_lookups::{is_below, is_document, is_item, parent_of, query_at, shown_of, text_of};
use kept_state::KeptState;
use reeval::Layout;
use std::sync::ledger::Ledger;

/// A state, seen as that in which each file whose number isn't above `last` shows its text.
#[derive(Clone, Copy)]
pub(crate) struct Indexing<'a> {
    pub(crate) kept: &'a KeptState,
    pub(crate) last: Number,
}

impl<'a> Indexing<'a> {
    /// Whether a number will be that of a document.
    fn is_document(&self, number: Number) -> bool
        ensures { result ≡ is_document_at
            (indexed_through self.now.last self.now.kept.now.state).entries number }
    {
        is_document(self.kept, number)
    }

    /// Whether a document will have a term, by what its mount keeps.
    fn document_has(&self, term: &Term, item: Number) -> bool
        ensures { result ≡ has (kept_at (indexed_through self.now.last self.now.kept.now.state)
            (parent_of (indexed_through self.now.last self.now.kept.now.state) item) term.now)
            item }
    {
        self.kept.has_answer(parent_of(self.kept, item), term, item)
    }

    /// The text that an item will show.
    pub(crate) fn shown(&self, item: Number) -> Option<&[u8]>
        ensures { option_copied result
            ≡ shown_of (indexed_through self.now.last self.now.kept.now.state) item }
    {
        if item.get() <= self.last.get() {
            text_of(self.kept, item)
        } else {
            shown_of(self.kept, item)
        }
    }
}

impl<'a> Layout for Indexing<'a> {
    ghost state = { λ indexing. indexed_through indexing.last indexing.kept.now.state };

    fn is_item(&self, number: Number) -> bool {
        is_item(self.kept, number)
    }

    fn is_judged(&self, item: Number) -> bool {
        self.is_document(item) || self.shown(item).is_some()
    }

    fn is_below(&self, item: Number, dir: Number) -> bool {
        is_below(self.kept, item, dir)
    }

    fn parent(&self, entry: Number) -> Number {
        parent_of(self.kept, entry)
    }

    fn query(&self, dir: Number) -> Option<&Query<Number>> {
        query_at(self.kept, dir)
    }

    fn is_added(&self, dir: Number, item: Number) -> bool {
        is_added(self.kept, dir, item)
    }

    fn is_unmarked(&self, dir: Number, item: Number) -> bool {
        is_unmarked(self.kept, dir, item)
    }

    fn lenders(&self, dir: Number) -> &[Number] {
        self.kept.lenders(dir)
    }

    fn depends(&self, dir: Number) -> &[Number] {
        depends(self.kept, dir)
    }

    fn has<L: Ledger>(&self, term: &Term, item: Number, probes: &mut Steps<L>) -> bool {
        probes.tick();
        if self.is_document(item) {
            self.document_has(term, item)
        } else {
            match self.shown(item) {
                Some(text) => has_term(text, term),
                None => false,
            }
        }
    }
}

/// Whether the user added an item to a directory.
pub(crate) fn is_added(kept: &KeptState, dir: Number, item: Number) -> bool
    ensures { result ≡ (is_permanent kept.now.state dir item && is_item kept.now.state item) }
{
    is_item(kept, item) && kept.mark(dir, item).is_permanent()
}

/// Whether the user says nothing of an item in a directory.
fn is_unmarked(kept: &KeptState, dir: Number, item: Number) -> bool
    ensures { result ≡ is_unmarked kept.now.state dir item }
{
    kept.mark(dir, item).is_unlinked()
}

/// What a directory depends on.
fn depends(kept: &KeptState, dir: Number) -> &[Number]
    ensures { result.now ≡ depends kept.now.state dir }
{
    kept.graph().edges(dir)
}
