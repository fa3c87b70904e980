//! A state in which it is known of one item what its words say.
ghost use Rattle.std.specs.Prelude.{◌≡◌, ◌+◌, IfSome};
ghost use Rattle.hac_model.specs.Tree.Links.{atom};

use crate::indexing::Indexing;
use hac_model::{Number, Query, Term};
use hac_outside::Steps;
use query_index::Fit;
use reeval::Layout;
use std::marker::Model;
use std::sync::ledger::Ledger;

/// A state, and what an index says of the words of one of its items, which queries judge. What is
/// known of that item isn't looked up again, nor is its text searched for what the index knows.
#[derive(Drop)]
pub(crate) struct Fitted<'a> {
    pub(crate) indexing: &'a Indexing<'a>,
    pub(crate) fit: &'a Fit<'a>,
    pub(crate) item: Number,
}

impl<'a> Model for Fitted<'a> {
    ghost use Rattle.hac_model.specs.declared.states.State.{State};
    ghost use Rattle.hac_model.specs.contracts.states.State as state;

    ghost Value = { State };

    ghost coded = { state.the_row.coded };

    ghost use Rattle.reindex.specs.Fitted.{state_of_fitted, IsFitted};

    ghost view = { state_of_fitted };

    ghost invariant = { IsFitted };
}

impl<'a> Fitted<'a> {
    /// Whether the item has a term, where the index knows that.
    fn answer(&self, term: &Term, item: Number) -> Option<bool>
        ensures { IfSome result (λ has. has ≡ atom self.now term.now item) }
    {
        if item == self.item {
            self.fit.answer(term)
        } else {
            None
        }
    }
}

impl<'a> Layout for Fitted<'a> {
    ghost state = { λ fitted. fitted };

    fn is_item(&self, number: Number) -> bool {
        number == self.item || self.indexing.is_item(number)
    }

    fn is_judged(&self, item: Number) -> bool {
        item == self.item || self.indexing.is_judged(item)
    }

    fn is_below(&self, item: Number, dir: Number) -> bool {
        self.indexing.is_below(item, dir)
    }

    fn parent(&self, entry: Number) -> Number {
        self.indexing.parent(entry)
    }

    fn query(&self, dir: Number) -> Option<&Query<Number>> {
        self.indexing.query(dir)
    }

    fn is_added(&self, dir: Number, item: Number) -> bool {
        self.indexing.is_added(dir, item)
    }

    fn is_unmarked(&self, dir: Number, item: Number) -> bool {
        self.indexing.is_unmarked(dir, item)
    }

    fn lenders(&self, dir: Number) -> &[Number] {
        self.indexing.lenders(dir)
    }

    fn depends(&self, dir: Number) -> &[Number] {
        self.indexing.depends(dir)
    }

    fn has<L: Ledger>(&self, term: &Term, item: Number, probes: &mut Steps<L>) -> bool {
        match self.answer(term, item) {
            Some(has) => {
                probes.tick();
                has
            }
            None => self.indexing.has(term, item, probes),
        }
    }
}
