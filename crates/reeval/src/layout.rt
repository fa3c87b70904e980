//! What judging asks of a state, but for links.
ghost use Rattle.std.specs.Prelude.{◌≡◌, ◌&&◌, ◌+◌, ℕ, Bool, IsTrue};
ghost use Rattle.std.specs.Option.{option_copied};
ghost use Rattle.hac_model.specs.Tree.Depends.{depends};
ghost use Rattle.hac_model.specs.Tree.Links.{atom, is_below, is_item, is_judged, is_permanent};
ghost use Rattle.hac_model.specs.Tree.Links.{is_unmarked, lenders, parent_of, query_at};

use hac_model::{Number, Query, Term};
use hac_outside::Steps;
use std::sync::ledger::Ledger;

/// Knows a state: its tree, its marks, its terms, and what depends on what. While a change is
/// prepared that is the state behind the change. Each question for a term counts.
pub trait Layout {
    ghost use Rattle.hac_model.specs.declared.states.State.{State};

    /// The state.
    ghost state: { Self → State };

    /// Whether a number is that of an item.
    fn is_item(&self, number: Number) -> bool
        ensures { result ≡ is_item (state self.now) number };

    /// Whether queries judge an item: it is a document, or a file that was indexed.
    fn is_judged(&self, item: Number) -> bool
        ensures { result ≡ is_judged (state self.now) item };

    /// Whether an item is stored below a directory, at any depth.
    fn is_below(&self, item: Number, dir: Number) -> bool
        ensures { result ≡ is_below (state self.now) dir item };

    /// The directory in which an entry is stored.
    fn parent(&self, entry: Number) -> Number
        ensures { result ≡ parent_of (state self.now) entry };

    /// The query of a directory, where it is semantic.
    fn query(&self, dir: Number) -> Option<&Query<Number>>
        ensures { option_copied result ≡ query_at (state self.now) dir };

    /// Whether the user added an item to a directory.
    fn is_added(&self, dir: Number, item: Number) -> bool
        ensures { result ≡ (is_permanent (state self.now) dir item
            && is_item (state self.now) item) };

    /// Whether the user says nothing of an item in a directory. It is asked of items alone.
    fn is_unmarked(&self, dir: Number, item: Number) -> bool
        ensures { IsTrue (is_item (state self.now) item) →
            result ≡ is_unmarked (state self.now) dir item };

    /// The directories that the user added to a directory, in order of number.
    fn lenders(&self, dir: Number) -> &[Number]
        ensures { result.now ≡ lenders (state self.now) dir };

    /// The directories on which a directory depends.
    fn depends(&self, dir: Number) -> &[Number]
        ensures { result.now ≡ depends (state self.now) dir };

    /// Whether an item has a term. That is one probe.
    fn has<L: Ledger>(&self, term: &Term, item: Number, probes: &mut Steps<L>) -> bool
        ensures answer { result ≡ atom (state self.now) term.now item }
        ensures probe { probes.new ≡ probes.old + 1 };
}
