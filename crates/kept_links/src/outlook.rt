//! A state as it will be after the event that it is ready for.
ghost use Rattle.std.specs.Prelude.{◌≡◌, ◌∷◌, [], IsTrue};
ghost use Rattle.hac_model.specs.Tree.Events.{accepted, apply};
ghost use Rattle.hac_model.specs.Tree.Links.{atom};
ghost use Rattle.hac_model.specs.Tree.Mounting.{is_document_of};

use hac_model::{Event, Number, Query, Term};
use hac_outside::Steps;
use hac_words::has_term;
use kept_state::KeptState;
use reeval::Layout;
use scope_rules::Scope;
use std::marker::Model;
use std::sync::ledger::Ledger;

/// A state that is ready for an event, seen as the state behind it.
#[derive(Drop)]
pub(crate) struct Outlook<'a> {
    pub(crate) kept: &'a KeptState,
    pub(crate) scope: Scope<'a>,
}

impl<'a> Model for Outlook<'a> {
    ghost use Rattle.hac_model.specs.declared.states.State.{State};
    ghost use Rattle.hac_model.specs.contracts.states.State as state;

    ghost Value = { State };

    ghost coded = { state.the_row.coded };

    ghost use Rattle.kept_links.specs.Kept.{state_of_outlook, IsOutlook};

    ghost view = { state_of_outlook };

    ghost invariant = { IsOutlook };
}

impl<'a> Outlook<'a> {
    /// The outlook of a state that is ready for an event.
    pub(crate) fn new(kept: &'a KeptState, event: &'a Event) -> Outlook<'a>
        requires ready { kept.now.ready ≡ event.now ∷ [] }
        requires accepted { IsTrue (accepted kept.now.state event.now) }
        ensures { result ≡ apply kept.now.state event.now }
    {
        kept.know_valid();
        Outlook {
            kept,
            scope: Scope::new(kept.tree(), event),
        }
    }

    /// The number that the next entry will take.
    pub(crate) fn next_number(&self) -> Number
        ensures { result ≡ self.now.next }
    {
        self.scope.next_number()
    }

    /// Whether a document of a mount will have the number.
    pub(crate) fn is_document_of(&self, mount: Number, number: Number) -> bool
        ensures { result ≡ is_document_of self.now mount number }
    {
        self.scope.is_document(number) && self.scope.parent(number) == mount
    }
}

impl<'a> Layout for Outlook<'a> {
    ghost state = { λ outlook. outlook };

    fn is_item(&self, number: Number) -> bool {
        self.scope.is_item(number)
    }

    fn is_judged(&self, item: Number) -> bool {
        self.scope.is_judged(item)
    }

    fn is_below(&self, item: Number, dir: Number) -> bool {
        self.scope.is_below(item, dir)
    }

    fn parent(&self, entry: Number) -> Number {
        self.scope.parent(entry)
    }

    fn query(&self, dir: Number) -> Option<&Query<Number>> {
        self.scope.query(dir)
    }

    fn is_added(&self, dir: Number, item: Number) -> bool {
        self.scope.is_item(item) && self.kept.mark_next(dir, item).is_permanent()
    }

    fn is_unmarked(&self, dir: Number, item: Number) -> bool {
        self.kept.mark_next(dir, item).is_unlinked()
    }

    fn lenders(&self, dir: Number) -> &[Number] {
        self.kept.lenders_next(dir)
    }

    fn depends(&self, dir: Number) -> &[Number] {
        self.kept.depends_next(dir)
    }

    fn has<L: Ledger>(&self, term: &Term, item: Number, probes: &mut Steps<L>) -> bool {
        probes.tick();
        if self.scope.is_document(item) {
            self.kept
                .has_answer_next(self.scope.parent(item), term, item)
        } else {
            match self.scope.shown(item) {
                Some(text) => has_term(text, term),
                None => false,
            }
        }
    }
}
