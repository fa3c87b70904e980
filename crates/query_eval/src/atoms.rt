//! Which terms items have, as a caller of queries knows it.
ghost use Rattle.std.specs.Prelude.{◌≡◌, ◌+◌, ℕ, Bool};

use hac_model::{Number, Term};
use hac_outside::Steps;
use std::sync::ledger::Ledger;

/// Knows which terms items have, and counts each question.
pub trait Atoms {
    ghost use Rattle.hac_model.specs.declared.terms.Term.{Term};

    /// That the item has the term.
    ghost atoms: { Self → Term → ℕ → Bool };

    /// Whether the item has the term. That is one probe.
    fn has<L: Ledger>(&self, term: &Term, item: Number, probes: &mut Steps<L>) -> bool
        ensures answer { result ≡ atoms self.now term.now item }
        ensures probe { probes.new ≡ probes.old + 1 };
}
