//! The judging of one item by a query, where each question for a term counts.
ghost use Rattle.std.specs.Prelude.{◌≡◌, ◌+◌, ◌≤◌};
ghost use Rattle.hac_model.specs.Query.Queries.{query_meaning, terms};

use crate::atoms::Atoms;
use hac_model::{Member, Node, Number, Query};
use hac_outside::Steps;
use std::sync::ledger::Ledger;

/// Whether the item satisfies the query. It leaves out the side of an `AND` or an `OR` that can't
/// change the answer. It takes no memory, and goes down as deep as the query does.
pub fn judge<A: Atoms, V: Member, L: Ledger>(
    query: &Query<Number>,
    atoms: &A,
    member: &V,
    item: Number,
    probes: &mut Steps<L>,
) -> bool
    ensures meaning { result ≡
        query_meaning (A.atoms atoms.now) (V.provides member.now) query.now item }
    ensures least { probes.old ≤ probes.new }
    ensures most { probes.new ≤ probes.old + terms query.now }
{
    match &query.node {
        Node::Term(term) => atoms.has(term, item, probes),
        Node::Dir(dir) => member.within(*dir, item),
        Node::Not(query) => !judge(query, atoms, member, item, probes),
        Node::And(left, right) => {
            judge(left, atoms, member, item, probes) && judge(right, atoms, member, item, probes)
        }
        Node::Or(left, right) => {
            judge(left, atoms, member, item, probes) || judge(right, atoms, member, item, probes)
        }
    }
}
