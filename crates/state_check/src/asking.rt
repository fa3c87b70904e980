//! Whether semantic directories may ask their queries, and have their marks on what can have them.
ghost use Rattle.std.specs.Prelude.{◌≡◌, not};
ghost use Rattle.std.specs.List.{list_all};
ghost use Rattle.hac_model.specs.Query.Queries.{named_in};
ghost use Rattle.hac_model.specs.Tree as tree;
ghost use Rattle.hac_model.specs.Tree.Events as events;
ghost use Rattle.hac_model.specs.Tree.Links as links;
ghost use Rattle.hac_model.specs.Tree.Valid.{RiseFrom};
ghost use Rattle.hac_model.specs.Tree.ValidTest as valid;
ghost use Rattle.layout_check.specs.Rising.{DoRise};

use crate::finding::{can_be_added, is_item};
use crate::rising::do_rise;
use hac_model::{Body, Entry, Node, Number, Query, State};
use layout_check::is_directory_at;
use query_text::is_query;
use sorted_lists::has_number;

/// Whether each semantic directory may ask its query, and its marks are sound.
pub(crate) fn do_ask_well(state: &State) -> bool
    requires { DoRise state.now.entries }
    ensures { result ≡ list_all (λ entry. valid.asks_well state.now entry.body)
        state.now.entries }
{
    state
        .entries
        .as_slice()
        .iter()
        .all(|entry| asks_well(state, &entry.body))
}

/// Whether it is no semantic directory, or one that may ask its query and whose marks are sound.
#[tactic(auto, using(crate::proofs::ListLemmas::marks_rise))]
fn asks_well(state: &State, body: &Body) -> bool
    requires { DoRise state.now.entries }
    ensures { result ≡ valid.asks_well state.now body.now }
{
    match body {
        Body::Semantic {
            query,
            permanent,
            prohibited,
        } => {
            let added = permanent.as_slice();
            let removed = prohibited.as_slice();
            may_ask(state, query)
                && are_added(state, added)
                && are_removed(state, removed)
                && are_apart(added, removed)
        }
        _ => true,
    }
}

/// Whether a query may be asked: it holds no more than it may, and names directories.
fn may_ask(state: &State, query: &Query<Number>) -> bool
    requires { DoRise state.now.entries }
    ensures { result ≡ events.may_ask state.now query.now }
{
    is_query(query) && are_directories(state.entries.as_slice(), query)
}

/// Whether a query names directories only.
fn are_directories(entries: &[Entry], query: &Query<Number>) -> bool
    requires { DoRise entries.now }
    ensures { result ≡ list_all (tree.is_directory_at entries.now) (named_in query.now) }
{
    match &query.node {
        Node::Term(_) => true,
        Node::Dir(dir) => is_directory_at(entries, *dir),
        Node::Not(query) => are_directories(entries, query),
        Node::And(left, right) | Node::Or(left, right) => {
            are_directories(entries, left) && are_directories(entries, right)
        }
    }
}

/// Whether numbers rise, and are those of items and directories.
fn are_added(state: &State, numbers: &[Number]) -> bool
    requires { DoRise state.now.entries }
    ensures { result ≡ valid.are_marks (links.can_be_added state.now) numbers.now }
{
    do_rise(numbers) && can_all_be_added(state, numbers)
}

/// Whether numbers are those of items and directories.
fn can_all_be_added(state: &State, numbers: &[Number]) -> bool
    requires { DoRise state.now.entries }
    ensures { result ≡ list_all (links.can_be_added state.now) numbers.now }
{
    numbers.iter().all(|number| can_be_added(state, *number))
}

/// Whether numbers rise, and are those of items.
fn are_removed(state: &State, numbers: &[Number]) -> bool
    requires { DoRise state.now.entries }
    ensures { result ≡ valid.are_marks (links.is_item state.now) numbers.now }
{
    do_rise(numbers) && are_items(state, numbers)
}

/// Whether numbers are those of items.
fn are_items(state: &State, numbers: &[Number]) -> bool
    requires { DoRise state.now.entries }
    ensures { result ≡ list_all (links.is_item state.now) numbers.now }
{
    numbers.iter().all(|number| is_item(state, *number))
}

/// Whether none of some numbers is among others that rise.
fn are_apart(numbers: &[Number], others: &[Number]) -> bool
    requires { RiseFrom 0 others.now }
    ensures { result ≡ list_all (λ number. not (links.has others.now number)) numbers.now }
{
    numbers.iter().all(|number| is_apart(*number, others))
}

/// Whether a number is not among others that rise.
fn is_apart(number: Number, others: &[Number]) -> bool
    requires { RiseFrom 0 others.now }
    ensures { result ≡ not (links.has others.now number) }
{
    !has_number(others, number)
}
