//! What a space is asked as it is mounted, and as its mount is synced: the terms in use, in order.
//! It changes nothing.
ghost use Rattle.std.specs.Prelude.{◌≡◌, ◌++◌, [], IfOk, OnOk};
ghost use Rattle.std.specs.Option.{option_map_or};
ghost use Rattle.hac_model.specs.Query.Queries.{terms_of};
ghost use Rattle.hac_model.specs.Tree.Links.{query_at};
ghost use Rattle.hac_model.specs.Tree.Mounts.{terms_in_use, terms_to_ask};

use file_tree::Tree;
use hac_model::{Memory, Number, Term};
use kept_facts::{push_terms, terms_in_order};
use std::alloc::Global;

/// The terms in use, in order, each once.
pub fn terms_to_ask(alloc: Global, tree: &Tree) -> Result<Vec<Term>, Memory>
    ensures { IfOk result (λ terms. terms.items ≡ terms_to_ask tree.now.state.entries) }
{
    terms_in_order(alloc, terms_in_use(alloc, tree)?)
}

/// The terms of all queries, in order of number of their directories.
fn terms_in_use(alloc: Global, tree: &Tree) -> Result<Vec<Term>, Memory>
    ensures { IfOk result (λ terms. terms.items ≡ terms_in_use tree.now.state.entries) }
{
    let mut terms = Vec::new(alloc);
    'entries: for number in tree.numbers(alloc)? {
        push_query_terms(&mut terms, tree, number)?;
    }
    Ok(terms)
}

/// Adds the terms of the query of a directory, where it has one.
fn push_query_terms(terms: &mut Vec<Term>, tree: &Tree, dir: Number) -> Result<(), Memory>
    ensures { OnOk result (terms.new.items
        ≡ terms.old.items ++ option_map_or terms_of (query_at tree.now.state dir) []) }
{
    match tree.query(dir) {
        Some(query) => push_terms(terms, query),
        None => Ok(()),
    }
}
