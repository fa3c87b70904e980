//! What a semantic directory asks for.
ghost use Rattle.std.specs.Prelude.{◌≡◌, IfOk};
ghost use Rattle.hac_model.specs.Query.Formula.{Formula};

use crate::memory::Memory;
use crate::numbers::Number;
use crate::paths::PathWord;
use crate::terms::Term;
use std::alloc::Global;
use std::marker::Model;

/// A condition on a file or a document, which names directories by a `D`. `holds` of the specs says
/// what satisfies it.
#[cycle(query)]
#[derive(Debug, Drop)]
pub struct Query<D> {
    /// What it is made of.
    pub node: Node<D>,
}

/// The outermost part of a query.
#[cycle(query)]
#[derive(Debug, Drop)]
pub enum Node<D> {
    /// The text has the term.
    Term(Term),
    /// The directory provides the item.
    Dir(D),
    /// The query doesn't hold.
    Not(Box<Query<D>>),
    /// Both hold.
    And(Box<Query<D>>, Box<Query<D>>),
    /// At least one of both holds.
    Or(Box<Query<D>>, Box<Query<D>>),
}

/// A query as a line spells it.
pub type RawQuery = Query<PathWord>;

impl<D> Model for Query<D> {
    ghost use Rattle.hac_model.specs.Query.Formula.{Formula, formula_code, size_of};

    ghost Value = { Formula D };

    ghost coded = { formula_code D.code };

    ghost use Rattle.hac_model.specs.Query.FormulaOf.{formula_of};

    ghost view = { λ query. formula_of query.node };

    ghost size = { size_of };

    ghost use Rattle.std.proofs.Common.{arith};

    ghost size_decreases = { λ a h. Prim.grind arith };
}

impl<D> Query<D> {
    /// The query of one term.
    pub fn term(term: Term) -> Query<D>
        ensures { result ≡ Formula.Term term }
    {
        Query {
            node: Node::Term(term),
        }
    }
}

impl<D: Drop> Query<D> {
    /// The query that holds where another doesn't.
    pub fn negation(alloc: Global, query: Query<D>) -> Result<Query<D>, Memory>
        ensures { IfOk result (λ made. made ≡ Formula.Not query) }
    {
        Ok(Query {
            node: Node::Not(Box::new(alloc, query)?),
        })
    }

    /// The query that holds where both do.
    pub fn both(alloc: Global, left: Query<D>, right: Query<D>) -> Result<Query<D>, Memory>
        ensures { IfOk result (λ made. made ≡ Formula.And left right) }
    {
        Ok(Query {
            node: Node::And(Box::new(alloc, left)?, Box::new(alloc, right)?),
        })
    }

    /// The query that holds where at least one of both does.
    pub fn either(alloc: Global, left: Query<D>, right: Query<D>) -> Result<Query<D>, Memory>
        ensures { IfOk result (λ made. made ≡ Formula.Or left right) }
    {
        Ok(Query {
            node: Node::Or(Box::new(alloc, left)?, Box::new(alloc, right)?),
        })
    }
}

impl<D> Query<D> {
    /// The query of one directory.
    pub fn dir(dir: D) -> Query<D>
        ensures { result ≡ Formula.Dir dir }
    {
        Query {
            node: Node::Dir(dir),
        }
    }
}
