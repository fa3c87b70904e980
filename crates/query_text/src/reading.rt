//! Queries as they are read.
ghost use Rattle.std.specs.Prelude.{◌≡◌, nat_lt, IfOk, IsTrue};
ghost use Rattle.hac_model.specs.Query.Queries as queries;
ghost use Rattle.hac_model.specs.Query.QueryReading as reading;
ghost use Rattle.query_text.specs.Reading.{IsPart, ReadsQuery};

use crate::faults::QueryFault;
use crate::sizes::terms_left;
use crate::stepping::{ended, start, step};
use hac_model::reading::Part;
use hac_model::{
    LimitWord, NESTING_LIMIT, Name, Node, PathWord, QUERY_LIMIT, Query, RawQuery, TERMS_LIMIT,
};
use hac_names::{NameFault, parse_word};
use std::alloc::Global;

/// The query that bytes spell. Its directories are path words, which begin at the root.
pub fn parse(alloc: Global, bytes: &[u8]) -> Result<RawQuery, QueryFault>
    ensures query { ReadsQuery result (reading.read_query bytes.now) }
    ensures spelled { IfOk result (λ query. IsTrue (reading.is_spelled_query query)) }
{
    let outcome = parse_short(alloc, bytes);
    outcome
}

/// The query that bytes spell, where they aren't too many.
#[tactic(auto, unfolding(hac_model::specs::Query::QueryReading::read_query))]
fn parse_short(alloc: Global, bytes: &[u8]) -> Result<RawQuery, QueryFault>
    ensures { ReadsQuery result (reading.read_query bytes.now) }
{
    if bytes.len() > QUERY_LIMIT {
        return Err(QueryFault::Limit(LimitWord::Query));
    }
    let part = read(alloc, bytes)?;
    let nesting = part.nesting;
    let query = worded(alloc, part.query)?;
    limited(query, nesting)
}

/// The query of the bytes, its limits not tested.
fn read(alloc: Global, bytes: &[u8]) -> Result<Part, QueryFault>
    ensures { IsPart result (reading.read_on 1 bytes.now reading.fresh_reader) }
{
    let mut reader = start(alloc);
    for (index, byte) in bytes.iter().enumerate() {
        reader = match step(alloc, reader, *byte)? {
            Some(next) => next,
            None => return Err(QueryFault::BadAt(index as u64 + 1)),
        };
    }
    match ended(alloc, reader)? {
        Some(part) => Ok(part),
        None => Err(QueryFault::BadAt(bytes.len() as u64 + 1)),
    }
}

/// The query with its directories as path words. It goes down as deep as the query does, which has
/// no more parts than the bytes that spelled it.
fn worded(alloc: Global, query: Query<Name>) -> Result<RawQuery, QueryFault>
    ensures { ReadsQuery result (reading.worded query) }
{
    match query.node {
        Node::Term(term) => Ok(Query::term(term)),
        Node::Dir(path) => Ok(Query::dir(path_word(alloc, path.as_bytes())?)),
        Node::Not(query) => {
            let inner = worded(alloc, Box::into_inner(query))?;
            Ok(Query::negation(alloc, inner)?)
        }
        Node::And(left, right) => {
            let first = worded(alloc, Box::into_inner(left))?;
            let second = worded(alloc, Box::into_inner(right))?;
            Ok(Query::both(alloc, first, second)?)
        }
        Node::Or(left, right) => {
            let first = worded(alloc, Box::into_inner(left))?;
            let second = worded(alloc, Box::into_inner(right))?;
            Ok(Query::either(alloc, first, second)?)
        }
    }
}

/// The word of a directory's path.
fn path_word(alloc: Global, path: &[u8]) -> Result<PathWord, QueryFault>
    ensures { ReadsQuery result (reading.dir_word path.now) }
{
    match parse_word(alloc, path) {
        Ok(word) => Ok(word),
        Err(NameFault::Memory) => Err(QueryFault::Memory),
        Err(_) => Err(QueryFault::Limit(LimitWord::Name)),
    }
}

/// The query, where it exceeds no limit.
fn limited(query: RawQuery, nesting: u64) -> Result<RawQuery, QueryFault>
    ensures { ReadsQuery result (reading.limited_query nesting query) }
{
    if is_above(TERMS_LIMIT, &query) {
        return Err(QueryFault::Limit(LimitWord::Terms));
    }
    if nesting > NESTING_LIMIT {
        return Err(QueryFault::Limit(LimitWord::Nesting));
    }
    Ok(query)
}

/// Whether the query has more terms than `most`.
fn is_above(most: u64, query: &RawQuery) -> bool
    ensures { result ≡ nat_lt most (queries.term_count query.now) }
{
    terms_left(most, query).is_none()
}
