//! Operands, and how what comes before them joins them.
ghost use Rattle.std.specs.Prelude.{◌≡◌, ◌+◌, IfOk};
ghost use Rattle.hac_model.specs.Query.Grammar as grammar;
ghost use Rattle.hac_model.specs.Query.QueryReading as reading;

use hac_model::reading::{Ended, Level, Part, Wanted};
use hac_model::{Memory, Pile, Query};
use std::alloc::Global;

/// A level with nothing on it yet.
pub(crate) fn empty_level() -> Level
    ensures { result ≡ reading.empty_level }
{
    Level {
        ors: None,
        ands: None,
        nots: 0,
    }
}

/// Behind `(`.
pub(crate) fn enter(wanted: Wanted) -> Result<Wanted, Memory>
    ensures { IfOk result (λ inner. inner ≡ reading.enter wanted) }
{
    let Wanted { level, mut outer } = wanted;
    outer.push(level)?;
    Ok(Wanted {
        level: empty_level(),
        outer,
    })
}

/// Behind `NOT`.
pub(crate) fn negate(wanted: Wanted) -> Result<Wanted, Memory>
    ensures { IfOk result (λ negated. negated ≡ reading.negate wanted) }
{
    let Wanted { level, outer } = wanted;
    let Level { ors, ands, nots } = level;
    Ok(Wanted {
        level: Level {
            ors,
            ands,
            nots: one_more(nots)?,
        },
        outer,
    })
}

/// Behind the operand that was wanted.
pub(crate) fn receive(alloc: Global, part: Part, wanted: Wanted) -> Result<Ended, Memory>
    ensures { IfOk result (λ ended. ended ≡ reading.receive part wanted) }
{
    let Wanted { level, outer } = wanted;
    let Level { ors, ands, nots } = level;
    let part = and_nots(alloc, ands, nots, part)?;
    Ok(Ended { ors, part, outer })
}

/// A part behind `nots` `NOT`s, joined with what comes before its `AND`.
fn and_nots(alloc: Global, ands: Option<Part>, nots: u64, part: Part) -> Result<Part, Memory>
    ensures { IfOk result (λ joined. joined ≡ reading.join_and ands (reading.nots_part nots part)) }
{
    match nots_part(alloc, nots, part) {
        Ok(negated) => join_and(alloc, ands, negated),
        Err(memory) => {
            drop(ands);
            Err(memory)
        }
    }
}

/// Behind `AND`.
pub(crate) fn after_and(ended: Ended) -> Wanted
    ensures { result ≡ reading.after_and ended }
{
    let Ended { ors, part, outer } = ended;
    Wanted {
        level: Level {
            ors,
            ands: Some(part),
            nots: 0,
        },
        outer,
    }
}

/// Behind `OR`.
pub(crate) fn after_or(alloc: Global, ended: Ended) -> Result<Wanted, Memory>
    ensures { IfOk result (λ wanted. wanted ≡ reading.after_or ended) }
{
    let Ended { ors, part, outer } = ended;
    let whole = join_or(alloc, ors, part)?;
    Ok(Wanted {
        level: Level {
            ors: Some(whole),
            ands: None,
            nots: 0,
        },
        outer,
    })
}

/// Behind `)`.
pub(crate) fn leave(alloc: Global, ended: Ended) -> Result<Option<Ended>, Memory>
    ensures { IfOk result (λ left. left ≡ reading.leave ended) }
{
    let Ended { ors, part, outer } = ended;
    let whole = join_or(alloc, ors, part)?;
    grouped(alloc, whole, outer)
}

/// The part in parentheses, given what comes before each open one.
fn grouped(alloc: Global, part: Part, mut outer: Pile<Level>) -> Result<Option<Ended>, Memory>
    ensures { IfOk result (λ ended. ended ≡ reading.grouped part outer) }
{
    match outer.pop() {
        None => Ok(None),
        Some(level) => {
            let wanted = Wanted { level, outer };
            match group_part(part) {
                Ok(group) => Ok(Some(receive(alloc, group, wanted)?)),
                Err(memory) => {
                    drop(wanted);
                    Err(memory)
                }
            }
        }
    }
}

/// The query, where nothing follows.
pub(crate) fn finish(alloc: Global, ended: Ended) -> Result<Option<Part>, Memory>
    ensures { IfOk result (λ part. part ≡ reading.finish ended) }
{
    let Ended { ors, part, outer } = ended;
    let whole = join_or(alloc, ors, part)?;
    Ok(ungrouped(whole, outer))
}

fn ungrouped(part: Part, mut outer: Pile<Level>) -> Option<Part>
    ensures { result ≡ reading.ungrouped part outer }
{
    match outer.pop() {
        None => Some(part),
        Some(level) => {
            drop(level);
            drop(part);
            None
        }
    }
}

fn join_and(alloc: Global, left: Option<Part>, part: Part) -> Result<Part, Memory>
    ensures { IfOk result (λ joined. joined ≡ reading.join_and left part) }
{
    match left {
        None => Ok(part),
        Some(left) => and_part(alloc, left, part),
    }
}

fn join_or(alloc: Global, left: Option<Part>, part: Part) -> Result<Part, Memory>
    ensures { IfOk result (λ joined. joined ≡ reading.join_or left part) }
{
    match left {
        None => Ok(part),
        Some(left) => or_part(alloc, left, part),
    }
}

fn and_part(alloc: Global, left: Part, right: Part) -> Result<Part, Memory>
    ensures { IfOk result (λ both. both ≡ grammar.and_part left right) }
{
    Ok(Part {
        query: Query::both(alloc, left.query, right.query)?,
        nesting: left.nesting.max(right.nesting),
    })
}

fn or_part(alloc: Global, left: Part, right: Part) -> Result<Part, Memory>
    ensures { IfOk result (λ both. both ≡ grammar.or_part left right) }
{
    Ok(Part {
        query: Query::either(alloc, left.query, right.query)?,
        nesting: left.nesting.max(right.nesting),
    })
}

/// A part behind this many `NOT`s.
fn nots_part(alloc: Global, mut nots: u64, part: Part) -> Result<Part, Memory>
    ensures { IfOk result (λ all. all ≡ reading.nots_part nots part) }
{
    let mut negated = part;
    while nots > 0 {
        negated = not_part(alloc, negated)?;
        nots -= 1;
    }
    Ok(negated)
}

fn not_part(alloc: Global, part: Part) -> Result<Part, Memory>
    ensures { IfOk result (λ negated. negated ≡ grammar.not_part part) }
{
    Ok(Part {
        query: Query::negation(alloc, part.query)?,
        nesting: one_more(part.nesting)?,
    })
}

fn group_part(part: Part) -> Result<Part, Memory>
    ensures { IfOk result (λ group. group ≡ grammar.group_part part) }
{
    Ok(Part {
        query: part.query,
        nesting: one_more(part.nesting)?,
    })
}

/// One more. The counted things are in memory, so the count fits.
fn one_more(count: u64) -> Result<u64, Memory>
    ensures { IfOk result (λ more. more ≡ count + 1) }
{
    count.checked_add(1).ok_or(Memory)
}
