//! The questions of a command, asked of a space in memory.
use crate::names::{expect_names, name, word};
use crate::spaces::fruit;
use hac_model::{Answers, Asks, Fetch, Search, Seq};
use sem_mounts::{GatherFault, gather};
use std::alloc::{AllocError, Global};
use std::process::Abort;
use std::test::Fail;

#[test]
fn answers_are_gathered(rt: HostRuntime) -> Result<(), Fail> {
    let answers = gathered(rt.alloc(), b"fruit", &[])??;
    let told = expect_answers(&rt, rt.alloc(), &answers);
    drop(answers);
    told
}

/// The answers are those of the documents about fruit.
fn expect_answers(rt: &impl Abort, alloc: Global, answers: &Answers) -> Result<(), Fail> {
    expect_names(rt, alloc, answers.list.as_slice(), b"apple pear plum ")?;
    let found = answers.found.as_slice();
    assert_eq!(rt; found.len(), 1);
    expect_names(rt, alloc, found[0].as_slice(), b"apple pear ")?;
    assert_eq!(rt; text_of(answers), Some(b"Green, or red".as_slice()));
    Ok(())
}

fn text_of(answers: &Answers) -> Option<&[u8]> {
    match &answers.fetched {
        Some(text) => Some(text.as_slice()),
        None => None,
    }
}

#[test]
fn absent_space_is_named(rt: HostRuntime) -> Result<(), Fail> {
    let fault = fault(gathered(rt.alloc(), b"nuts", &[])?);
    let nuts = name(rt.alloc(), b"nuts")?;
    assert_eq!(rt; fault, Some(GatherFault::NoSpace(nuts)));
    Ok(())
}

#[test]
fn space_that_fails_is_named(rt: HostRuntime) -> Result<(), Fail> {
    // The first call attached the space, and the second lists it.
    let fault = fault(gathered(rt.alloc(), b"fruit", &[3])?);
    let space = name(rt.alloc(), b"fruit")?;
    assert_eq!(rt; fault, Some(GatherFault::SpaceFault(space)));
    Ok(())
}

/// The answers to a question for the list, for `red` and for the text of `pear`, of spaces of which
/// the calls with these numbers fail.
fn gathered(
    alloc: Global,
    space: &[u8],
    failing: &[u64],
) -> Result<Result<Answers, GatherFault>, Fail> {
    let mut spaces = fruit(alloc, failing)?;
    let asks = asks(alloc, space)?;
    Ok(gather(alloc, &mut spaces, &asks))
}

/// Those questions.
fn asks(alloc: Global, space: &[u8]) -> Result<Asks, AllocError> {
    Ok(Asks {
        list: Some(name(alloc, space)?),
        searches: Seq::new(vec![in alloc; search(alloc, space)?]?),
        fetch: Some(fetch(alloc, space)?),
    })
}

fn search(alloc: Global, space: &[u8]) -> Result<Search, AllocError> {
    Ok(Search {
        space: name(alloc, space)?,
        term: word(alloc, b"red")?,
    })
}

fn fetch(alloc: Global, space: &[u8]) -> Result<Fetch, AllocError> {
    Ok(Fetch {
        space: name(alloc, space)?,
        document: name(alloc, b"pear")?,
    })
}

/// The fault of a gathering, where it has one.
fn fault(gathered: Result<Answers, GatherFault>) -> Option<GatherFault> {
    match gathered {
        Ok(answers) => {
            drop(answers);
            None
        }
        Err(fault) => Some(fault),
    }
}
