//! The questions of one command, asked of spaces in their order.
ghost use Rattle.std.specs.Prelude.{◌≡◌, ◌∷◌, [], IfNone, IfOk, IfSome, None, length, map};
ghost use Rattle.std.specs.Option.{option_and_then, option_map, option_to_list, unwrap_or};
ghost use Rattle.hac_model.specs.Spaces.Answering.{AreRisingNames, asked_spaces, documents_in};
ghost use Rattle.hac_model.specs.Spaces.Answering.{names_with, text_at};
ghost use Rattle.hac_model.specs.Spaces.Catalogue.{names};
ghost use Rattle.sem_mounts.specs.Gathering.{AreAnswers, AreGathered, gather_fault};

use crate::entries::{copy_of, push};
use crate::faults::SpaceFault;
use crate::spaces::Spaces;
use hac_model::{Answers, Asks, Fetch, Memory, Name, Search, Seq, Text};
use std::alloc::Global;
use thiserror::Error;

/// Why questions got no answers.
#[derive(Debug, Drop, PartialEq, Eq, Error)]
pub enum GatherFault {
    /// No space of this name is attached.
    #[error("no such space is attached")]
    NoSpace(Name),
    /// The space of this name failed.
    #[error("the space failed")]
    SpaceFault(Name),
    /// Memory ran out.
    #[error("out of memory")]
    Memory,
}

impl From<Memory> for GatherFault {
    ghost use Rattle.sem_mounts.specs.declared.gathering.GatherFault.TheVariants as fault;

    ghost from_gives = { λ _ e. e ≡ fault.Memory };

    fn from(_memory: Memory) -> GatherFault {
        GatherFault::Memory
    }
}

/// Asks spaces for the list, then for each term, then for the text. It stops at the first fault.
pub fn gather<P: Spaces>(alloc: Global, spaces: &mut P, asks: &Asks) -> Result<Answers, GatherFault>
    ensures asked { AreGathered (P.seen spaces.old) (P.seen spaces.new) (asked_spaces asks.now)
        result }
    ensures answers { IfOk result (AreAnswers (P.seen spaces.old) asks.now) }
{
    let list = list_asked(alloc, spaces, &asks.list)?;
    let found = search_all(alloc, spaces, asks.searches.as_slice())?;
    let fetched = fetch_asked(spaces, &asks.fetch)?;
    Ok(Answers {
        list,
        found,
        fetched,
    })
}

// The names of the documents, where a list is asked for.
fn list_asked<P: Spaces>(
    alloc: Global,
    spaces: &mut P,
    list: &Option<Name>,
) -> Result<Seq<Name>, GatherFault>
    ensures asked { AreGathered (P.seen spaces.old) (P.seen spaces.new) (option_to_list list.now)
        result }
    ensures rising { IfOk result AreRisingNames }
    ensures none { IfOk result (λ found. IfNone list.now (found ≡ [])) }
    ensures said { IfOk result (λ found. IfSome (P.seen spaces.old).contents (λ contents.
        found ≡ unwrap_or (option_map (λ space. names (documents_in contents.spaces space)) list.now)
        [])) }
{
    match list {
        Some(name) => list_one(spaces, name),
        None => Ok(Seq::new(Vec::new(alloc))),
    }
}

fn list_one<P: Spaces>(spaces: &mut P, name: &Name) -> Result<Seq<Name>, GatherFault>
    ensures asked { AreGathered (P.seen spaces.old) (P.seen spaces.new) (name.now ∷ []) result }
    ensures rising { IfOk result AreRisingNames }
    ensures said { IfOk result (λ found. IfSome (P.seen spaces.old).contents (λ contents.
        found ≡ names (documents_in contents.spaces name.now))) }
{
    let asked = copy_of(name)?;
    match spaces.list(name) {
        Ok(found) => Ok(Seq::new(found)),
        Err(fault) => Err(fault_at(asked, fault)),
    }
}

// For each term the names of the documents that have it.
fn search_all<P: Spaces>(
    alloc: Global,
    spaces: &mut P,
    searches: &[Search],
) -> Result<Seq<Seq<Name>>, GatherFault>
    ensures asked { AreGathered (P.seen spaces.old) (P.seen spaces.new)
        (map (λ question. question.space) searches.now) result }
    ensures count { IfOk result (λ found. length found ≡ length searches.now) }
    ensures said { IfOk result (λ found. IfSome (P.seen spaces.old).contents (λ contents.
        found ≡ map (λ question.
        names_with (documents_in contents.spaces question.space) question.term)
        searches.now)) }
{
    let mut found = Vec::new(alloc);
    for question in searches {
        push(&mut found, search_one(spaces, question)?)?;
    }
    Ok(Seq::new(found))
}

fn search_one<P: Spaces>(spaces: &mut P, question: &Search) -> Result<Seq<Name>, GatherFault>
    ensures asked { AreGathered (P.seen spaces.old) (P.seen spaces.new) (question.now.space ∷ [])
        result }
    ensures said { IfOk result (λ found. IfSome (P.seen spaces.old).contents (λ contents.
        found ≡ names_with (documents_in contents.spaces question.now.space) question.now.term)) }
{
    let asked = copy_of(&question.space)?;
    match spaces.search(&question.space, &question.term) {
        Ok(found) => Ok(Seq::new(found)),
        Err(fault) => Err(fault_at(asked, fault)),
    }
}

// The text, where one is asked for and is there.
fn fetch_asked<P: Spaces>(
    spaces: &mut P,
    fetch: &Option<Fetch>,
) -> Result<Option<Text>, GatherFault>
    ensures asked { AreGathered (P.seen spaces.old) (P.seen spaces.new)
        (option_to_list (option_map (λ fetch. fetch.space) fetch.now)) result }
    ensures none { IfOk result (λ text. IfNone fetch.now (text ≡ None)) }
    ensures said { IfOk result (λ text. IfSome (P.seen spaces.old).contents (λ contents.
        text ≡ option_and_then (λ fetch.
        text_at (documents_in contents.spaces fetch.space) fetch.document) fetch.now)) }
{
    match fetch {
        Some(fetch) => fetch_one(spaces, fetch),
        None => Ok(None),
    }
}

fn fetch_one<P: Spaces>(spaces: &mut P, fetch: &Fetch) -> Result<Option<Text>, GatherFault>
    ensures asked { AreGathered (P.seen spaces.old) (P.seen spaces.new) (fetch.now.space ∷ [])
        result }
    ensures said { IfOk result (λ text. IfSome (P.seen spaces.old).contents (λ contents.
        text ≡ text_at (documents_in contents.spaces fetch.now.space) fetch.now.document)) }
{
    let asked = copy_of(&fetch.space)?;
    match spaces.fetch(&fetch.space, &fetch.document) {
        Ok(bytes) => Ok(text_of(bytes)),
        Err(fault) => Err(fault_at(asked, fault)),
    }
}

fn text_of(bytes: Option<Vec<u8>>) -> Option<Text>
    ensures { result ≡ option_map (λ bytes. bytes.items) bytes }
{
    match bytes {
        Some(bytes) => Some(Seq::new(bytes)),
        None => None,
    }
}

// A fault of the space of this name.
fn fault_at(name: Name, fault: SpaceFault) -> GatherFault
    ensures { result ≡ gather_fault name fault }
{
    match fault {
        SpaceFault::Failed => GatherFault::SpaceFault(name),
        SpaceFault::Absent => GatherFault::NoSpace(name),
        SpaceFault::Memory => GatherFault::Memory,
    }
}
