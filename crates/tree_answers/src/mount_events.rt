//! The events of mounts: what spaces answered by names, they tell by numbers.
ghost use Rattle.std.specs.Prelude.{◌≡◌, ℕ, List, [], IfOk, IsTrue, map};
ghost use Rattle.hac_model.specs.Run.Asks.{documents_named};
ghost use Rattle.hac_model.specs.Run.Refusals.{mounting, syncing};
ghost use Rattle.hac_model.specs.Spaces.Answering.{AreRisingNames};
ghost use Rattle.hac_model.specs.Tree.{is_mount_at};
ghost use Rattle.hac_model.specs.Tree.Mounting.{mounted, synced};

use crate::numbering::{mounted_named, synced_named};
use hac_model::{Answers, Event, Memory, Name, Number, Seq};
use kept_state::KeptState;
use std::alloc::Global;

/// A space is mounted with the documents that it listed.
pub fn mounting(
    alloc: Global,
    kept: &KeptState,
    dir: Number,
    name: Name,
    space: Name,
    answers: Answers,
) -> Result<Event, Memory>
    requires { AreRisingNames answers.list }
    ensures { IfOk result (λ event. event
        ≡ mounting kept.now.state space answers dir name) }
{
    let told = mounted_told(
        alloc,
        kept,
        answers.list.as_slice(),
        answers.found.as_slice(),
    )?;
    Ok(Event::Smount {
        dir,
        name,
        space,
        docs: answers.list,
        told: Seq::new(told),
    })
}

/// The documents of a new mount that were found for each term.
fn mounted_told(
    alloc: Global,
    kept: &KeptState,
    list: &[Name],
    found: &[Seq<Name>],
) -> Result<Vec<Seq<Number>>, Memory>
    requires { AreRisingNames list.now }
    ensures { IfOk result (λ told. (dir : ℕ) (name space : List ℕ) → told.items ≡ map
        (documents_named (mounted kept.now.state dir name space [] list.now) kept.now.state.next)
        found.now) }
{
    let tree = kept.tree();
    let mut told = Vec::new(alloc);
    for names in found {
        told.push(mounted_named(alloc, tree, list, names.as_slice())?)?;
    }
    Ok(told)
}

/// A mount takes over what its space has now.
pub fn syncing(
    alloc: Global,
    kept: &KeptState,
    mount: Number,
    answers: Answers,
) -> Result<Event, Memory>
    requires mount { IsTrue (is_mount_at kept.now.state.entries mount) }
    requires list { AreRisingNames answers.list }
    ensures { IfOk result (λ event. event ≡ syncing kept.now.state mount answers) }
{
    let told = synced_told(
        alloc,
        kept,
        mount,
        answers.list.as_slice(),
        answers.found.as_slice(),
    )?;
    Ok(Event::Ssync {
        mount,
        docs: answers.list,
        told: Seq::new(told),
    })
}

/// The documents of a mount, once it is synced, that were found for each term.
fn synced_told(
    alloc: Global,
    kept: &KeptState,
    mount: Number,
    list: &[Name],
    found: &[Seq<Name>],
) -> Result<Vec<Seq<Number>>, Memory>
    requires mount { IsTrue (is_mount_at kept.now.state.entries mount) }
    requires list { AreRisingNames list.now }
    ensures { IfOk result (λ told. told.items ≡ map
        (documents_named (synced kept.now.state mount [] list.now) mount) found.now) }
{
    let tree = kept.tree();
    let mut told = Vec::new(alloc);
    for names in found {
        told.push(synced_named(alloc, tree, mount, list, names.as_slice())?)?;
    }
    Ok(told)
}
