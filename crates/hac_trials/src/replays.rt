//! Which events can happen, which the program asks of the events of a store alone.
ghost use Rattle.std.specs.Prelude.{◌≡◌, ◌<◌, IfOk, IsTrue};
ghost use Rattle.hac_model.specs.Tree.Sessions.{is_stored};

use hac_core::{LoadFault, Machine, Replay};
use hac_model::{Event, Kind, Mark, Memory, Name, Number, Query, Seq, Term, Version};
use hac_outside::Steps;
use std::alloc::{AllocError, Global};
use std::marker::Brand;
use std::sync::ledger::{Blank, Ledger};
use std::test::Fail;

#[test]
fn tells_which_events_can_happen(rt: HostRuntime) -> Result<(), Fail> {
    let mut replay = Replay::new(rt.alloc(), Version::Two)?;
    let told = which_happen(rt.alloc(), &mut replay);
    drop(replay);
    assert_eq!(rt; told?, [true, false, true, false, true, false]);
    Ok(())
}

/// Whether each of six events can happen, one after the other.
fn which_happen(alloc: Global, replay: &mut Replay) -> Result<[bool; 6], Memory> {
    Ok([
        happen(replay, mkdir(alloc, b"a")?)?,
        happen(replay, setq(alloc, 1))?,
        happen(replay, setq(alloc, 0))?,
        happen(replay, Event::Step)?,
        happen(replay, rmdir(1))?,
        happen(replay, rmdir(1))?,
    ])
}

#[test]
fn prohibits_what_is_found(rt: HostRuntime) -> Result<(), Fail> {
    let mut replay = Replay::new(rt.alloc(), Version::Two)?;
    let told = which_prohibit(rt.alloc(), &mut replay);
    drop(replay);
    assert_eq!(rt; told?, [true, true, false, true, true, false]);
    Ok(())
}

/// Whether each of six events can happen. The item is found once its text was indexed, and no more
/// once it is prohibited.
fn which_prohibit(alloc: Global, replay: &mut Replay) -> Result<[bool; 6], Memory> {
    Ok([
        happen(replay, new_file(alloc, b"f", b"apple")?)?,
        happen(replay, smkdir(alloc, b"s", b"apple")?)?,
        happen(replay, prohibit(2, 1))?,
        happen(replay, Event::Step)?,
        happen(replay, prohibit(2, 1))?,
        happen(replay, prohibit(2, 1))?,
    ])
}

#[test]
fn goes_on_from_what_was_stored(rt: HostRuntime) -> Result<(), Fail> {
    let mut replay = Replay::new(rt.alloc(), Version::Two)?;
    let before = which_prohibit(rt.alloc(), &mut replay);
    let machine = machine_of(replay)?;
    let told = which_happen_again(rt.alloc(), &machine);
    drop(machine);
    assert_eq!(rt; before?, [true, true, false, true, true, false]);
    assert_eq!(rt; told.ok(), Some([false, true]));
    Ok(())
}

/// Whether each of two events can happen to what is stored of a machine, once it was read. The item
/// is still prohibited.
fn which_happen_again(alloc: Global, machine: &Machine) -> Result<[bool; 2], LoadFault> {
    let mut replay = Replay::read(alloc, machine.snapshot()?)?;
    let told = happen_again(alloc, &mut replay);
    drop(replay);
    Ok(told?)
}

fn happen_again(alloc: Global, replay: &mut Replay) -> Result<[bool; 2], Memory> {
    Ok([
        happen(replay, prohibit(2, 1))?,
        happen(replay, mkdir(alloc, b"a")?)?,
    ])
}

/// Applies an event if it can happen, and says whether it could.
fn happen(replay: &mut Replay, event: Event) -> Result<bool, Memory>
    requires { IsTrue (is_stored event) }
{
    happen_counted::<Brand>(replay, event, Blank::new(1))
}

/// The same, with its questions for terms counted in a new ledger.
fn happen_counted<L: Ledger>(
    replay: &mut Replay,
    event: Event,
    blank: Blank,
) -> Result<bool, Memory>
    requires stored { IsTrue (is_stored event) }
    requires name { blank.name ≡ L.name }
    requires parts { blank.parts ≡ L.parts }
    requires some { 0 < blank.parts }
{
    let mut probes: Steps<L> = Steps::new(blank);
    replay.happen(event, &mut probes)
}

/// The machine of the state so far.
fn machine_of(replay: Replay) -> Result<Machine, Memory> {
    machine_counted::<Brand>(replay, Blank::new(1))
}

/// The same, with its questions for terms counted in a new ledger.
fn machine_counted<L: Ledger>(replay: Replay, blank: Blank) -> Result<Machine, Memory>
    requires name { blank.name ≡ L.name }
    requires parts { blank.parts ≡ L.parts }
    requires some { 0 < blank.parts }
{
    let mut probes: Steps<L> = Steps::new(blank);
    replay.machine(&mut probes)
}

/// A directory is created in the root.
fn mkdir(alloc: Global, letters: &[u8]) -> Result<Event, AllocError>
    ensures { IfOk result (λ event. IsTrue (is_stored event)) }
{
    Ok(Event::Mkdir {
        dir: Number::ROOT,
        name: Name::new(Vec::from_slice(alloc, letters)?),
    })
}

/// The first entry gets a query, which asks for what a directory provides.
fn setq(alloc: Global, on: u64) -> Event
    ensures { IsTrue (is_stored result) }
{
    Event::Setq {
        dir: Number::new(1),
        query: Query::dir(Number::new(on)),
        told: Seq::new(Vec::new(alloc)),
    }
}

fn rmdir(dir: u64) -> Event
    ensures { IsTrue (is_stored result) }
{
    Event::Rmdir {
        dir: Number::new(dir),
    }
}

/// A file is created in the root.
fn new_file(alloc: Global, letters: &[u8], text: &[u8]) -> Result<Event, AllocError>
    ensures { IfOk result (λ event. IsTrue (is_stored event)) }
{
    Ok(Event::NewFile {
        dir: Number::ROOT,
        name: Name::new(Vec::from_slice(alloc, letters)?),
        text: Seq::new(Vec::from_slice(alloc, text)?),
    })
}

/// A directory is created in the root, which asks for a word.
fn smkdir(alloc: Global, letters: &[u8], word: &[u8]) -> Result<Event, AllocError>
    ensures { IfOk result (λ event. IsTrue (is_stored event)) }
{
    Ok(Event::Smkdir {
        dir: Number::ROOT,
        name: Name::new(Vec::from_slice(alloc, letters)?),
        query: Query::term(Term::Word(Name::new(Vec::from_slice(alloc, word)?))),
        told: Seq::new(Vec::new(alloc)),
    })
}

fn prohibit(dir: u64, item: u64) -> Event
    ensures { IsTrue (is_stored result) }
{
    Event::Mark(Mark {
        dir: Number::new(dir),
        item: Number::new(item),
        kind: Kind::Prohibited,
    })
}
