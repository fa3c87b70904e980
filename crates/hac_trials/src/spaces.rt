//! Runs whose words name two spaces, with their files in memory.
ghost use Rattle.std.specs.Prelude.{◌≡◌, [], IfOk};
ghost use Rattle.sem_mounts.specs.Memory.{seen_of};

use crate::runs::{OLD, ROOM, expect_run, failing_disk, run_on};
use hac_disk::MemoryDisk;
use hac_model::{Memory, Name, Text};
use hac_outside::{MemorySink, MemorySource};
use hac_top::Status;
use sem_mounts::{MemorySpaces, SpaceFault, Spaces};
use std::alloc::{AllocError, Global};
use std::process::Abort;
use std::test::Fail;

/// The words: a new store, and two spaces.
const WORDS: [&str; 4] = ["--new", "S", "fruit=a", "trees=b"];

/// The catalogue of the first space.
const FRUIT: &[u8] = b"pear\tGreen, or red\napple\tRed apples\n";

/// The catalogue of the second one.
const TREES: &[u8] = b"oak\thigh\nfir\tgreen\n";

/// A catalogue whose third line has no tab.
const NO_TAB: &[u8] = b"oak\thigh\n\nfir green\n";

#[test]
fn spaces_of_the_words_are_attached(rt: HostRuntime) -> Result<(), Fail> {
    let mut spaces = unattached(rt.alloc(), TREES, &[])?;
    let mut disk = failing_disk(rt.alloc(), &[])?;
    let script = Script {
        lines: b"ls\n",
        replies: b"ok\n",
        status: Status::Done,
    };
    expect(&rt, rt.alloc(), &mut spaces, &mut disk, script)?;
    expect_space(&rt, rt.alloc(), &mut spaces, b"fruit", Some(b"apple pear "))?;
    expect_space(&rt, rt.alloc(), &mut spaces, b"trees", Some(b"fir oak "))?;
    expect_run(
        &rt,
        rt.alloc(),
        &OLD,
        b"ls\n",
        &mut disk,
        Status::Done,
        b"ok\n",
    )
}

// The third call, the first that a command makes, fails, and so does the seventh, which asks the
// second mount for a term.
#[test]
fn space_that_fails_is_told(rt: HostRuntime) -> Result<(), Fail> {
    let mut spaces = unattached(rt.alloc(), TREES, &[3, 7])?;
    let mut disk = failing_disk(rt.alloc(), &[])?;
    let script = Script {
        lines: b"smount /f fruit\nsmount /f fruit\nsmount /t trees\nsmkdir /g green\nls\nsmkdir /g green\nsls /g\n",
        replies: b"no space-fault fruit\nok\nok\nno space-fault trees\nm f\nm t\nok\nok\nt /f/pear\nt /t/fir\nok\n",
        status: Status::SomeRefused,
    };
    expect(&rt, rt.alloc(), &mut spaces, &mut disk, script)
}

#[test]
fn space_that_fails_ends_the_run(rt: HostRuntime) -> Result<(), Fail> {
    let status = Status::BadSpace {
        which: 2,
        line: None,
    };
    let mut spaces = unattached(rt.alloc(), TREES, &[2])?;
    expect_end(&rt, rt.alloc(), &mut spaces, status)
}

#[test]
fn bad_catalogue_ends_the_run(rt: HostRuntime) -> Result<(), Fail> {
    let status = Status::BadSpace {
        which: 2,
        line: Some(3),
    };
    let mut spaces = unattached(rt.alloc(), NO_TAB, &[])?;
    expect_end(&rt, rt.alloc(), &mut spaces, status)
}

/// The second space can't be attached: the first one is, and no store is made.
fn expect_end(
    rt: &impl Abort,
    alloc: Global,
    spaces: &mut MemorySpaces,
    status: Status,
) -> Result<(), Fail>
    requires { (seen_of spaces.old).attached ≡ [] }
{
    let mut disk = failing_disk(alloc, &[])?;
    let script = Script {
        lines: b"ls\n",
        replies: b"",
        status,
    };
    expect(rt, alloc, spaces, &mut disk, script)?;
    expect_space(rt, alloc, spaces, b"fruit", Some(b"apple pear "))?;
    expect_space(rt, alloc, spaces, b"trees", None)?;
    let none = Status::NotStore { at: 0 };
    expect_run(rt, alloc, &OLD, b"ls\n", &mut disk, none, b"")
}

/// The lines of a run, its replies, and the status at its end.
#[derive(Drop)]
struct Script {
    lines: &'static [u8],
    replies: &'static [u8],
    status: Status,
}

/// A run on a new store replies so and ends so.
fn expect(
    rt: &impl Abort,
    alloc: Global,
    spaces: &mut MemorySpaces,
    disk: &mut MemoryDisk,
    script: Script,
) -> Result<(), Fail>
    requires { (seen_of spaces.old).attached ≡ [] }
{
    let mut input = MemorySource::new(alloc, script.lines, &[], &[])?;
    let mut output = MemorySink::new(alloc, ROOM, ROOM, &[])?;
    let ended = run_on(alloc, &WORDS, &mut input, &mut output, disk, spaces)?;
    assert_eq!(rt; ended, script.status);
    assert_eq!(rt; output.written(), script.replies);
    Ok(())
}

/// The names of the documents of a space, each with a blank behind it; none where it isn't
/// attached.
fn expect_space(
    rt: &impl Abort,
    alloc: Global,
    spaces: &mut MemorySpaces,
    space: &[u8],
    want: Option<&[u8]>,
) -> Result<(), Fail> {
    match (spaces.list(&name(alloc, space)?), want) {
        (Ok(names), Some(want)) => expect_names(rt, alloc, &names, want)?,
        (listed, _) => assert_eq!(rt; listed, Err(SpaceFault::Absent)),
    }
    Ok(())
}

/// These are the names, each with a blank behind it.
fn expect_names(
    rt: &impl Abort,
    alloc: Global,
    names: &[Name],
    want: &[u8],
) -> Result<(), AllocError> {
    let mut bytes = Vec::new(alloc);
    for name in names {
        bytes.extend_from_slice(name.as_bytes())?;
        bytes.push(b' ')?;
    }
    assert_eq!(rt; bytes.as_slice(), want);
    Ok(())
}

/// Spaces over the files `a` and `b`, of whose calls those with these numbers fail. None is
/// attached.
fn unattached(alloc: Global, trees: &[u8], failing: &[u64]) -> Result<MemorySpaces, Memory>
    ensures { IfOk result (λ spaces. (seen_of spaces).attached ≡ []) }
{
    let files = [file(alloc, b"a", FRUIT)?, file(alloc, b"b", trees)?];
    MemorySpaces::new(alloc, &files, failing)
}

fn file(alloc: Global, letters: &[u8], bytes: &[u8]) -> Result<(Name, Text), AllocError> {
    let text = Text::new(Vec::from_slice(alloc, bytes)?);
    Ok((name(alloc, letters)?, text))
}

fn name(alloc: Global, letters: &[u8]) -> Result<Name, AllocError> {
    Ok(Name::new(Vec::from_slice(alloc, letters)?))
}
