//! Spaces in memory and over a real file, with one catalogue of three documents.
ghost use Rattle.std.specs.Prelude.{◌≡◌, [], IfOk};
ghost use Rattle.sem_mounts.specs.Memory.{seen_of};

use crate::names::{expect_names, name, prefix, word};
use hac_model::{Memory, Name, Term, Text};
use sem_mounts::{AttachFault, CatalogueSpaces, MemorySpaces, SpaceFault, Spaces};
use std::alloc::{AllocError, Global};
use std::fs;
use std::process::Abort;
use std::test::Fail;

/// A catalogue of three documents.
const FRUIT: &[u8] = b"pear\tGreen, or red\napple\tRed apples\nplum\tblue, reddish\n";

#[test]
fn spaces_in_memory(rt: HostRuntime) -> Result<(), Fail> {
    let mut spaces = fruit(rt.alloc(), &[])?;
    expect_fruit(&rt, rt.alloc(), &mut spaces)
}

#[test]
fn spaces_over_a_real_file(rt: HostRuntime) -> Result<(), Fail> {
    fs::write(&rt, "hac_fruit_test.cat", FRUIT)?;
    let mut spaces = CatalogueSpaces::new(&rt);
    spaces.attach(&name(rt.alloc(), b"fruit")?, "hac_fruit_test.cat")?;
    fs::remove_file(&rt, "hac_fruit_test.cat")?;
    expect_fruit(&rt, rt.alloc(), &mut spaces)
}

/// The space has the documents about fruit.
fn expect_fruit<P: Spaces>(rt: &impl Abort, alloc: Global, spaces: &mut P) -> Result<(), Fail> {
    expect_list(rt, alloc, spaces, b"apple pear plum ")?;
    expect_found(rt, alloc, spaces, word(alloc, b"red")?, b"apple pear ")?;
    expect_found(
        rt,
        alloc,
        spaces,
        prefix(alloc, b"red")?,
        b"apple pear plum ",
    )?;
    expect_text(rt, alloc, spaces, b"plum", Some(b"blue, reddish"))?;
    expect_text(rt, alloc, spaces, b"fig", None)
}

/// The names of its documents.
fn expect_list<P: Spaces>(
    rt: &impl Abort,
    alloc: Global,
    spaces: &mut P,
    want: &[u8],
) -> Result<(), Fail> {
    let names = spaces.list(&name(alloc, b"fruit")?)?;
    Ok(expect_names(rt, alloc, &names, want)?)
}

/// The names of its documents that have a term.
fn expect_found<P: Spaces>(
    rt: &impl Abort,
    alloc: Global,
    spaces: &mut P,
    term: Term,
    want: &[u8],
) -> Result<(), Fail> {
    let names = spaces.search(&name(alloc, b"fruit")?, &term)?;
    Ok(expect_names(rt, alloc, &names, want)?)
}

/// The text of one of its documents.
fn expect_text<P: Spaces>(
    rt: &impl Abort,
    alloc: Global,
    spaces: &mut P,
    document: &[u8],
    want: Option<&[u8]>,
) -> Result<(), Fail> {
    let text = spaces.fetch(&name(alloc, b"fruit")?, &name(alloc, document)?)?;
    assert_eq!(rt; text.as_deref(), want, "of {document:?}");
    Ok(())
}

#[test]
fn space_that_is_absent(rt: HostRuntime) -> Result<(), Fail> {
    let mut spaces = fruit(rt.alloc(), &[])?;
    let faults = faults_of(rt.alloc(), &mut spaces, b"nuts");
    drop(spaces);
    assert_eq!(rt; faults?, [Some(SpaceFault::Absent); 3]);
    Ok(())
}

#[test]
fn questions_that_fail(rt: HostRuntime) -> Result<(), Fail> {
    // The first call attached the space.
    let mut spaces = fruit(rt.alloc(), &[2, 3, 4])?;
    let faults = faults_of(rt.alloc(), &mut spaces, b"fruit");
    drop(spaces);
    assert_eq!(rt; faults?, [Some(SpaceFault::Failed); 3]);
    Ok(())
}

/// The faults of a question for the list, for a term and for a text of a space.
fn faults_of(
    alloc: Global,
    spaces: &mut MemorySpaces,
    space: &[u8],
) -> Result<[Option<SpaceFault>; 3], AllocError> {
    Ok([
        fault_of_list(alloc, spaces, space)?,
        fault_of_search(alloc, spaces, space)?,
        fault_of_fetch(alloc, spaces, space)?,
    ])
}

fn fault_of_list(
    alloc: Global,
    spaces: &mut MemorySpaces,
    space: &[u8],
) -> Result<Option<SpaceFault>, AllocError> {
    let space = name(alloc, space)?;
    Ok(fault(spaces.list(&space)))
}

fn fault_of_search(
    alloc: Global,
    spaces: &mut MemorySpaces,
    space: &[u8],
) -> Result<Option<SpaceFault>, AllocError> {
    let space = name(alloc, space)?;
    let term = word(alloc, b"red")?;
    Ok(fault(spaces.search(&space, &term)))
}

fn fault_of_fetch(
    alloc: Global,
    spaces: &mut MemorySpaces,
    space: &[u8],
) -> Result<Option<SpaceFault>, AllocError> {
    let space = name(alloc, space)?;
    let document = name(alloc, b"pear")?;
    Ok(fault(spaces.fetch(&space, &document)))
}

/// The fault of a call, where it has one.
fn fault<T: Drop>(answer: Result<T, SpaceFault>) -> Option<SpaceFault> {
    match answer {
        Ok(_) => None,
        Err(fault) => Some(fault),
    }
}

#[test]
fn spaces_that_are_not_attached(rt: HostRuntime) -> Result<(), Fail> {
    let alloc = rt.alloc();
    let bad = AttachFault::BadCatalogue { line: 2 };
    // A file that is missing, a call that is to fail, and a bad line.
    expect_refused(&rt, alloc, b"a\tx\n", &[], "b", AttachFault::Failed)?;
    expect_refused(&rt, alloc, b"a\tx\n", &[1], "a", AttachFault::Failed)?;
    expect_refused(&rt, alloc, b"a\tx\nb\n", &[], "a", bad)
}

/// A space that a file is to give isn't attached. There is one file `a` of these bytes.
fn expect_refused(
    rt: &impl Abort,
    alloc: Global,
    bytes: &[u8],
    failing: &[u64],
    file: &str,
    fault: AttachFault,
) -> Result<(), Fail> {
    let mut spaces = unattached(alloc, bytes, failing)?;
    let told = spaces.attach(&name(alloc, b"fruit")?, file);
    drop(spaces);
    assert_eq!(rt; told, Err(fault));
    Ok(())
}

/// Spaces in memory, of which one is attached, with documents about fruit.
pub(crate) fn fruit(alloc: Global, failing: &[u64]) -> Result<MemorySpaces, AttachFault> {
    let space = fruit_name(alloc)?;
    let mut spaces = unattached(alloc, FRUIT, failing)?;
    match spaces.attach(&space, "a") {
        Ok(()) => Ok(spaces),
        Err(fault) => Err(fault),
    }
}

fn fruit_name(alloc: Global) -> Result<Name, Memory> {
    Ok(name(alloc, b"fruit")?)
}

/// Spaces in memory over one file `a` of these bytes. None is attached.
fn unattached(alloc: Global, bytes: &[u8], failing: &[u64]) -> Result<MemorySpaces, Memory>
    ensures { IfOk result (λ spaces. (seen_of spaces).attached ≡ []) }
{
    let file = (
        name(alloc, b"a")?,
        Text::new(Vec::from_slice(alloc, bytes)?),
    );
    MemorySpaces::new(alloc, &[file], failing)
}
