//! Small catalogues, read with ample memory.
use crate::names::{expect_names, name};
use hac_model::Memory;
use sem_mounts::{CatalogueFault, Docs, read_catalogue};
use std::alloc::Global;
use std::process::Abort;
use std::test::Fail;

#[test]
fn documents_of_a_catalogue(rt: HostRuntime) -> Result<(), Fail> {
    let alloc = rt.alloc();
    let catalogue = b"pear\tgreen\\n\\x70ear \\\\ \\t\n  \napple\tRed apple";
    let documents = read_catalogue(alloc, catalogue)?;
    let names = documents.names();
    let texts = texts_of(alloc, &documents);
    drop(documents);
    expect_names(&rt, alloc, &names?, b"apple pear ")?;
    assert_eq!(rt;
        texts?.as_slice(),
        b"|Red apple|green\npear \\ \t|".as_slice()
    );
    Ok(())
}

/// The texts of `apple`, `pear` and `fig`, each behind a bar, as far as they are there.
fn texts_of(alloc: Global, documents: &Docs) -> Result<Vec<u8>, Memory> {
    let mut texts = Vec::new(alloc);
    for letters in [b"apple".as_slice(), b"pear", b"fig"] {
        texts.push(b'|')?;
        if let Some(text) = documents.text(&name(alloc, letters)?)? {
            texts.extend_from_slice(&text)?;
        }
    }
    Ok(texts)
}

#[test]
fn first_bad_line_of_a_catalogue(rt: HostRuntime) {
    // A line with no tab, and a name that was there before.
    expect_bad(&rt, rt.alloc(), b"a\tx\n\nb\na\ty\n", 3);
    expect_bad(&rt, rt.alloc(), b"a\tx\na\ty\nb\n", 2);
}

/// The catalogue is bad, and this line is the first bad one.
fn expect_bad(rt: &impl Abort, alloc: Global, bytes: &[u8], line: u64) {
    let bad = CatalogueFault::Bad { line };
    assert_eq!(rt; fault(alloc, bytes), Some(bad), "in {bytes:?}");
}

/// The fault of a catalogue, where it has one.
fn fault(alloc: Global, bytes: &[u8]) -> Option<CatalogueFault> {
    match read_catalogue(alloc, bytes) {
        Ok(_) => None,
        Err(fault) => Some(fault),
    }
}
