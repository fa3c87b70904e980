//! Whole states whose bytes were written by hand from the table of bodies.
use event_codec::{CodecFault, read_snapshot, write_snapshot};
use std::alloc::Global;
use std::process::Abort;
use std::test::Fail;

#[test]
fn states_are_read_and_written(rt: HostRuntime) -> Result<(), Fail> {
    let alloc = rt.alloc();
    let rows: [(&[u8], &str); 5] = [
        (
            b"\x02\x01\0\0\0\0\0\0\0",
            "Snapshot { version: One, next: Number(1), entries: Seq([]) }",
        ),
        (
            b"\x02\x02\0\0\0\x01\0\0\0\x01\0\0\0\0\0\0\0\x01a\x02",
            "Snapshot { version: One, next: Number(2), entries: Seq([StoredEntry { entry: Entry { \
              number: Number(1), parent: Number(0), name: Name([97]), body: Dir }, \
              documents: Seq([]) }]) }",
        ),
        (
            b"\x02\x05\0\0\0\x03\0\0\0\x01\0\0\0\0\0\0\0\x01f\x01\x01\x01\0\0\0x\0\x02\0\0\0\0\
              \0\0\0\x01g\x01\0\x01\0\0\0x\x01\x04\0\0\0\0\0\0\0\x01h\x01\x01\x01\0\0\0x\x02\0\0\
              \0\0",
            "Snapshot { version: One, next: Number(5), entries: Seq([StoredEntry { entry: Entry { \
              number: Number(1), parent: Number(0), name: Name([102]), body: File { \
              text: Seq([120]), dirty: true, shown: None } }, documents: Seq([]) }, \
              StoredEntry { entry: Entry { number: Number(2), parent: Number(0), \
              name: Name([103]), body: File { text: Seq([120]), dirty: false, \
              shown: Some(Seq([120])) } }, documents: Seq([]) }, StoredEntry { entry: Entry { \
              number: Number(4), parent: Number(0), name: Name([104]), body: File { \
              text: Seq([120]), dirty: true, shown: Some(Seq([])) } }, documents: Seq([]) }]) }",
        ),
        (
            b"\x02\x09\0\0\0\x02\0\0\0\x03\0\0\0\0\0\0\0\x01l\x03\x02\0/a\x04\0\0\0\x03\0\0\0\
              \x01s\x04\x04\x01\x01\0k\x02\0\0\0\x05\0\0\0\x07\0\0\0\x01\0\0\0\x06\0\0\0",
            "Snapshot { version: One, next: Number(9), entries: Seq([StoredEntry { entry: Entry { \
              number: Number(3), parent: Number(0), name: Name([108]), body: Symlink { \
              target: Seq([47, 97]) } }, documents: Seq([]) }, StoredEntry { entry: Entry { \
              number: Number(4), parent: Number(3), name: Name([115]), body: Semantic { \
              query: Query { node: Not(Query { node: Term(Word(Name([107]))) }) }, \
              permanent: Seq([Number(5), Number(7)]), prohibited: Seq([Number(6)]) } }, \
              documents: Seq([]) }]) }",
        ),
        (
            b"\x02\x09\0\0\0\x01\0\0\0\x01\0\0\0\0\0\0\0\x01m\x05\x02sp\x02\0\0\0\x08\0\0\0\x01\
              a\x07\0\0\0\x01b\x02\0\0\0\x01\x01\0k\x01\0\0\0\x07\0\0\0\x02\x01\0k\0\0\0\0",
            "Snapshot { version: One, next: Number(9), entries: Seq([StoredEntry { entry: Entry { \
              number: Number(1), parent: Number(0), name: Name([109]), body: Mount { \
              space: Name([115, 112]), answers: Seq([Answer { term: Word(Name([107])), \
              documents: Seq([Number(7)]) }, Answer { term: Prefix(Name([107])), \
              documents: Seq([]) }]) } }, documents: Seq([Document { number: Number(8), \
              name: Name([97]) }, Document { number: Number(7), name: Name([98]) }]) }]) }",
        ),
    ];
    for (bytes, told) in rows {
        expect_state(&rt, alloc, bytes, told)?;
    }
    Ok(())
}

#[test]
fn states_of_version_two_are_read_and_written(rt: HostRuntime) -> Result<(), Fail> {
    let alloc = rt.alloc();
    let rows: [(&[u8], &str); 3] = [
        (
            b"\x03\x01\0\0\0\0\0\0\0\0\0\0\0",
            "Snapshot { version: Two, next: Number(1), entries: Seq([]) }",
        ),
        (
            b"\x03\xff\xff\xff\xff\xff\xff\xff\x3f\x01\0\0\0\x01\0\0\0\0\0\0\0\0\0\0\0\0\0\0\0\x01\
              a\x02",
            "Snapshot { version: Two, next: Number(4611686018427387903), entries: Seq([StoredEntry \
              { entry: Entry { number: Number(1), parent: Number(0), name: Name([97]), body: Dir }, \
              documents: Seq([]) }]) }",
        ),
        (
            b"\x03\x09\0\0\0\0\0\0\0\x01\0\0\0\x01\0\0\0\0\0\0\0\0\0\0\0\0\0\0\0\x01m\x05\x02s\
              p\x01\0\0\0\x07\0\0\0\0\0\0\0\x01b\x01\0\0\0\x01\x01\0k\x01\0\0\0\x07\0\0\0\0\0\0\0",
            "Snapshot { version: Two, next: Number(9), entries: Seq([StoredEntry { entry: Entry { \
              number: Number(1), parent: Number(0), name: Name([109]), body: Mount { \
              space: Name([115, 112]), answers: Seq([Answer { term: Word(Name([107])), \
              documents: Seq([Number(7)]) }]) } }, documents: Seq([Document { number: Number(7), \
              name: Name([98]) }]) }]) }",
        ),
    ];
    for (bytes, told) in rows {
        expect_state(&rt, alloc, bytes, told)?;
    }
    Ok(())
}

/// The payload is read as what is shown so, and that is written as the payload.
fn expect_state(rt: &impl Abort, alloc: Global, bytes: &[u8], shown: &str) -> Result<(), Fail> {
    let snapshot = read_snapshot(alloc, bytes)?;
    let printed = format!(in alloc; "{snapshot:?}");
    let written = write_snapshot(alloc, &snapshot);
    drop(snapshot);
    assert_eq!(rt; printed?.as_str(), shown);
    assert_eq!(rt; written?.as_slice(), bytes);
    Ok(())
}

#[test]
fn faults_of_states_are_told_with_their_place(rt: HostRuntime) -> Result<(), Fail> {
    let alloc = rt.alloc();
    let rows: [(&[u8], u64); 17] = [
        // The payload and its kind: none, those of events, and a byte behind a state.
        (b"", 0),
        (b"\x01\x0f", 0),
        (b"\x04\x0f", 0),
        (b"\x02\x01\0\0\0\0\0\0\0\0", 9),
        (b"\x03\x01\0\0\0\0\0\0\0\0\0\0\0\0", 13),
        // Each kind with what follows the other one.
        (b"\x02\x01\0\0\0\0\0\0\0\0\0\0\0", 9),
        (b"\x03\x01\0\0\0\0\0\0\0", 9),
        // Numbers that no entry may have: the next one, and that of an entry.
        (b"\x03\0\0\0\0\0\0\0\x40\0\0\0\0", 1),
        (b"\x03\x02\0\0\0\0\0\0\0\x01\0\0\0\0\0\0\0\0\0\0\x40", 13),
        // A count that is cut short, and an entry of no kind.
        (b"\x02\x01\0\0\0\0\0\0", 5),
        (b"\x02\x02\0\0\0\x01\0\0\0\x01\0\0\0\0\0\0\0\x01a\x06", 19),
        // A second entry with the number of the first.
        (
            b"\x02\x02\0\0\0\x02\0\0\0\x01\0\0\0\0\0\0\0\x01a\x02\x01\0\0\0\0\0\0\0\x01b\x02",
            20,
        ),
        // A shown text that equals the text, spelled as one that differs.
        (
            b"\x02\x02\0\0\0\x01\0\0\0\x01\0\0\0\0\0\0\0\x01a\x01\0\x01\0\0\0x\x02\x01\0\0\0x",
            27,
        ),
        // A mount: too many documents in each version, a document twice, and terms that fall.
        (
            b"\x02\x02\0\0\0\x01\0\0\0\x01\0\0\0\0\0\0\0\x01m\x05\x01s\x11\x27\0\0",
            22,
        ),
        (
            b"\x03\x02\0\0\0\0\0\0\0\x01\0\0\0\x01\0\0\0\0\0\0\0\0\0\0\0\0\0\0\0\x01m\x05\x01s\x01\
              \0\x01\0",
            34,
        ),
        (
            b"\x02\x09\0\0\0\x01\0\0\0\x01\0\0\0\0\0\0\0\x01m\x05\x01s\x02\0\0\0\x02\0\0\0\x01a\
              \x03\0\0\0\x01a\0\0\0\0",
            36,
        ),
        (
            b"\x02\x09\0\0\0\x01\0\0\0\x01\0\0\0\0\0\0\0\x01m\x05\x01s\0\0\0\0\x02\0\0\0\x02\
              \x01\0k\0\0\0\0\x01\x01\0k\0\0\0\0",
            38,
        ),
    ];
    for (bytes, at) in rows {
        let fault = match read_snapshot(alloc, bytes) {
            Ok(_) => None,
            Err(fault) => Some(fault),
        };
        assert_eq!(rt; fault, Some(CodecFault::Bad { at }));
    }
    Ok(())
}
