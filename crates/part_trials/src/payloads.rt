//! Payloads whose bytes were written by hand from the table of events.
use event_codec::{CodecFault, read_event, write_event};
use hac_model::Version;
use std::alloc::Global;
use std::process::Abort;
use std::test::Fail;

#[test]
fn events_are_read_and_written(rt: HostRuntime) -> Result<(), Fail> {
    let alloc = rt.alloc();
    let rows: [(&[u8], &str); 17] = [
        (
            b"\x01\x01\0\0\0\0\x01a",
            "Mkdir { dir: Number(0), name: Name([97]) }",
        ),
        (
            b"\x01\x02\x01\0\0\0\x01b\x02\0\0\0\n\xff",
            "NewFile { dir: Number(1), name: Name([98]), text: Seq([10, 255]) }",
        ),
        (
            b"\x01\x03\x04\x03\x02\x01\0\0\0\0",
            "Rewrite { file: Number(16909060), text: Seq([]) }",
        ),
        (
            b"\x01\x04\0\0\0\0\x01l\x05\0../.x",
            "Ln { dir: Number(0), name: Name([108]), target: Seq([46, 46, 47, 46, 120]) }",
        ),
        (
            b"\x01\x05\x01\0\0\0\x02\0\0\0\x01c",
            "Mv { entry: Number(1), dir: Number(2), name: Name([99]) }",
        ),
        (
            b"\x01\x06\xff\xff\xff\xff",
            "Rm { entry: Number(4294967295) }",
        ),
        (b"\x01\x07\x02\0\0\0", "Rmdir { dir: Number(2) }"),
        (
            b"\x01\x08\0\0\0\0\x01s\x01\x01\0k\0\0\0\0",
            "Smkdir { dir: Number(0), name: Name([115]), query: Query { node: Term(Word(Name([107]))) }, told: Seq([]) }",
        ),
        (
            b"\x01\x09\x03\0\0\0\x05\x04\x02\x01\0k\x03\x07\0\0\0\x02\0\0\0\x01\0\0\0\x08\0\0\0\0\0\0\0",
            "Setq { dir: Number(3), query: Query { node: And(Query { node: Not(Query { node: Term(Prefix(Name([107]))) }) }, Query { node: Dir(Number(7)) }) }, told: Seq([Seq([Number(8)]), Seq([])]) }",
        ),
        (
            b"\x01\x09\x03\0\0\0\x06\x03\0\0\0\0\x03\x01\0\0\0\0\0\0\0",
            "Setq { dir: Number(3), query: Query { node: Or(Query { node: Dir(Number(0)) }, Query { node: Dir(Number(1)) }) }, told: Seq([]) }",
        ),
        (b"\x01\x0a\x03\0\0\0", "Unq { dir: Number(3) }"),
        (
            b"\x01\x0b\x03\0\0\0\x09\0\0\0\x01",
            "Mark(Mark { dir: Number(3), item: Number(9), kind: Permanent })",
        ),
        (
            b"\x01\x0b\x03\0\0\0\x09\0\0\0\x02",
            "Mark(Mark { dir: Number(3), item: Number(9), kind: Prohibited })",
        ),
        (
            b"\x01\x0c\0\0\0\0\x01m\x03a_9\x02\0\0\0\x01x\x02xa\0\0\0\0",
            "Smount { dir: Number(0), name: Name([109]), space: Name([97, 95, 57]), docs: Seq([Name([120]), Name([120, 97])]), told: Seq([]) }",
        ),
        (
            b"\x01\x0d\x05\0\0\0\0\0\0\0\0\0\0\0",
            "Ssync { mount: Number(5), docs: Seq([]), told: Seq([]) }",
        ),
        (b"\x01\x0e\x05\0\0\0", "Sumount { mount: Number(5) }"),
        (b"\x01\x0f", "Step"),
    ];
    for (bytes, told) in rows {
        expect_event(&rt, alloc, Version::One, bytes, told)?;
    }
    Ok(())
}

#[test]
fn events_of_version_two_are_read_and_written(rt: HostRuntime) -> Result<(), Fail> {
    let alloc = rt.alloc();
    let rows: [(&[u8], &str); 8] = [
        (
            b"\x04\x01\0\0\0\0\0\0\0\0\x01a",
            "Mkdir { dir: Number(0), name: Name([97]) }",
        ),
        (
            b"\x04\x03\x08\x07\x06\x05\x04\x03\x02\x01\0\0\0\0",
            "Rewrite { file: Number(72623859790382856), text: Seq([]) }",
        ),
        (
            b"\x04\x05\x01\0\0\0\0\0\0\0\x02\0\0\0\0\0\0\0\x01c",
            "Mv { entry: Number(1), dir: Number(2), name: Name([99]) }",
        ),
        (
            b"\x04\x06\xff\xff\xff\xff\xff\xff\xff\x3f",
            "Rm { entry: Number(4611686018427387903) }",
        ),
        (
            b"\x04\x09\x03\0\0\0\0\0\0\0\x04\x03\x07\0\0\0\0\0\0\0\x02\0\0\0\x01\0\0\0\x08\0\0\0\0\0\0\0\0\0\0\0",
            "Setq { dir: Number(3), query: Query { node: Not(Query { node: Dir(Number(7)) }) }, told: Seq([Seq([Number(8)]), Seq([])]) }",
        ),
        (
            b"\x04\x0b\x03\0\0\0\0\0\0\0\x09\0\0\0\0\0\0\0\x01",
            "Mark(Mark { dir: Number(3), item: Number(9), kind: Permanent })",
        ),
        (
            b"\x04\x0d\x05\0\0\0\0\0\0\0\x01\0\0\0\x01x\0\0\0\0",
            "Ssync { mount: Number(5), docs: Seq([Name([120])]), told: Seq([]) }",
        ),
        (b"\x04\x0f", "Step"),
    ];
    for (bytes, told) in rows {
        expect_event(&rt, alloc, Version::Two, bytes, told)?;
    }
    Ok(())
}

/// The payload is read as the event that is shown so, and that event is written as the payload.
fn expect_event(
    rt: &impl Abort,
    alloc: Global,
    version: Version,
    bytes: &[u8],
    shown: &str,
) -> Result<(), Fail> {
    let event = read_event(alloc, version, bytes)?;
    let printed = format!(in alloc; "{event:?}");
    let written = write_event(alloc, version, &event);
    drop(event);
    assert_eq!(rt; printed?.as_str(), shown);
    assert_eq!(rt; written?.as_slice(), bytes);
    Ok(())
}

#[test]
fn faults_are_told_with_their_place(rt: HostRuntime) -> Result<(), Fail> {
    let alloc = rt.alloc();
    let rows: [(&[u8], u64); 36] = [
        // The payload and its kind: none, those of states and of an event of version Two, one of no
        // event, and a byte behind an event.
        (b"", 0),
        (b"\x02\x01\0\0\0\0\0\0\0", 0),
        (b"\x03\x01\0\0\0\0\0\0\0\0\0\0\0", 0),
        (b"\x04\x0f", 0),
        (b"\x04\x01\0\0\0\0\0\0\0\0\x01a", 0),
        (b"\x01", 1),
        (b"\x01\x10", 1),
        (b"\x01\0", 1),
        (b"\x01\x01\0\0\0\0\x01a\0", 8),
        (b"\x01\x0f\x0f", 2),
        // A number that is cut short, and one of eight bytes.
        (b"\x01\x06\x01\0\0", 2),
        (b"\x01\x06\x01\0\0\0\0\0\0\0", 6),
        (b"\x01\x05\x01\0\0\0\x02\0\0", 6),
        // Names: none, no name, one with a slash, one that is cut short.
        (b"\x01\x01\0\0\0\0\0", 6),
        (b"\x01\x01\0\0\0\0\x01.", 6),
        (b"\x01\x01\0\0\0\0\x03a/b", 6),
        (b"\x01\x01\0\0\0\0\x02a", 6),
        // Texts: one that is cut short, and one whose size is.
        (b"\x01\x03\0\0\0\0\x02\0\0\0a", 6),
        (b"\x01\x03\0\0\0\0\x02\0\0", 6),
        // Targets: none, and one with a control byte.
        (b"\x01\x04\0\0\0\0\x01l\0\0", 8),
        (b"\x01\x04\0\0\0\0\x01l\x01\0\n", 8),
        // Terms: none, one with a capital, one of two words, a kind of none.
        (b"\x01\x09\0\0\0\0\x01\0\0\0\0\0\0", 6),
        (b"\x01\x09\0\0\0\0\x04\x02\x01\0K\0\0\0\0", 7),
        (b"\x01\x09\0\0\0\0\x01\x03\0a b\0\0\0\0", 6),
        (b"\x01\x09\0\0\0\0\x05\x01\x01\0a\x07", 11),
        // A directory of a query whose number is cut short, and a query that is.
        (b"\x01\x09\0\0\0\0\x03\0\0\0", 7),
        (b"\x01\x09\0\0\0\0\x05\x01\x01\0a", 11),
        // Answers: numbers that don't rise, and too few of them.
        (
            b"\x01\x09\0\0\0\0\x01\x01\0a\x01\0\0\0\x02\0\0\0\x05\0\0\0\x05\0\0\0",
            22,
        ),
        (b"\x01\x09\0\0\0\0\x01\x01\0a\x02\0\0\0\0\0\0\0", 18),
        // A mark of no kind.
        (b"\x01\x0b\0\0\0\0\x01\0\0\0\x03", 10),
        // Spaces: none, one of a byte that none has, and one that is too long.
        (b"\x01\x0c\0\0\0\0\x01m\0", 8),
        (b"\x01\x0c\0\0\0\0\x01m\x01.", 8),
        (
            b"\x01\x0c\0\0\0\0\x01m\x21aaaaaaaaaaaaaaaaaaaaaaaaaaaaaaaaa\0\0\0\0\0\0\0\0",
            8,
        ),
        // Documents: too many, names that don't rise, and no name.
        (b"\x01\x0d\0\0\0\0\x11\x27\0\0", 6),
        (b"\x01\x0d\0\0\0\0\x02\0\0\0\x01b\x01a\0\0\0\0", 12),
        (b"\x01\x0d\0\0\0\0\x01\0\0\0\0\0\0\0\0", 10),
    ];
    for (bytes, at) in rows {
        assert_eq!(rt;
            fault(alloc, Version::One, bytes),
            Some(CodecFault::Bad { at }),
            "at {bytes:?}"
        );
    }
    Ok(())
}

#[test]
fn faults_of_version_two_are_told_with_their_place(rt: HostRuntime) -> Result<(), Fail> {
    let alloc = rt.alloc();
    let rows: [(&[u8], u64); 17] = [
        // The payload and its kind: none, those of an event of version One and of states, and a
        // byte behind an event.
        (b"", 0),
        (b"\x01\x0f", 0),
        (b"\x01\x01\0\0\0\0\0\0\0\0\x01a", 0),
        (b"\x02\x01\0\0\0\0\0\0\0", 0),
        (b"\x03\x01\0\0\0\0\0\0\0\0\0\0\0", 0),
        (b"\x04", 1),
        (b"\x04\x10", 1),
        (b"\x04\x0f\x0f", 2),
        // Numbers: one that is cut short, one of four bytes, one of nine, and ones that no entry
        // may have.
        (b"\x04\x06\x01\0\0\0\0\0\0", 2),
        (b"\x04\x06\x01\0\0\0", 2),
        (b"\x04\x06\x01\0\0\0\0\0\0\0\0", 10),
        (b"\x04\x06\0\0\0\0\0\0\0\x40", 2),
        (b"\x04\x05\x01\0\0\0\0\0\0\0\0\0\0\0\0\0\0\x40\x01c", 10),
        // A directory of a query that no entry may be.
        (
            b"\x04\x09\0\0\0\0\0\0\0\0\x03\0\0\0\0\0\0\0\x40\0\0\0\0",
            11,
        ),
        // Answers whose numbers don't rise.
        (
            b"\x04\x09\0\0\0\0\0\0\0\0\x01\x01\0a\x01\0\0\0\x02\0\0\0\x05\0\0\0\0\0\0\0\x05\0\0\0\0\0\0\0",
            30,
        ),
        // Documents: 65,537 of them are too many. 10,001 aren't, but the first is missing.
        (b"\x04\x0d\0\0\0\0\0\0\0\0\x01\0\x01\0", 10),
        (b"\x04\x0d\0\0\0\0\0\0\0\0\x11\x27\0\0", 14),
    ];
    for (bytes, at) in rows {
        assert_eq!(rt;
            fault(alloc, Version::Two, bytes),
            Some(CodecFault::Bad { at }),
            "at {bytes:?}"
        );
    }
    Ok(())
}

#[test]
fn limits_of_queries(rt: HostRuntime) -> Result<(), Fail> {
    let alloc = rt.alloc();
    let rows: [(&[(&[u8], usize)], Option<u64>); 7] = [
        // 64 terms, joined by 63 parts, and then 65.
        (
            &[(b"\x05", 63), (b"\x03\0\0\0\0", 64), (b"\0\0\0\0", 1)],
            None,
        ),
        (
            &[(b"\x06", 64), (b"\x03\0\0\0\0", 65)],
            Some(6 + 64 + 64 * 5),
        ),
        // 32 `NOT`s, and then 33.
        (&[(b"\x04", 32), (b"\x01\x01\0a\0\0\0\0", 1)], None),
        (&[(b"\x04", 33)], Some(6 + 32)),
        // 1,024 bytes of letters, and then one more.
        (
            &[
                (b"\x05\x01\xff\x01", 1),
                (b"a", 511),
                (b"\x02\x01\x02", 1),
                (b"a", 513),
                (b"\0\0\0\0", 1),
            ],
            None,
        ),
        (
            &[
                (b"\x05\x01\xff\x01", 1),
                (b"a", 511),
                (b"\x02\x02\x02", 1),
                (b"a", 514),
            ],
            Some(6 + 1 + 3 + 511),
        ),
        // A million `AND`s are read, and nothing behind them.
        (&[(b"\x05", 1_000_000)], Some(1_000_006)),
    ];
    for (parts, at) in rows {
        let wanted = match at {
            Some(at) => Some(CodecFault::Bad { at }),
            None => None,
        };
        assert_eq!(rt; fault_of_query(alloc, parts)?, wanted);
    }
    Ok(())
}

/// The fault of a payload that sets a query, given the parts behind the number of the directory,
/// each with how often it comes.
fn fault_of_query(alloc: Global, parts: &[(&[u8], usize)]) -> Result<Option<CodecFault>, Fail> {
    let mut bytes = b"\x01\x09\0\0\0\0".to_vec(alloc)?;
    for (part, count) in parts {
        repeat(&mut bytes, part, *count)?;
    }
    Ok(fault(alloc, Version::One, bytes.as_slice()))
}

/// The fault of a payload, where it has one.
fn fault(alloc: Global, version: Version, bytes: &[u8]) -> Option<CodecFault> {
    match read_event(alloc, version, bytes) {
        Ok(_) => None,
        Err(fault) => Some(fault),
    }
}

/// Adds bytes, `count` times.
fn repeat(bytes: &mut Vec<u8>, more: &[u8], count: usize) -> Result<(), Fail> {
    for _ in 0..count {
        bytes.extend_from_slice(more)?;
    }
    Ok(())
}
