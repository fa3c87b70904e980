//! The words of small texts, and the terms that they have.
use crate::names::{expect_names, name};
use hac_model::Term;
use hac_words::{has_term, words_of};
use std::alloc::Global;
use std::process::Abort;
use std::test::Fail;

#[test]
fn lists_words(rt: HostRuntime) -> Result<(), Fail> {
    for (text, want) in [
        (b"".as_slice(), b"".as_slice()),
        (b" .,-\t\n", b""),
        (b"one", b"one "),
        (b"Zebra, ant; the ANT-zoo", b"ant the zebra zoo "),
        (b"(ants) an 9 10 4x4 Ant", b"10 4x4 9 an ant ants "),
        (b"a@b[c`d{e/f:g\x7fh\x80i", b"a b c d e f g h\x80i "),
        (
            b"\xc3\x89t\xc3\xa9 \xc3\xa9T\xc3\xa9",
            b"\xc3\x89t\xc3\xa9 \xc3\xa9t\xc3\xa9 ",
        ),
        (b"\xff~\x00\xff", b"\xff "),
    ] {
        expect_words(&rt, rt.alloc(), text, want)?;
    }
    Ok(())
}

/// The words of a text, each with a space behind it.
fn expect_words(rt: &impl Abort, alloc: Global, text: &[u8], want: &[u8]) -> Result<(), Fail> {
    let words = words_of(alloc, text)?;
    Ok(expect_names(rt, alloc, words.as_slice(), want)?)
}

#[test]
fn finds_words_and_prefixes(rt: HostRuntime) -> Result<(), Fail> {
    let text = b"The Anthill, 4x4 caf\xc3\xa9";
    for (letters, is_word, is_prefix) in [
        (b"the".as_slice(), true, true),
        (b"anthill", true, true),
        (b"ant", false, true),
        (b"hill", false, false),
        (b"Ant", false, false),
        (b"anthills", false, false),
        (b"the anthill", false, false),
        (b"4", false, true),
        (b"caf\xc3\xa9", true, true),
        (b"", false, true),
    ] {
        let word = Term::Word(name(rt.alloc(), letters)?);
        expect_term(&rt, text, &word, is_word);
        let prefix = Term::Prefix(name(rt.alloc(), letters)?);
        expect_term(&rt, text, &prefix, is_prefix);
    }
    Ok(())
}

/// Whether a text has a term, which one without words doesn't have.
fn expect_term(rt: &impl Abort, text: &[u8], term: &Term, wanted: bool) {
    assert_eq!(rt; has_term(text, term), wanted, "{term:?}");
    assert_eq!(rt; has_term(b", ;", term), false, "{term:?}");
}
