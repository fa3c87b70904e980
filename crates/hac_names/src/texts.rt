//! Texts as they are printed, and as they are read where a command spells one. What a text says is
//! not known here.
ghost use Rattle.std.specs.Prelude.{◌≡◌, ◌++◌, ◌<◌, ◌&&◌, ◌+◌, ◌*◌, length, is_some, IfSome, IfOk};
ghost use Rattle.std.specs.Prelude.{OnOk};
ghost use Rattle.std.specs.Char.{digit_char, digit_value, is_digit};
ghost use Rattle.std.specs.Option.{option_map};
ghost use Rattle.hac_model.specs.Script.Texts.{escape_meaning, escape_of, escaped_text, hex_of};
ghost use Rattle.hac_model.specs.Script.Texts.{hex_byte, escaped_byte, text_of};
ghost use Rattle.hac_names.specs.Spelling.{SpellsFirst};

use hac_model::Memory;
use std::alloc::Global;

/// A text as it is printed, on one line: line ends, tabs, backslashes and other control bytes are
/// escaped.
pub fn print_text(alloc: Global, text: &[u8]) -> Result<Vec<u8>, Memory>
    ensures { IfOk result (λ printed. printed.items ≡ escaped_text text.now) }
{
    let mut printed = Vec::new(alloc);
    for byte in text {
        push_byte(&mut printed, *byte)?;
    }
    Ok(printed)
}

/// Adds a byte as it is printed.
#[tactic(auto, unfolding(hac_model::specs::Script::Texts::escaped_byte))]
fn push_byte(printed: &mut Vec<u8>, byte: u8) -> Result<(), Memory>
    ensures { OnOk result (printed.new.items ≡ printed.old.items ++ escaped_byte byte) }
{
    match byte {
        b'\n' => printed.extend_from_slice(b"\\n")?,
        b'\t' => printed.extend_from_slice(b"\\t")?,
        b'\\' => printed.extend_from_slice(b"\\\\")?,
        0..=31 | 127 => printed.extend_from_slice(&[
            b'\\',
            b'x',
            digit(byte / 16),
            digit(byte % 16),
        ])?,
        _ => printed.push(byte)?,
    }
    Ok(())
}

/// The byte of a hexadecimal digit, in lower case.
fn digit(value: u8) -> u8
    requires { value < 16 }
    ensures { result ≡ digit_char value }
{
    if value < 10 {
        b'0' + value
    } else {
        b'a' + (value - 10)
    }
}

/// The text that bytes spell, or none where an escape in them is bad.
pub fn parse_text(alloc: Global, bytes: &[u8]) -> Result<Option<Vec<u8>>, Memory>
    ensures { IfOk result (λ text. text_of bytes.now ≡ option_map (λ text. text.items) text) }
{
    let mut text = Vec::new(alloc);
    let mut rest = bytes;
    while !rest.is_empty() {
        let Some((byte, behind)) = first_byte(rest) else {
            return Ok(None);
        };
        text.push(byte)?;
        rest = behind;
    }
    Ok(Some(text))
}

/// The first byte that bytes spell, and what follows its spelling, or none where that is bad.
fn first_byte(bytes: &[u8]) -> Option<(u8, &[u8])>
    requires { 0 < length bytes.now }
    ensures { SpellsFirst text_of bytes.now result }
{
    match bytes {
        [b'\\', rest @ ..] => escaped_byte(rest),
        [byte, rest @ ..] => Some((*byte, rest)),
        [] => None,
    }
}

/// The same from behind a backslash on.
fn escaped_byte(bytes: &[u8]) -> Option<(u8, &[u8])>
    ensures { SpellsFirst escape_of bytes.now result }
{
    match bytes {
        [b'x', rest @ ..] => numbered_byte(rest),
        [letter, rest @ ..] => Some((escape_meaning(*letter)?, rest)),
        [] => None,
    }
}

/// The same from behind `\x` on.
fn numbered_byte(bytes: &[u8]) -> Option<(u8, &[u8])>
    ensures { SpellsFirst hex_of bytes.now result }
{
    match bytes {
        [high, low, rest @ ..] => Some((number(*high, *low)?, rest)),
        _ => None,
    }
}

/// What a byte means behind a backslash, where it is an escape alone.
fn escape_meaning(letter: u8) -> Option<u8>
    ensures { result ≡ escape_meaning letter }
{
    match letter {
        b'n' => Some(b'\n'),
        b't' => Some(b'\t'),
        b'\\' => Some(b'\\'),
        _ => None,
    }
}

/// The byte whose number two hexadecimal digits are, of either case.
fn number(high: u8, low: u8) -> Option<u8>
    ensures { result ≡ hex_byte high low }
{
    Some(digit_value(high)? * 16 + digit_value(low)?)
}

/// The value of a hexadecimal digit, of either case.
fn digit_value(digit: u8) -> Option<u8>
    ensures some { is_some result ≡ is_digit digit 16 }
    ensures value { IfSome result (λ value. value ≡ digit_value digit) }
{
    match digit {
        b'0'..=b'9' => Some(digit - b'0'),
        b'A'..=b'F' => Some(digit - b'A' + 10),
        b'a'..=b'f' => Some(digit - b'a' + 10),
        _ => None,
    }
}
