//! Texts as the bytes of a catalogue spell them.
ghost use Rattle.std.specs.Prelude.{◌≡◌, IfOk};
ghost use Rattle.std.specs.Option.{option_map};
ghost use Rattle.hac_model.specs.Script.Texts.{text_of};

use bstr::ByteSlice;
use hac_model::Memory;
use hac_names::parse_text;
use std::alloc::Global;

/// The text that bytes spell, or none where an escape in them is bad. It takes no more memory than
/// the text has bytes. Bytes without an escape are copied at once.
pub(crate) fn spelled_text(alloc: Global, bytes: &[u8]) -> Result<Option<Vec<u8>>, Memory>
    ensures { IfOk result (λ text. text_of bytes.now ≡ option_map (λ text. text.items) text) }
{
    match bytes.find_byte(b'\\') {
        Some(_) => escaped_text(alloc, bytes),
        None => Ok(Some(Vec::from_slice(alloc, bytes)?)),
    }
}

// The same of bytes that may have escapes.
fn escaped_text(alloc: Global, bytes: &[u8]) -> Result<Option<Vec<u8>>, Memory>
    ensures { IfOk result (λ text. text_of bytes.now ≡ option_map (λ text. text.items) text) }
{
    match parse_text(alloc, bytes)? {
        Some(text) => Ok(Some(Vec::from_slice(alloc, &text)?)),
        None => Ok(None),
    }
}
