//! Bytes in two parts, at a byte.
ghost use Rattle.std.specs.Prelude.{◌≡◌, ◌==◌};
ghost use Rattle.std.specs.Option.{option_map};
ghost use Rattle.hac_model.specs.Spaces.Catalogue.{split_once};

use bstr::ByteSlice;

/// The bytes before the first such byte and those behind it, or none where there is no such byte.
pub(crate) fn split_once(bytes: &[u8], byte: u8) -> Option<(&[u8], &[u8])>
    ensures { split_once (λ b. b == byte) bytes.now
        ≡ option_map (λ parts. (parts.0.now, parts.1.now)) result }
{
    let place = bytes.find_byte(byte)?;
    Some((&bytes[..place], &bytes[place + 1..]))
}
