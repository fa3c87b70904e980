//! Which bytes are a name, and which a part of a path word.
ghost use Rattle.std.specs.Prelude.{◌≡◌, ◌||◌, codes};
ghost use Rattle.std.specs.Str.{bytes_eq};
ghost use Rattle.hac_model.specs.Tree.Names as names;
ghost use Rattle.hac_model.specs.Script.PathWords as words;

use hac_model::NAME_LIMIT;

/// Whether bytes are a name: 1 to 255 of them, none a slash or a control byte, and not `.` or `..`.
pub fn is_name(bytes: &[u8]) -> bool
    ensures { result ≡ names.is_name bytes.now }
{
    !bytes.is_empty() && bytes.len() <= NAME_LIMIT && is_part(bytes) && !is_dots(bytes)
}

/// Whether bytes may be a part of a path word between slashes, their number aside.
pub(crate) fn is_part(bytes: &[u8]) -> bool
    ensures { result ≡ words.is_part bytes.now }
{
    bytes.iter().all(|b| is_name_byte(*b))
}

fn is_name_byte(b: u8) -> bool
    ensures { result ≡ names.is_name_byte b }
{
    b >= 32 && b != 127 && b != b'/'
}

/// Whether bytes are `.` or `..`.
fn is_dots(bytes: &[u8]) -> bool
    ensures { result ≡ bytes_eq bytes.now (codes ".") || bytes_eq bytes.now (codes "..") }
{
    bytes == b".".as_slice() || bytes == b"..".as_slice()
}
