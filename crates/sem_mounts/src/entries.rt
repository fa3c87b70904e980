//! Entries by their names, in a list.
ghost use Rattle.std.specs.Prelude.{◌≡◌, ◌++◌, ◌∷◌, [], IfOk, OnErr, OnOk};
ghost use Rattle.std.specs.Map.{lookup};
ghost use Rattle.std.specs.Option.{option_copied};
ghost use Rattle.std.specs.Str.{bytes_eq};

use hac_model::{Memory, Name};

/// What stands beside the first entry of this name.
pub(crate) fn find<'a, T>(entries: &'a [(Name, T)], name: &[u8]) -> Option<&'a T>
    ensures { option_copied result ≡ lookup (bytes_eq name.now) entries.now }
{
    for (key, value) in entries {
        if name == key.as_bytes() {
            return Some(value);
        }
    }
    None
}

/// A copy of a name.
pub(crate) fn copy_of(name: &Name) -> Result<Name, Memory>
    ensures { IfOk result (λ copy. copy ≡ name.now) }
{
    Ok(name.clone()?)
}

/// Puts a value behind the others. Where there is no memory, they are as before.
pub(crate) fn push<T: Drop>(list: &mut Vec<T>, value: T) -> Result<(), Memory>
    ensures ok { OnOk result (list.new.items ≡ list.old.items ++ value ∷ []) }
    ensures err { OnErr result (list.new.items ≡ list.old.items) }
{
    list.push(value)?;
    Ok(())
}
