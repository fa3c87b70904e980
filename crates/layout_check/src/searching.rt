//! Entries by number, found among entries whose numbers rise.
ghost use Rattle.std.specs.Prelude.{◌≡◌};
ghost use Rattle.std.specs.Option.{option_copied};
ghost use Rattle.hac_model.specs.Tree.{entry_at};
ghost use Rattle.layout_check.specs.Rising.{DoRise};

use hac_model::{Entry, Number};

/// The entry of a number. The root has none.
pub fn entry_at(entries: &[Entry], number: Number) -> Option<&Entry>
    requires { DoRise entries.now }
    ensures { option_copied result ≡ entry_at entries.now number }
{
    let place = entries.partition_point(|entry| entry.number.get() < number.get());
    let entry = entries.get(place)?;
    if entry.number == number {
        Some(entry)
    } else {
        None
    }
}
