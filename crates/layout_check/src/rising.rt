//! Whether numbers rise.
ghost use Rattle.std.specs.Prelude.{◌≡◌};
ghost use Rattle.hac_model.specs.Tree.ValidTest.{do_numbers_rise};

use hac_model::{Entry, Number};

/// Whether the numbers of entries rise, above that of the root and below the next one.
pub(crate) fn do_numbers_rise(entries: &[Entry], next: Number) -> bool
    ensures { result ≡ do_numbers_rise 0 entries.now next }
{
    let mut above = Number::ROOT;
    for entry in entries {
        if entry.number <= above {
            return false;
        }
        above = entry.number;
    }
    above < next
}
