//! Names in byte order.
ghost use Rattle.std.specs.Prelude.{◌≡◌, IsTrue};
ghost use Rattle.hac_model.specs.Tree.Listing.{is_before};
ghost use Rattle.hac_model.specs.Tree.Mounting.{do_names_rise, is_among};

use hac_model::Name;
use std::cmp::Ordering;

/// Whether one name comes before another. No name comes before itself, and a name comes before
/// those that it begins.
pub fn is_before(name: &[u8], other: &[u8]) -> bool
    ensures { result ≡ is_before name.now other.now }
{
    matches!(name.cmp(other), Ordering::Less)
}

/// Whether names rise, so that no two are the same. It takes the time of a comparison for each,
/// with the one behind it alone.
pub fn names_rise(names: &[Name]) -> bool
    ensures { result ≡ do_names_rise names.now }
{
    for i in 1..names.len() {
        if !is_before(names[i - 1].as_bytes(), names[i].as_bytes()) {
            return false;
        }
    }
    true
}

/// Whether a name is one of those that rise, by a binary search. Where they don't rise, the answer
/// says nothing.
pub fn has_name(names: &[Name], name: &Name) -> bool
    ensures { IsTrue (do_names_rise names.now) → result ≡ is_among names.now name.now }
{
    names.binary_search(name).is_ok()
}
