//! Numbers in order.
ghost use Rattle.std.specs.Prelude.{◌≡◌};
ghost use Rattle.hac_model.specs.Tree.Links.{has};
ghost use Rattle.hac_model.specs.Tree.Mounting.{do_rise_from};
ghost use Rattle.hac_model.specs.Tree.Valid.{RiseFrom};

use hac_model::Number;

/// Whether numbers rise, so that no two are the same. It takes the time of a comparison for each,
/// with the one behind it alone.
pub fn numbers_rise(numbers: &[Number]) -> bool
    ensures { result ≡ do_rise_from 0 numbers.now }
{
    for i in 1..numbers.len() {
        if numbers[i] <= numbers[i - 1] {
            return false;
        }
    }
    true
}

/// Whether a number is one of those that rise, by a binary search. Where they don't rise, the
/// answer says nothing.
pub fn has_number(numbers: &[Number], number: Number) -> bool
    ensures { RiseFrom 0 numbers.now → result ≡ has numbers.now number }
{
    numbers.binary_search(&number).is_ok()
}
