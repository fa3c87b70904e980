//! Lists of numbers.
ghost use Rattle.std.specs.Prelude.{◌≡◌, ℕ};
ghost use Rattle.hac_model.specs.Tree.Links.{has};
ghost use Rattle.hac_model.specs.Tree.Valid.{RiseFrom};

/// Brings numbers in order, each once.
pub(crate) fn put_in_order(numbers: &mut Vec<usize>)
    ensures rise { RiseFrom 0 numbers.new.items }
    ensures same { (n : ℕ) → has numbers.new.items n ≡ has numbers.old.items n }
{
    numbers.sort_unstable();
    numbers.dedup();
}

/// Whether a number is among some that are in order.
pub(crate) fn is_among(number: usize, numbers: &[usize]) -> bool
    requires { RiseFrom 0 numbers.now }
    ensures { result ≡ has numbers.now number }
{
    numbers.binary_search(&number).is_ok()
}
