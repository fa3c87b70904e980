//! The lasting numbers by which entries are known.
ghost use Rattle.std.specs.Prelude.{◌≡◌};

use std::marker::Model;

/// The number of an entry. The root has 0, and no number is used again.
#[derive(Clone, Copy, Debug, PartialEq, Eq, PartialOrd, Ord, Hash)]
pub struct Number(u64);

impl Model for Number {
    ghost use Rattle.std.specs.Prelude.{ℕ};

    ghost Value = { ℕ };

    ghost view = { λ n. n.0 };

    ghost inverse = { λ n. record { 0 = n } };
}

impl Number {
    /// The root.
    pub const ROOT: Number = Number(0);

    /// The number of this value.
    pub fn new(number: u64) -> Number
        ensures { result ≡ number }
    {
        Number(number)
    }

    /// The value of the number.
    pub fn get(self) -> u64
        ensures { result ≡ self }
    {
        self.0
    }
}
