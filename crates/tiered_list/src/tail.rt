//! The end of a list, which is no full run yet. It keeps places for more.
ghost use Rattle.std.specs.Prelude.{◌≡◌, ◌+◌, ◌<◌, ◌≤◌, [], insert, length, max, remove, OnOk};

use hac_model::{Memory, Number};
use std::alloc::Global;
use std::marker::Model;

/// Numbers, with places for more.
#[derive(Debug, Drop)]
pub(crate) struct Tail {
    // The numbers, and behind them places for more.
    numbers: Vec<Number>,
    // How many numbers there are.
    count: usize,
}

impl Model for Tail {
    ghost use Rattle.tiered_list.specs.Listed.{Listed};

    ghost Value = { Listed };

    ghost use Rattle.tiered_list.specs.Counted.{counted, HasCount};

    ghost view = { counted };

    ghost invariant = { HasCount };
}

impl Tail {
    /// No numbers.
    pub(crate) fn new(alloc: Global) -> Tail
        ensures { result ≡ record { items = []; spare = 0 } }
    {
        Tail::from_vec(Vec::new(alloc))
    }

    /// These numbers, with no place for more.
    pub(crate) fn from_vec(numbers: Vec<Number>) -> Tail
        ensures { result ≡ record { items = numbers.items; spare = 0 } }
    {
        let count = numbers.len();
        Tail { numbers, count }
    }

    /// The numbers.
    pub(crate) fn into_vec(mut self) -> Vec<Number>
        ensures { result.items ≡ self.items }
    {
        self.numbers.truncate(self.count);
        self.numbers
    }

    /// The numbers.
    pub(crate) fn as_slice(&self) -> &[Number]
        ensures { result.now ≡ self.now.items }
    {
        &self.numbers[..self.count]
    }

    /// How many numbers there are.
    pub(crate) fn len(&self) -> usize
        ensures { result ≡ length self.now.items }
    {
        self.count
    }

    /// Makes a place for one more, unless there is one.
    pub(crate) fn reserve(&mut self) -> Result<(), Memory>
        ensures items { self.new.items ≡ self.old.items }
        ensures place { OnOk result (0 < self.new.spare) }
        ensures most { self.new.spare ≤ max self.old.spare 1 }
    {
        if self.count == self.numbers.len() {
            self.numbers.push(Number::ROOT)?;
        }
        Ok(())
    }

    /// Inserts a number, which takes one of the places for more.
    pub(crate) fn insert(&mut self, place: usize, number: Number)
        requires spare { 0 < self.old.spare }
        requires place { place ≤ length self.old.items }
        ensures items { self.new.items ≡ insert self.old.items place number }
        ensures spare { self.new.spare + 1 ≡ self.old.spare }
    {
        self.numbers[self.count] = number;
        self.numbers[place..=self.count].rotate_right(1);
        self.count += 1;
    }

    /// Removes a number, which leaves a place for more.
    pub(crate) fn remove(&mut self, place: usize)
        requires { place < length self.old.items }
        ensures items { self.new.items ≡ remove self.old.items place }
        ensures spare { self.new.spare ≡ self.old.spare + 1 }
    {
        self.numbers[place..].rotate_left(1);
        self.count -= 1;
    }
}
