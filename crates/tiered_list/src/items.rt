//! The numbers of a list, to be read.
ghost use Rattle.std.specs.Prelude.{◌≡◌, ◌==◌, ◌<◌, ◌≤◌, length, slice_index};

use crate::runs::{RUN, Run};
use hac_model::Number;
use std::marker::Model;

/// Numbers in order, each read by its place. They are lent by a list.
#[derive(Drop)]
pub struct Items<'a> {
    // The full runs, one behind the other, and what is behind them.
    pub(crate) runs: &'a [Run],
    pub(crate) tail: &'a [Number],
}

impl<'a> Model for Items<'a> {
    ghost use Rattle.std.specs.Prelude.{ℕ, ◌≤◌, ◌^◌, ◌++◌, List, length};
    ghost use Rattle.std.specs.List.{concat};
    ghost use Rattle.tiered_list.specs.Runs.{AreFull, AreFew};

    ghost Value = { List ℕ };

    ghost view = { λ items. concat items.runs.now ++ items.tail.now };

    ghost invariant = { λ items. AreFull items.runs.now × AreFew items.runs.now };
}

impl<'a> Items<'a> {
    /// The numbers of a slice.
    pub fn from_slice(numbers: &'a [Number]) -> Items<'a>
        ensures { result ≡ numbers.now }
    {
        Items {
            runs: &[],
            tail: numbers,
        }
    }

    /// How many there are.
    pub fn len(&self) -> usize
        ensures { result ≡ length self.now }
    {
        self.runs.len() * RUN + self.tail.len()
    }

    /// Whether there are none.
    pub fn is_empty(&self) -> bool
        ensures { result ≡ (length self.now == 0) }
    {
        self.len() == 0
    }

    /// The number at a place.
    pub fn at(&self, place: usize) -> Number
        requires { place < length self.now }
        ensures { result ≡ slice_index self.now place }
    {
        let run = place / RUN;
        if run < self.runs.len() {
            self.runs[run].at(place % RUN)
        } else {
            number_at(self.tail, place - self.runs.len() * RUN)
        }
    }
}

/// The number at a place of a slice.
fn number_at(numbers: &[Number], place: usize) -> Number
    requires { place < length numbers.now }
    ensures { result ≡ slice_index numbers.now place }
{
    numbers[place]
}
