//! The list. All full runs have one length, so a place is found by a division; what is behind them
//! is the tail. Where a number comes in or goes out, each run behind it passes one on to the next:
//! a long list costs as many steps as it has runs, and one that is no longer than a run has none.
ghost use Rattle.std.specs.Prelude.{◌≡◌, ◌+◌, ◌<◌, ◌≤◌, ◌++◌, ◌⊎◌, [], OnOk};
ghost use Rattle.std.specs.Prelude.{insert, length, max, remove};
ghost use Rattle.std.specs.List.{concat};
ghost use Rattle.tiered_list.specs.Runs.{AreFew, AreFull};

use crate::items::Items;
use crate::runs::{MOST_RUNS, RUN, Run, insert_into, remove_from};
use crate::tail::Tail;
use hac_model::{Memory, Number};
use std::alloc::Global;
use std::marker::Model;
use std::mem;

/// A list of numbers, with places for more.
#[derive(Debug, Drop)]
pub struct TieredList {
    alloc: Global,
    // The full runs, one behind the other.
    runs: Vec<Run>,
    // What is behind them.
    tail: Tail,
}

impl Model for TieredList {
    ghost use Rattle.std.specs.Prelude.{◌++◌};
    ghost use Rattle.std.specs.List.{concat};
    ghost use Rattle.tiered_list.specs.Listed.{Listed};
    ghost use Rattle.tiered_list.specs.Runs.{AreFull, AreFew};

    ghost Value = { Listed };

    ghost view = { λ list. record {
      items = concat list.runs.items ++ list.tail.items;
      spare = list.tail.spare;
    } };

    ghost invariant = { λ list. AreFull list.runs.items × AreFew list.runs.items };
}

impl TieredList {
    /// No numbers.
    pub fn new(alloc: Global) -> TieredList
        ensures { result ≡ record { items = []; spare = 0 } }
    {
        TieredList::from_vec(alloc, Vec::new(alloc))
    }

    /// These numbers, with no place for more. A long list that is made so stays slow to change.
    pub fn from_vec(alloc: Global, numbers: Vec<Number>) -> TieredList
        ensures { result ≡ record { items = numbers.items; spare = 0 } }
    {
        TieredList {
            alloc,
            runs: Vec::new(alloc),
            tail: Tail::from_vec(numbers),
        }
    }

    /// The numbers, to be read.
    pub fn items(&self) -> Items<'_>
        ensures { result ≡ self.now.items }
    {
        Items {
            runs: self.runs.as_slice(),
            tail: self.tail.as_slice(),
        }
    }

    /// Makes a place for one more number, unless there is one. The numbers stay, whatever the
    /// answer.
    pub fn reserve(&mut self) -> Result<(), Memory>
        ensures items { self.new.items ≡ self.old.items }
        ensures place { OnOk result (0 < self.new.spare) }
        ensures most { self.new.spare ≤ max self.old.spare 1 }
    {
        close_full(self.alloc, &mut self.runs, &mut self.tail)?;
        self.tail.reserve()
    }

    /// Inserts a number at a place. It takes one of the places for more, and no memory.
    pub fn insert(&mut self, place: usize, number: Number)
        requires spare { 0 < self.old.spare }
        requires place { place ≤ length self.old.items }
        ensures items { self.new.items ≡ insert self.old.items place number }
        ensures spare { self.new.spare + 1 ≡ self.old.spare }
    {
        if place / RUN < self.runs.len() {
            let last = insert_into(&mut self.runs, place, number);
            self.tail.insert(0, last);
        } else {
            self.tail.insert(place - self.runs.len() * RUN, number);
        }
    }

    /// Removes the number at a place, which leaves a place for more.
    pub fn remove(&mut self, place: usize)
        requires { place < length self.old.items }
        ensures items { self.new.items ≡ remove self.old.items place }
        ensures spare { 0 < self.new.spare }
    {
        open_last(&mut self.runs, &mut self.tail);
        if place / RUN < self.runs.len() {
            let first = self.tail.as_slice()[0];
            self.tail.remove(0);
            remove_from(&mut self.runs, place, first);
        } else {
            self.tail.remove(place - self.runs.len() * RUN);
        }
    }
}

/// Makes a run of the tail, where it is as long as one.
fn close_full(alloc: Global, runs: &mut Vec<Run>, tail: &mut Tail) -> Result<(), Memory>
    requires full { AreFull runs.old.items }
    requires few { AreFew runs.old.items }
    ensures items { concat runs.new.items ++ tail.new.items
        ≡ concat runs.old.items ++ tail.old.items }
    ensures full { AreFull runs.new.items }
    ensures few { AreFew runs.new.items }
    ensures short { OnOk result (length tail.old.items ≤ RUN → length tail.new.items < RUN) }
    ensures spare { tail.new.spare ≤ tail.old.spare }
{
    if tail.len() != RUN {
        return Ok(());
    }
    if runs.len() >= MOST_RUNS {
        return Err(Memory);
    }
    let run = mem::replace(tail, Tail::new(alloc)).into_vec();
    match runs.push(Run::new(run)) {
        Ok(()) => Ok(()),
        Err(failed) => {
            *tail = Tail::from_vec(failed.value.into_vec());
            Err(Memory)
        }
    }
}

/// Makes the last run the tail, where that is empty.
fn open_last(runs: &mut Vec<Run>, tail: &mut Tail)
    requires full { AreFull runs.old.items }
    requires few { AreFew runs.old.items }
    ensures items { concat runs.new.items ++ tail.new.items
        ≡ concat runs.old.items ++ tail.old.items }
    ensures full { AreFull runs.new.items }
    ensures few { AreFew runs.new.items }
    ensures there { runs.new.items ≡ [] ⊎ 0 < length tail.new.items }
{
    if tail.len() > 0 {
        return;
    }
    if let Some(run) = runs.pop() {
        *tail = Tail::from_vec(run.into_vec());
    }
}
