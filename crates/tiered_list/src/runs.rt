//! The full runs of a list. Each is a ring: one number comes in at an end and another goes out at
//! the other end by one write.
ghost use Rattle.std.specs.Prelude.{◌≡◌, ◌+◌, ◌<◌, ◌∷◌, ◌++◌, [], length, insert, remove};
ghost use Rattle.std.specs.Prelude.{slice_index};
ghost use Rattle.std.specs.List.{concat};
ghost use Rattle.tiered_list.specs.Runs.{AreFull};

use hac_model::Number;
use std::marker::Model;
use std::mem;

/// How many numbers a run has.
pub(crate) const RUN: usize = 512;

/// No list has more runs, so that its length is a number that fits.
pub(crate) const MOST_RUNS: usize = 1 << 32;

/// The numbers of a run.
#[derive(Debug, Drop)]
pub(crate) struct Run {
    // The numbers in a ring.
    ring: Vec<Number>,
    // Where the first of them is.
    head: usize,
}

impl Model for Run {
    ghost use Rattle.std.specs.Prelude.{ℕ, ◌-◌, ◌≤◌, List, length};
    ghost use Rattle.tiered_list.specs.Runs.{turned};

    ghost Value = { List ℕ };

    ghost view = { λ run. turned run.head run.ring.items };

    ghost invariant = { λ run. run.head ≤ length run.ring.items - 1 };
}

impl Run {
    /// These numbers.
    pub(crate) fn new(numbers: Vec<Number>) -> Run
        ensures { result ≡ numbers.items }
    {
        Run {
            ring: numbers,
            head: 0,
        }
    }

    /// The numbers, in order.
    pub(crate) fn into_vec(mut self) -> Vec<Number>
        ensures { result.items ≡ self }
    {
        self.ring.rotate_left(self.head);
        self.ring
    }

    /// The number at a place.
    pub(crate) fn at(&self, place: usize) -> Number
        requires { place < length self.now }
        ensures { result ≡ slice_index self.now place }
    {
        let behind = self.ring.len() - self.head;
        if place < behind {
            self.ring[self.head + place]
        } else {
            self.ring[place - behind]
        }
    }

    /// Puts a number in front of the first. The last one goes out.
    fn push_front(&mut self, number: Number) -> Number
        requires { 0 < length self.old }
        ensures numbers { self.new ++ result ∷ [] ≡ number ∷ self.old }
        ensures length { length self.new ≡ length self.old }
    {
        if self.head == 0 {
            self.head = self.ring.len();
        }
        self.head -= 1;
        mem::replace(&mut self.ring[self.head], number)
    }

    /// Puts a number behind the last. The first one goes out.
    fn push_back(&mut self, number: Number) -> Number
        requires { 0 < length self.old }
        ensures numbers { result ∷ self.new ≡ self.old ++ number ∷ [] }
        ensures length { length self.new ≡ length self.old }
    {
        let first = mem::replace(&mut self.ring[self.head], number);
        self.head += 1;
        if self.head == self.ring.len() {
            self.head = 0;
        }
        first
    }

    /// Inserts a number at a place. The last one goes out.
    fn insert(&mut self, place: usize, number: Number) -> Number
        requires { place < length self.old }
        ensures numbers { self.new ++ result ∷ [] ≡ insert self.old place number }
        ensures length { length self.new ≡ length self.old }
    {
        self.ring.rotate_left(self.head);
        self.head = 0;
        insert_in(&mut self.ring, place, number)
    }

    /// Removes the number at a place. Another one comes in behind the last.
    fn remove(&mut self, place: usize, number: Number)
        requires { place < length self.old }
        ensures numbers { self.new ≡ remove self.old place ++ number ∷ [] }
        ensures length { length self.new ≡ length self.old }
    {
        self.ring.rotate_left(self.head);
        self.head = 0;
        remove_in(&mut self.ring, place, number);
    }
}

/// Inserts a number at a place. The last one goes out.
fn insert_in(numbers: &mut [Number], place: usize, number: Number) -> Number
    requires { place < length numbers.old }
    ensures numbers { numbers.new ++ result ∷ [] ≡ insert numbers.old place number }
    ensures length { length numbers.new ≡ length numbers.old }
{
    numbers[place..].rotate_right(1);
    mem::replace(&mut numbers[place], number)
}

/// Removes the number at a place. Another one comes in behind the last.
fn remove_in(numbers: &mut [Number], place: usize, number: Number)
    requires { place < length numbers.old }
    ensures numbers { numbers.new ≡ remove numbers.old place ++ number ∷ [] }
    ensures length { length numbers.new ≡ length numbers.old }
{
    numbers[place] = number;
    numbers[place..].rotate_left(1);
}

/// Inserts a number at a place of the runs, one behind the other. The last number of each run from
/// there on goes to the front of the next one, and the last of all goes out.
pub(crate) fn insert_into(runs: &mut [Run], place: usize, number: Number) -> Number
    requires full { AreFull runs.old }
    requires place { place < length (concat runs.old) }
    ensures numbers { concat runs.new ++ result ∷ [] ≡ insert (concat runs.old) place number }
    ensures full { AreFull runs.new }
    ensures length { length runs.new ≡ length runs.old }
{
    let first = place / RUN;
    let mut carried = runs[first].insert(place % RUN, number);
    for next in first + 1..runs.len() {
        carried = runs[next].push_front(carried);
    }
    carried
}

/// Removes the number at a place of the runs, one behind the other. The first number of each run
/// behind that goes to the end of the one before it, and another one comes in behind the last.
pub(crate) fn remove_from(runs: &mut [Run], place: usize, number: Number)
    requires full { AreFull runs.old }
    requires place { place < length (concat runs.old) }
    ensures numbers { concat runs.new ≡ remove (concat runs.old) place ++ number ∷ [] }
    ensures full { AreFull runs.new }
    ensures length { length runs.new ≡ length runs.old }
{
    let first = place / RUN;
    let mut carried = number;
    let mut next = runs.len();
    while next > first + 1 {
        next -= 1;
        carried = runs[next].push_back(carried);
    }
    runs[first].remove(place % RUN, carried);
}
