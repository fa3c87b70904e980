//! A row: one to seven numbers that rise, in 64 bytes. It knows nothing of the sides beside it.
ghost use Rattle.std.specs.Prelude.{◌≡◌, ◌≢◌, ◌↔◌, [], ◌∷◌, ◌++◌, List, ℕ, IsTrue, MatchBool, ◌≤◌};
ghost use Rattle.std.specs.Prelude.{false, length, nat_lt};
ghost use Rattle.arrayvec.specs.ArrayVec.{array_vec_len};
ghost use Rattle.std.specs.List.{prefix_len};
ghost use Rattle.set_pool.specs.Rising.{Rises, first_from, inserted, is_among, removed};
ghost use Rattle.set_pool.specs.Rows.{HasRoom, IsFull, LiesAt, members};

use arrayvec::ArrayVec;
use std::mem;

/// A row always has a first number, so that no block of a tree is empty.
#[derive(Drop)]
pub struct Row {
    first: u64,
    rest: ArrayVec<u64, 6>,
}

/// Where a number lies, seen from a row.
#[derive(Clone, Copy)]
pub enum Side {
    Before,
    Within,
    After,
}

impl Row {
    pub fn new(first: u64) -> Row
        ensures { members result ≡ first ∷ [] }
    {
        Row {
            first,
            rest: ArrayVec::new(),
        }
    }

    pub fn first(&self) -> u64
        ensures { result ≡ self.now.first }
    {
        self.first
    }

    pub fn last(&self) -> u64
        ensures { (front : List ℕ) × (members self.now ≡ front ++ result ∷ []) }
    {
        match self.rest.as_slice().last() {
            Some(last) => *last,
            None => self.first,
        }
    }

    pub fn side(&self, value: u64) -> Side
        requires { Rises (members self.now) }
        ensures { LiesAt result value (members self.now) }
    {
        if value < self.first {
            Side::Before
        } else if self.last() < value {
            Side::After
        } else {
            Side::Within
        }
    }

    pub fn len(&self) -> u64
        ensures { result ≡ length (members self.now) }
    {
        self.rest.len() as u64 + 1
    }

    pub fn is_full(&self) -> bool
        ensures { MatchBool result (IsFull self.now) (HasRoom self.now) }
    {
        self.rest.is_full()
    }

    /// Whether `value` is the row's one number.
    pub fn is_only(&self, value: u64) -> bool
        ensures { IsTrue result ↔ (members self.now ≡ value ∷ []) }
    {
        self.first == value && self.rest.is_empty()
    }

    pub fn contains(&self, value: u64) -> bool
        ensures { result ≡ is_among value (members self.now) }
    {
        self.first == value || self.rest.as_slice().contains(&value)
    }

    pub fn first_from(&self, value: u64) -> Option<u64>
        ensures { result ≡ first_from value (members self.now) }
    {
        if value <= self.first {
            Some(self.first)
        } else {
            self.first_behind(value)
        }
    }

    fn first_behind(&self, value: u64) -> Option<u64>
        ensures { result ≡ first_from value self.now.rest.items }
    {
        self.rest
            .as_slice()
            .iter()
            .copied()
            .find(|member| value <= *member)
    }

    pub fn insert(&mut self, value: u64)
        requires rising { Rises (members self.old) }
        requires absent { is_among value (members self.old) ≡ false }
        requires room { HasRoom self.old }
        ensures { members self.new ≡ inserted value (members self.old) }
    {
        if value < self.first {
            let first = mem::replace(&mut self.first, value);
            self.rest.insert(0, first);
        } else {
            let place = self.count_below(value);
            self.rest.insert(place, value);
        }
    }

    // How many numbers behind the first are below `value`.
    fn count_below(&self, value: u64) -> usize
        ensures count { result ≡ prefix_len (λ member. nat_lt member value) self.now.rest.items }
        ensures within { result ≤ array_vec_len self.now.rest }
    {
        self.rest
            .as_slice()
            .iter()
            .take_while(|member| **member < value)
            .count()
    }

    /// Puts `value` into a full row, and gives the greatest number, which leaves it.
    pub fn exchange(&mut self, value: u64) -> u64
        requires rising { Rises (members self.old) }
        requires absent { is_among value (members self.old) ≡ false }
        requires full { IsFull self.old }
        ensures { (front : List ℕ) × (members self.old ≡ front ++ result ∷ [])
            × (members self.new ≡ inserted value front) }
    {
        let Some(greatest) = self.rest.pop() else {
            unreachable!()
        };
        self.insert(value);
        greatest
    }

    /// Takes `value` out, and answers whether it was there.
    pub fn remove(&mut self, value: u64) -> bool
        requires rising { Rises (members self.old) }
        requires stays { members self.old ≢ value ∷ [] }
        ensures list { members self.new ≡ removed value (members self.old) }
        ensures there { result ≡ is_among value (members self.old) }
    {
        if self.first == value {
            self.first = self.rest.remove(0);
            return true;
        }
        let there = self.rest.as_slice().contains(&value);
        self.remove_behind(value);
        there
    }

    fn remove_behind(&mut self, value: u64)
        ensures first { self.new.first ≡ self.old.first }
        ensures list { self.new.rest.items ≡ removed value self.old.rest.items }
    {
        self.rest.retain(|member| *member != value);
    }
}
