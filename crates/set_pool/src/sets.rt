//! A set: a tree, and behind it a second one for the numbers that came last. Numbers that come in
//! order fill a row there, and only a full row goes down the first tree. It knows nothing of its
//! pool.
ghost use Rattle.std.specs.Prelude.{◌≡◌, ◌<◌, ◌^◌, ◌++◌, [], false, length, not, vec_len, IsTrue};
ghost use Rattle.set_pool.specs.Rising.{AllAbove, AllBelow, Rises, first_from, inserted};
ghost use Rattle.set_pool.specs.Rising.{is_among, removed};
ghost use Rattle.set_pool.specs.Trees.{TakesOneAtMost};

use crate::trees::{Block, Tree};
use std::marker::Model;
use std::mem;

#[derive(Drop)]
pub struct Set {
    pub(crate) low: Tree,
    // All its numbers are above those of the other.
    pub(crate) high: Tree,
}

impl Model for Set {
    ghost use Rattle.std.specs.Prelude.{ℕ, List, ◌++◌};

    ghost Value = { List ℕ };

    ghost view = { λ set. set.low ++ set.high };
}

impl Set {
    pub fn new() -> Set
        ensures { result ≡ [] }
    {
        Set {
            low: Tree::new(),
            high: Tree::new(),
        }
    }

    pub fn contains(&self, value: u64) -> bool
        requires { Rises self.now }
        ensures { result ≡ is_among value self.now }
    {
        self.low.contains(value) || self.high.contains(value)
    }

    pub fn first_from(&self, value: u64) -> Option<u64>
        requires { Rises self.now }
        ensures { result ≡ first_from value self.now }
    {
        self.low.first_from(value).or(self.high.first_from(value))
    }

    pub fn len(&self) -> u64
        requires { length self.now < 2 ^ 64 }
        ensures { result ≡ length self.now }
    {
        self.low.len() + self.high.len()
    }

    /// Whether `value` was new. At most one block is taken.
    pub fn insert(&mut self, value: u64, blocks: &mut Vec<Box<Block>>) -> bool
        requires rising { Rises self.old }
        requires room { 0 < vec_len blocks.old }
        ensures list { self.new ≡ inserted value self.old }
        ensures fresh { result ≡ not (is_among value self.old) }
        ensures blocks { TakesOneAtMost (vec_len blocks.old) (vec_len blocks.new) }
    {
        if self.high.is_full_below(value) {
            self.close();
        }
        self.put(value, blocks)
    }

    // Puts `value` into the tree where it belongs.
    fn put(&mut self, value: u64, blocks: &mut Vec<Box<Block>>) -> bool
        requires rising { Rises self.old }
        requires room { 0 < vec_len blocks.old }
        ensures list { self.new ≡ inserted value self.old }
        ensures fresh { result ≡ not (is_among value self.old) }
        ensures blocks { TakesOneAtMost (vec_len blocks.old) (vec_len blocks.new) }
    {
        if comes_behind(&self.low, &self.high, value) {
            self.high.insert(value, blocks)
        } else {
            self.low.insert(value, blocks)
        }
    }

    /// Whether `value` was there.
    pub fn remove(&mut self, value: u64) -> bool
        requires { Rises self.old }
        ensures list { self.new ≡ removed value self.old }
        ensures there { result ≡ is_among value self.old }
    {
        let low = self.low.remove(value);
        let high = self.high.remove(value);
        low || high
    }

    // Puts the numbers that came last behind the others, if they are a row alone.
    fn close(&mut self)
        ensures { self.new ≡ self.old }
    {
        let last = mem::replace(&mut self.high, Tree::new());
        if let Some(last) = self.low.append(last) {
            self.high = last;
        }
    }
}

// Whether `value` is above all numbers of the first tree. If it isn't, it is below all of the
// second.
fn comes_behind(low: &Tree, high: &Tree, value: u64) -> bool
    requires { Rises (low.now ++ high.now) }
    ensures above { IsTrue result → AllBelow value low.now }
    ensures below { result ≡ false → AllAbove value high.now }
{
    match high.first_from(0) {
        Some(first) => first <= value,
        None => low.first_from(value).is_none(),
    }
}
