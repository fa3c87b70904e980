//! A set as a search tree of rows. Each block owns its two sides, so no block is in two sets. A
//! tree knows nothing of its pool.
ghost use Rattle.std.specs.Prelude.{◌≡◌, ◌+◌, ◌^◌, ◌<◌, ◌≤◌, [], ◌∷◌, ◌++◌, length};
ghost use Rattle.set_pool.specs.Rising.{Rises, first_from, is_among};
ghost use Rattle.set_pool.specs.Rows.{members};
ghost use Rattle.set_pool.specs.Trees.{numbers_in};

use crate::rows::{Row, Side};
use std::marker::Model;

/// A set of numbers, or one side of a block.
#[cycle(tree)]
#[derive(Drop)]
pub struct Tree {
    pub(crate) root: Link,
}

#[cycle(tree)]
#[derive(Drop)]
pub enum Link {
    Empty,
    /// A lone number takes no block.
    One(u64),
    Full(Box<Block>),
}

/// A row, and beside it what is below and what is above all its numbers. The height counts the
/// levels of blocks from this one down.
#[cycle(tree)]
#[derive(Drop)]
pub struct Block {
    pub(crate) left: Tree,
    pub(crate) row: Row,
    pub(crate) height: u8,
    pub(crate) right: Tree,
}

impl Model for Tree {
    ghost use Rattle.std.specs.Prelude.{List, ℕ, length};

    ghost Value = { List ℕ };

    ghost use Rattle.set_pool.specs.Trees.{numbers_of};

    ghost view = { λ tree. numbers_of tree.root };

    ghost size = { length };

    ghost use Rattle.set_pool.specs.TreeSizes.{sides_shorter};

    ghost size_decreases = { λ tree h. sides_shorter tree.root };
}

impl Tree {
    pub fn new() -> Tree
        ensures { result ≡ [] }
    {
        Tree { root: Link::Empty }
    }

    #[cycle(contains)]
    pub fn contains(&self, value: u64) -> bool
        requires { Rises self.now }
        ensures { result ≡ is_among value self.now }
    {
        match &self.root {
            Link::Empty => false,
            Link::One(member) => value == *member,
            Link::Full(block) => block.contains(value),
        }
    }

    #[cycle(first_from)]
    pub fn first_from(&self, value: u64) -> Option<u64>
        requires { Rises self.now }
        ensures { result ≡ first_from value self.now }
    {
        match &self.root {
            Link::Empty => None,
            Link::One(member) => {
                if value <= *member {
                    Some(*member)
                } else {
                    None
                }
            }
            Link::Full(block) => block.first_from(value),
        }
    }

    #[cycle(len)]
    pub fn len(&self) -> u64
        requires { length self.now < 2 ^ 64 }
        ensures { result ≡ length self.now }
    {
        match &self.root {
            Link::Empty => 0,
            Link::One(_) => 1,
            Link::Full(block) => block.len(),
        }
    }
}

impl Block {
    pub fn new(row: Row) -> Block
        ensures { numbers_in result ≡ members row }
    {
        Block {
            left: Tree::new(),
            row,
            height: 1,
            right: Tree::new(),
        }
    }

    #[cycle(contains)]
    fn contains(&self, value: u64) -> bool
        requires { Rises (numbers_in self.now) }
        ensures { result ≡ is_among value (numbers_in self.now) }
    {
        match self.row.side(value) {
            Side::Before => self.left.contains(value),
            Side::Within => self.row.contains(value),
            Side::After => self.right.contains(value),
        }
    }

    #[cycle(first_from)]
    fn first_from(&self, value: u64) -> Option<u64>
        requires { Rises (numbers_in self.now) }
        ensures { result ≡ first_from value (numbers_in self.now) }
    {
        match self.row.side(value) {
            Side::Before => self.left.first_from(value).or(Some(self.row.first())),
            Side::Within => self.row.first_from(value),
            Side::After => self.right.first_from(value),
        }
    }

    #[cycle(len)]
    fn len(&self) -> u64
        requires { length (numbers_in self.now) < 2 ^ 64 }
        ensures { result ≡ length (numbers_in self.now) }
    {
        self.left.len() + self.row.len() + self.right.len()
    }
}
