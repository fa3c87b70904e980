//! Puts a number into a tree. Where a block is needed, one is taken from those that were set aside.
ghost use Rattle.std.specs.Prelude.{◌≡◌, ◌≢◌, ◌+◌, ◌<◌, ◌≤◌, ◌↔◌, [], ◌∷◌, ◌++◌, IsTrue, not};
ghost use Rattle.std.specs.Prelude.{vec_len, MatchOption};
ghost use Rattle.set_pool.specs.Rising.{Rises, inserted, is_among};
ghost use Rattle.set_pool.specs.Rows.{LiesAt, members};
ghost use Rattle.set_pool.specs.Trees.{TakesOneAtMost, numbers_in};

use crate::rows::{Row, Side};
use crate::trees::{Block, Link, Tree};
use std::mem;

impl Tree {
    /// Whether `value` was new. At most one block is taken.
    #[cycle(insert)]
    pub fn insert(&mut self, value: u64, blocks: &mut Vec<Box<Block>>) -> bool
        requires rising { Rises self.old }
        requires room { 0 < vec_len blocks.old }
        ensures list { self.new ≡ inserted value self.old }
        ensures fresh { result ≡ not (is_among value self.old) }
        ensures blocks { TakesOneAtMost (vec_len blocks.old) (vec_len blocks.new) }
    {
        match &mut self.root {
            Link::Empty => {
                self.root = Link::One(value);
                true
            }
            Link::One(member) => {
                let member = *member;
                if value == member {
                    return false;
                }
                self.root = Link::Full(pair(member, value, blocks));
                true
            }
            Link::Full(block) => block.insert(value, blocks),
        }
    }

    /// Whether it is one full row, all below `value`. Nothing rests on the answer but how quick the
    /// next call is.
    pub fn is_full_below(&self, value: u64) -> bool {
        match &self.root {
            Link::Full(block) => {
                block.height == 1 && block.row.is_full() && block.row.last() < value
            }
            _ => false,
        }
    }

    /// Puts the numbers of another tree behind its own, or gives it back if that isn't a block with
    /// nothing on its left.
    pub fn append(&mut self, last: Tree) -> Option<Tree>
        ensures { MatchOption result (self.new ≡ self.old ++ last)
            (λ back. (self.new ≡ self.old) × (back ≡ last)) }
    {
        match last.root {
            Link::Full(block) => self.append_bare(block),
            other => Some(Tree { root: other }),
        }
    }

    fn append_bare(&mut self, last: Box<Block>) -> Option<Tree>
        ensures { MatchOption result (self.new ≡ self.old ++ numbers_in last.value)
            (λ back. (self.new ≡ self.old) × (back ≡ numbers_in last.value)) }
    {
        if last.left.is_empty() {
            self.append_block(last);
            None
        } else {
            Some(Tree {
                root: Link::Full(last),
            })
        }
    }

    #[cycle(append_block)]
    fn append_block(&mut self, last: Box<Block>)
        requires { last.value.left ≡ [] }
        ensures { self.new ≡ self.old ++ numbers_in last.value }
    {
        match &mut self.root {
            Link::Full(block) => block.append_block(last),
            _ => self.go_left_of(last),
        }
    }

    // It becomes the left side of a block.
    fn go_left_of(&mut self, mut block: Box<Block>)
        requires { block.value.left ≡ [] }
        ensures { self.new ≡ self.old ++ numbers_in block.value }
    {
        block.left = mem::replace(self, Tree::new());
        block.measure();
        self.root = Link::Full(block);
    }

    pub fn is_empty(&self) -> bool
        ensures { IsTrue result ↔ (self.now ≡ []) }
    {
        match &self.root {
            Link::Empty => true,
            Link::One(_) => false,
            Link::Full(_) => false,
        }
    }
}

// A block that was set aside, with two numbers.
fn pair(one: u64, other: u64, blocks: &mut Vec<Box<Block>>) -> Box<Block>
    requires differ { one ≢ other }
    requires room { 0 < vec_len blocks.old }
    ensures list { numbers_in result.value ≡ inserted other (one ∷ []) }
    ensures blocks { vec_len blocks.old ≡ vec_len blocks.new + 1 }
{
    let Some(mut block) = blocks.pop() else {
        unreachable!()
    };
    let mut row = Row::new(one);
    row.insert(other);
    *block = Block::new(row);
    block
}

impl Block {
    #[cycle(insert)]
    fn insert(&mut self, value: u64, blocks: &mut Vec<Box<Block>>) -> bool
        requires rising { Rises (numbers_in self.old) }
        requires room { 0 < vec_len blocks.old }
        ensures list { numbers_in self.new ≡ inserted value (numbers_in self.old) }
        ensures fresh { result ≡ not (is_among value (numbers_in self.old)) }
        ensures blocks { TakesOneAtMost (vec_len blocks.old) (vec_len blocks.new) }
    {
        match self.row.side(value) {
            Side::Before => self.place_before(value, blocks),
            Side::Within => self.place_within(value, blocks),
            Side::After => self.place_after(value, blocks),
        }
    }

    #[cycle(insert)]
    fn place_before(&mut self, value: u64, blocks: &mut Vec<Box<Block>>) -> bool
        requires rising { Rises (numbers_in self.old) }
        requires before { LiesAt Side.Before value (members self.old.row) }
        requires room { 0 < vec_len blocks.old }
        ensures list { numbers_in self.new ≡ inserted value (numbers_in self.old) }
        ensures fresh { result ≡ not (is_among value (numbers_in self.old)) }
        ensures blocks { TakesOneAtMost (vec_len blocks.old) (vec_len blocks.new) }
    {
        if self.left.is_empty() && !self.row.is_full() {
            self.row.insert(value);
            return true;
        }
        self.insert_left(value, blocks)
    }

    #[cycle(insert)]
    fn place_after(&mut self, value: u64, blocks: &mut Vec<Box<Block>>) -> bool
        requires rising { Rises (numbers_in self.old) }
        requires after { LiesAt Side.After value (members self.old.row) }
        requires room { 0 < vec_len blocks.old }
        ensures list { numbers_in self.new ≡ inserted value (numbers_in self.old) }
        ensures fresh { result ≡ not (is_among value (numbers_in self.old)) }
        ensures blocks { TakesOneAtMost (vec_len blocks.old) (vec_len blocks.new) }
    {
        if self.right.is_empty() && !self.row.is_full() {
            self.row.insert(value);
            return true;
        }
        self.insert_right(value, blocks)
    }

    #[cycle(append_block)]
    fn append_block(&mut self, last: Box<Block>)
        requires { last.value.left ≡ [] }
        ensures { numbers_in self.new ≡ numbers_in self.old ++ numbers_in last.value }
    {
        let old = self.right.height();
        self.right.append_block(last);
        let new = self.right.height();
        self.settle(old, new);
    }

    // A full row passes its greatest number to the right.
    #[cycle(insert)]
    fn place_within(&mut self, value: u64, blocks: &mut Vec<Box<Block>>) -> bool
        requires rising { Rises (numbers_in self.old) }
        requires within { LiesAt Side.Within value (members self.old.row) }
        requires room { 0 < vec_len blocks.old }
        ensures list { numbers_in self.new ≡ inserted value (numbers_in self.old) }
        ensures fresh { result ≡ not (is_among value (numbers_in self.old)) }
        ensures blocks { TakesOneAtMost (vec_len blocks.old) (vec_len blocks.new) }
    {
        if self.row.contains(value) {
            return false;
        }
        if !self.row.is_full() {
            self.row.insert(value);
            return true;
        }
        let greatest = self.row.exchange(value);
        self.insert_right(greatest, blocks)
    }

    #[cycle(insert)]
    fn insert_left(&mut self, value: u64, blocks: &mut Vec<Box<Block>>) -> bool
        requires rising { Rises self.old.left }
        requires room { 0 < vec_len blocks.old }
        ensures list { numbers_in self.new
            ≡ inserted value self.old.left ++ (members self.old.row ++ self.old.right) }
        ensures fresh { result ≡ not (is_among value self.old.left) }
        ensures blocks { TakesOneAtMost (vec_len blocks.old) (vec_len blocks.new) }
    {
        let old = self.left.height();
        let fresh = self.left.insert(value, blocks);
        let new = self.left.height();
        self.settle(old, new);
        fresh
    }

    #[cycle(insert)]
    fn insert_right(&mut self, value: u64, blocks: &mut Vec<Box<Block>>) -> bool
        requires rising { Rises self.old.right }
        requires room { 0 < vec_len blocks.old }
        ensures list { numbers_in self.new
            ≡ self.old.left ++ (members self.old.row ++ inserted value self.old.right) }
        ensures fresh { result ≡ not (is_among value self.old.right) }
        ensures blocks { TakesOneAtMost (vec_len blocks.old) (vec_len blocks.new) }
    {
        let old = self.right.height();
        let fresh = self.right.insert(value, blocks);
        let new = self.right.height();
        self.settle(old, new);
        fresh
    }
}
