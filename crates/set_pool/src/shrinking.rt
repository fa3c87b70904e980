//! Takes a number out of a tree. A block whose row would be empty takes the next row, or goes.
ghost use Rattle.std.specs.Prelude.{◌≡◌, ◌≢◌, [], ◌∷◌, ◌++◌, MatchOption};
ghost use Rattle.set_pool.specs.Rising.{Rises, is_among, removed};
ghost use Rattle.set_pool.specs.Rows.{members};
ghost use Rattle.set_pool.specs.Trees.{numbers_in};

use crate::rows::{Row, Side};
use crate::trees::{Block, Link, Tree};
use std::mem;

impl Tree {
    /// Whether `value` was there.
    #[cycle(remove)]
    pub fn remove(&mut self, value: u64) -> bool
        requires { Rises self.old }
        ensures list { self.new ≡ removed value self.old }
        ensures there { result ≡ is_among value self.old }
    {
        match &mut self.root {
            Link::Empty => false,
            Link::One(member) => {
                if value != *member {
                    return false;
                }
                self.root = Link::Empty;
                true
            }
            Link::Full(block) => {
                if !block.row.is_only(value) {
                    return block.remove(value);
                }
                if let Some(left) = block.drop_row() {
                    *self = left;
                }
                true
            }
        }
    }

    // Takes the row with the least numbers out.
    #[cycle(take_first_row)]
    fn take_first_row(&mut self) -> Option<Row>
        ensures { MatchOption result ((self.old ≡ []) × (self.new ≡ []))
            (λ row. self.old ≡ members row ++ self.new) }
    {
        match &mut self.root {
            Link::Empty => None,
            Link::One(member) => {
                let row = Row::new(*member);
                self.root = Link::Empty;
                Some(row)
            }
            Link::Full(block) => {
                if let Some(row) = block.take_left_row() {
                    return Some(row);
                }
                let (row, right) = block.take_apart();
                *self = right;
                Some(row)
            }
        }
    }
}

impl Block {
    #[cycle(remove)]
    fn remove(&mut self, value: u64) -> bool
        requires rising { Rises (numbers_in self.old) }
        requires stays { members self.old.row ≢ value ∷ [] }
        ensures list { numbers_in self.new ≡ removed value (numbers_in self.old) }
        ensures there { result ≡ is_among value (numbers_in self.old) }
    {
        match self.row.side(value) {
            Side::Before => self.remove_left(value),
            Side::Within => self.row.remove(value),
            Side::After => self.remove_right(value),
        }
    }

    #[cycle(remove)]
    fn remove_left(&mut self, value: u64) -> bool
        requires { Rises self.old.left }
        ensures list { numbers_in self.new
            ≡ removed value self.old.left ++ (members self.old.row ++ self.old.right) }
        ensures there { result ≡ is_among value self.old.left }
    {
        let old = self.left.height();
        let there = self.left.remove(value);
        let new = self.left.height();
        self.settle(old, new);
        there
    }

    #[cycle(remove)]
    fn remove_right(&mut self, value: u64) -> bool
        requires { Rises self.old.right }
        ensures list { numbers_in self.new
            ≡ self.old.left ++ (members self.old.row ++ removed value self.old.right) }
        ensures there { result ≡ is_among value self.old.right }
    {
        let old = self.right.height();
        let there = self.right.remove(value);
        let new = self.right.height();
        self.settle(old, new);
        there
    }

    // The block goes on without its row: with the next one, or by its left side alone, where
    // nothing is on the right.
    fn drop_row(&mut self) -> Option<Tree>
        ensures { MatchOption result (numbers_in self.new ≡ self.old.left ++ self.old.right)
            (λ left. left ≡ self.old.left ++ self.old.right) }
    {
        let old = self.right.height();
        match self.right.take_first_row() {
            Some(row) => {
                self.row = row;
                let new = self.right.height();
                self.settle(old, new);
                None
            }
            None => Some(mem::replace(&mut self.left, Tree::new())),
        }
    }

    #[cycle(take_first_row)]
    fn take_left_row(&mut self) -> Option<Row>
        ensures { MatchOption result
            ((self.new.left ≡ []) × (numbers_in self.new ≡ numbers_in self.old))
            (λ row. numbers_in self.old ≡ members row ++ numbers_in self.new) }
    {
        let old = self.left.height();
        let row = self.left.take_first_row()?;
        let new = self.left.height();
        self.settle(old, new);
        Some(row)
    }

    // The row and the right side, where nothing is on the left.
    fn take_apart(&mut self) -> (Row, Tree)
        requires { self.old.left ≡ [] }
        ensures { numbers_in self.old ≡ members result.0 ++ result.1 }
    {
        let row = mem::replace(&mut self.row, Row::new(0));
        let right = mem::replace(&mut self.right, Tree::new());
        (row, right)
    }
}
