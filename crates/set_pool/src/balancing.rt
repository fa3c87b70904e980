//! Keeps a tree balanced: no side of a block is more than one level higher than the other. No
//! contract speaks of heights; what is proved is that turning changes no number.
ghost use Rattle.std.specs.Prelude.{◌≡◌, ◌++◌};
ghost use Rattle.set_pool.specs.Rows.{members};
ghost use Rattle.set_pool.specs.Trees.{numbers_in};

use crate::rows::Row;
use crate::trees::{Block, Link, Tree};
use std::mem;

impl Tree {
    /// How many levels of blocks there are; a lone number counts as one.
    pub(crate) fn height(&self) -> u8 {
        match &self.root {
            Link::Empty => 0,
            Link::One(_) => 1,
            Link::Full(block) => block.height,
        }
    }
}

impl Block {
    /// To be called when a side has changed, with its height before and after.
    pub fn settle(&mut self, old: u8, new: u8)
        ensures { numbers_in self.new ≡ numbers_in self.old }
    {
        if old != new {
            self.rebalance();
        }
    }

    // No side is more than two levels higher than the other.
    fn rebalance(&mut self)
        ensures { numbers_in self.new ≡ numbers_in self.old }
    {
        let left = self.left.height();
        let right = self.right.height();
        if left > right.saturating_add(1) {
            self.lower_left();
        } else if right > left.saturating_add(1) {
            self.lower_right();
        } else {
            self.measure();
        }
    }

    pub(crate) fn measure(&mut self)
        ensures { numbers_in self.new ≡ numbers_in self.old }
    {
        self.height = self
            .left
            .height()
            .max(self.right.height())
            .saturating_add(1);
    }

    fn lower_left(&mut self)
        ensures { numbers_in self.new ≡ numbers_in self.old }
    {
        self.straighten_left();
        self.turn_right();
    }

    fn lower_right(&mut self)
        ensures { numbers_in self.new ≡ numbers_in self.old }
    {
        self.straighten_right();
        self.turn_left();
    }

    // Turns the left side where its inner side is the higher one.
    fn straighten_left(&mut self)
        ensures { numbers_in self.new ≡ numbers_in self.old }
    {
        if let Link::Full(block) = &mut self.left.root {
            block.turn_left_if_lower();
        }
    }

    fn straighten_right(&mut self)
        ensures { numbers_in self.new ≡ numbers_in self.old }
    {
        if let Link::Full(block) = &mut self.right.root {
            block.turn_right_if_lower();
        }
    }

    fn turn_left_if_lower(&mut self)
        ensures { numbers_in self.new ≡ numbers_in self.old }
    {
        if self.left.height() < self.right.height() {
            self.turn_left();
        }
    }

    fn turn_right_if_lower(&mut self)
        ensures { numbers_in self.new ≡ numbers_in self.old }
    {
        if self.right.height() < self.left.height() {
            self.turn_right();
        }
    }

    // The left side's block moves to the right side; its row moves up, in the place of this one's.
    fn turn_right(&mut self)
        ensures { numbers_in self.new ≡ numbers_in self.old }
    {
        let right = mem::replace(&mut self.right, Tree::new());
        let left = self.left.pass_right(&mut self.row, right);
        self.right = mem::replace(&mut self.left, left);
        self.measure();
    }

    fn turn_left(&mut self)
        ensures { numbers_in self.new ≡ numbers_in self.old }
    {
        let left = mem::replace(&mut self.left, Tree::new());
        let right = self.right.pass_left(left, &mut self.row);
        self.left = mem::replace(&mut self.right, right);
        self.measure();
    }

    // Passes up its row, takes the right side of the block above, and leaves its own left side.
    fn pass_right(&mut self, row: &mut Row, right: Tree) -> Tree
        ensures { result ++ (members row.new ++ numbers_in self.new)
            ≡ numbers_in self.old ++ (members row.old ++ right) }
    {
        mem::swap(&mut self.row, row);
        let inner = mem::replace(&mut self.right, right);
        let left = mem::replace(&mut self.left, inner);
        self.measure();
        left
    }

    fn pass_left(&mut self, left: Tree, row: &mut Row) -> Tree
        ensures { numbers_in self.new ++ (members row.new ++ result)
            ≡ left ++ (members row.old ++ numbers_in self.old) }
    {
        mem::swap(&mut self.row, row);
        let inner = mem::replace(&mut self.left, left);
        let right = mem::replace(&mut self.right, inner);
        self.measure();
        right
    }
}

impl Tree {
    // A tree that isn't a block has no row to give, and the two stay as they are. Only a higher
    // side is passed.
    fn pass_right(&mut self, row: &mut Row, right: Tree) -> Tree
        ensures { result ++ (members row.new ++ self.new) ≡ self.old ++ (members row.old ++ right) }
    {
        match &mut self.root {
            Link::Full(block) => block.pass_right(row, right),
            _ => mem::replace(self, right),
        }
    }

    fn pass_left(&mut self, left: Tree, row: &mut Row) -> Tree
        ensures { self.new ++ (members row.new ++ result) ≡ left ++ (members row.old ++ self.old) }
    {
        match &mut self.root {
            Link::Full(block) => block.pass_left(left, row),
            _ => mem::replace(self, left),
        }
    }
}
