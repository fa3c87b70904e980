//! Where letters stand in an index that words meet.
ghost use Rattle.std.specs.Prelude.{◌≡◌, [], List, ℕ};
ghost use Rattle.query_index.specs.Inner.{AreMet, Meets};
ghost use Rattle.query_index.specs.Seen.{Seen};

use crate::numbers::put_in_order;
use std::alloc::Global;

/// Where letters stand in an index that words meet.
#[derive(Drop)]
pub(crate) struct Met {
    /// The words.
    pub(crate) words: Vec<usize>,
    /// The beginnings of words.
    pub(crate) beginnings: Vec<usize>,
}

impl Met {
    /// No letters were met.
    pub(crate) fn new(alloc: Global) -> Met
        ensures words { result.words.items ≡ [] }
        ensures beginnings { result.beginnings.items ≡ [] }
    {
        Met {
            words: Vec::new(alloc),
            beginnings: Vec::new(alloc),
        }
    }

    /// Brings them in order, each once.
    pub(crate) fn put_in_order(&mut self)
        ensures { (index : Seen) (words : List (List ℕ)) (none : Met) → none.words.items ≡ []
            → none.beginnings.items ≡ [] → Meets index words none self.old
            → AreMet index words self.new }
    {
        put_in_order(&mut self.words);
        put_in_order(&mut self.beginnings);
    }
}
