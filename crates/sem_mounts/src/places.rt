//! Where the lists of words stand, by hashes of the words.
ghost use Rattle.std.specs.Prelude.{IfSome};
ghost use Rattle.sem_mounts.specs.WordLists.{IsListOf};

use crate::numbers::Numbers;
use hac_model::{Memory, Name};
use std::alloc::Global;

// No list has this place.
const FREE: u32 = u32::MAX;

/// Places of lists, each in the first slot that was free from the hash of its word on. At least
/// half of the slots are free, and their number is a power of two. A `HashMap` takes some three
/// times as long.
#[derive(Drop)]
pub(crate) struct Places {
    alloc: Global,
    slots: Vec<u32>,
}

impl Places {
    /// No places.
    pub(crate) fn new(alloc: Global) -> Places {
        Places {
            alloc,
            slots: Vec::new(alloc),
        }
    }

    /// The place of the list of this word, if it is kept.
    pub(crate) fn find(&self, lists: &[(Name, Numbers)], word: &[u8]) -> Option<usize>
        ensures { IfSome result (IsListOf lists.now word.now) }
    {
        let mut slot = self.first_slot(word);
        for _ in 0..self.slots.len() {
            let place = *self.slots.get(slot)? as usize;
            if lists.get(place)?.0.as_bytes() == word {
                return Some(place);
            }
            slot = self.slot_behind(slot);
        }
        None
    }

    /// Keeps the place of the last list. It must be that of a word that has no place yet.
    pub(crate) fn keep_last(&mut self, lists: &[(Name, Numbers)]) -> Result<(), Memory> {
        if lists.len() > self.slots.len() / 2 {
            return self.spread(lists);
        }
        if let [before @ .., (word, _)] = lists {
            self.keep(word.as_bytes(), before.len());
        }
        Ok(())
    }

    // Keeps the places of all lists in twice as many slots.
    fn spread(&mut self, lists: &[(Name, Numbers)]) -> Result<(), Memory> {
        let count = self.slots.len().saturating_mul(2).max(16);
        let mut slots = Vec::new(self.alloc);
        slots.resize(count, FREE)?;
        self.slots = slots;
        for (place, (word, _)) in lists.iter().enumerate() {
            self.keep(word.as_bytes(), place);
        }
        Ok(())
    }

    // Keeps the place of the list of a word.
    fn keep(&mut self, word: &[u8], place: usize) {
        let Ok(place) = u32::try_from(place) else {
            return;
        };
        let mut slot = self.first_slot(word);
        for _ in 0..self.slots.len() {
            if self.slots.get(slot) == Some(&FREE) {
                self.slots[slot] = place;
                return;
            }
            slot = self.slot_behind(slot);
        }
    }

    // The slot from which on a word's place is looked for.
    fn first_slot(&self, word: &[u8]) -> usize {
        hash(word) & self.slots.len().wrapping_sub(1)
    }

    fn slot_behind(&self, slot: usize) -> usize {
        slot.wrapping_add(1) & self.slots.len().wrapping_sub(1)
    }
}

// The hash of Fowler, Noll and Vo.
fn hash(word: &[u8]) -> usize {
    let mut hash: usize = 0xcbf2_9ce4_8422_2325;
    for byte in word {
        hash = (hash ^ *byte as usize).wrapping_mul(0x100_0000_01b3);
    }
    hash
}
