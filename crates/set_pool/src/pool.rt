//! The pool: sets by name, and what was set aside for those to come. It knows nothing of how a set
//! is kept.
ghost use Rattle.std.specs.Prelude.{◌≡◌, ◌+◌, ◌<◌, ◌≤◌, [], length, max, not, IsTrue, None};
ghost use Rattle.std.specs.Prelude.{OnErr, OnOk, Some, false, vec_len};
ghost use Rattle.set_pool.specs.Rising.{first_from, inserted, is_among, removed};
ghost use Rattle.set_pool.specs.Sets.{AllListsRise, BeginsSet, Changes, Clears, Drops, EndsSet};
ghost use Rattle.set_pool.specs.Sets.{Joins, KeepsNames, Leaves, SameLive, SameMembers, SameSets, SpendsNone};
ghost use Rattle.set_pool.specs.Sets.{SpendsOne, is_in, is_live, members_of};

use crate::rows::Row;
use crate::slots::Slots;
use crate::trees::Block;
use std::alloc::{AllocError, Global};
use std::marker::Model;

/// The name of a set. Once the set is freed, another may get its name.
#[derive(Clone, Copy, Debug, PartialEq, Eq)]
pub struct SetId(u64);

impl Model for SetId {
    ghost use Rattle.std.specs.Prelude.{ℕ};

    ghost Value = { ℕ };

    ghost view = { λ id. id.0 };

    ghost inverse = { λ n. record { 0 = n } };
}

// How many calls a pool grants in its life. No run comes near it; it bounds what `len` counts.
const MOST: u64 = 1 << 62;

/// Sets of numbers, each known by its name. Room comes first: after `reserve(n)`, `n` calls of
/// `make` and `insert` take no memory.
#[derive(Drop)]
pub struct SetPool {
    alloc: Global,
    slots: Slots,
    blocks: Vec<Box<Block>>,
    spare: u64,
    granted: u64,
}

impl Model for SetPool {
    ghost use Rattle.std.specs.Prelude.{vec_len};
    ghost use Rattle.set_pool.specs.Sets.{Sets};

    ghost Value = { Sets };

    ghost use Rattle.set_pool.specs.Pool.{IsBacked};

    ghost view = { λ pool.
        record { lists = pool.slots.lists; free = pool.slots.free; spare = pool.spare; aside = vec_len pool.blocks } };

    ghost invariant = { λ pool. IsBacked pool.slots (vec_len pool.blocks) pool.spare pool.granted };
}

impl SetPool {
    /// A pool without sets, in which nothing is spare or set aside.
    pub fn new(alloc: Global) -> SetPool
        ensures { result ≡ record { lists = []; free = 0; spare = 0; aside = 0 } }
    {
        SetPool {
            alloc,
            slots: Slots::new(alloc),
            blocks: Vec::new(alloc),
            spare: 0,
            granted: 0,
        }
    }

    /// Sets aside what `count` calls of `make` and `insert` may need. What is left of earlier calls
    /// counts, and so does each name that is free.
    pub fn reserve(&mut self, count: u64) -> Result<(), AllocError>
        ensures room { OnOk result (self.new.spare ≡ max self.old.spare count) }
        ensures aside { self.new.aside ≤ max self.old.aside count }
        ensures few { self.new.free ≤ max self.old.free count }
        ensures names { KeepsNames self.old self.new }
        ensures same { SameSets self.old self.new }

        // If memory ran out, no more calls are spare. Names and blocks that were taken stay.
        ensures err { OnErr result (self.new.spare ≡ self.old.spare) }
    {
        let more = count.saturating_sub(self.spare);
        if more > MOST - self.granted {
            return Err(AllocError);
        }
        if more > 0 {
            self.slots.reserve(count as usize)?;
            set_aside(self.alloc, &mut self.blocks, count as usize)?;
            self.spare = count;
            self.granted += more;
        }
        Ok(())
    }

    /// How many calls of `make` and `insert` may still be made without taking memory.
    pub fn spare(&self) -> u64
        ensures { result ≡ self.now.spare }
    {
        self.spare
    }

    /// A new set, which is empty.
    pub fn make(&mut self) -> SetId
        requires { 0 < self.old.spare }
        ensures fresh { is_live self.old result ≡ false }
        ensures made { Changes self.old self.new result (Some []) }
        ensures members { SameMembers self.old self.new }
        ensures live { BeginsSet self.old self.new result }
        ensures spare { SpendsOne self.old self.new }
        ensures free { self.new.free + 1 ≡ self.old.free }
        ensures rise { AllListsRise self.new }
    {
        self.spare -= 1;
        SetId(self.slots.make() as u64)
    }

    /// Puts `value` into the set, and answers whether it is new there.
    pub fn insert(&mut self, set: SetId, value: u64) -> bool
        requires live { IsTrue (is_live self.old set) }
        requires room { 0 < self.old.spare }
        ensures list { Changes self.old self.new set
            (Some (inserted value (members_of self.old set))) }
        ensures fresh { result ≡ not (is_in self.old set value) }
        ensures members { Joins self.old self.new set value }
        ensures live { SameLive self.old self.new }
        ensures spare { SpendsOne self.old self.new }
        ensures free { self.new.free ≡ self.old.free }
        ensures rise { AllListsRise self.new }
    {
        self.spare -= 1;
        self.slots.insert(set.0 as usize, value, &mut self.blocks)
    }

    /// Takes `value` out of the set, and answers whether it was there.
    pub fn remove(&mut self, set: SetId, value: u64) -> bool
        requires { IsTrue (is_live self.old set) }
        ensures list { Changes self.old self.new set
            (Some (removed value (members_of self.old set))) }
        ensures there { result ≡ is_in self.old set value }
        ensures members { Leaves self.old self.new set value }
        ensures live { SameLive self.old self.new }
        ensures spare { SpendsNone self.old self.new }
        ensures free { self.new.free ≡ self.old.free }
        ensures rise { AllListsRise self.new }
    {
        self.slots.remove(set.0 as usize, value)
    }

    /// Takes `value` out of every set.
    pub fn remove_everywhere(&mut self, value: u64)
        ensures lists { Drops self.old self.new value }
        ensures live { SameLive self.old self.new }
        ensures spare { SpendsNone self.old self.new }
        ensures free { self.new.free ≡ self.old.free }
        ensures rise { AllListsRise self.new }
    {
        self.slots.remove_everywhere(value);
    }

    /// Whether `value` is in the set.
    pub fn contains(&self, set: SetId, value: u64) -> bool
        requires { IsTrue (is_live self.now set) }
        ensures inside { result ≡ is_in self.now set value }
        ensures rise { AllListsRise self.now }
    {
        self.slots.set(set.0 as usize).contains(value)
    }

    /// How many numbers the set has. It goes over the whole set.
    pub fn len(&self, set: SetId) -> u64
        requires { IsTrue (is_live self.now set) }
        ensures count { result ≡ length (members_of self.now set) }
        ensures rise { AllListsRise self.now }
    {
        self.slots.set(set.0 as usize).len()
    }

    /// The least number of the set that isn't below `value`.
    pub fn first_from(&self, set: SetId, value: u64) -> Option<u64>
        requires { IsTrue (is_live self.now set) }
        ensures first { result ≡ first_from value (members_of self.now set) }
        ensures rise { AllListsRise self.now }
    {
        self.slots.set(set.0 as usize).first_from(value)
    }

    /// Frees the set. Its name is free for another.
    pub fn free(&mut self, set: SetId)
        requires { IsTrue (is_live self.old set) }
        ensures freed { Changes self.old self.new set None }
        ensures members { Clears self.old self.new set }
        ensures live { EndsSet self.old self.new set }
        ensures spare { SpendsNone self.old self.new }
        ensures free { self.new.free ≡ self.old.free + 1 }
        ensures rise { AllListsRise self.new }
    {
        self.slots.free(set.0 as usize);
    }
}

// Ensures that there are at least `count` blocks. None is set aside beside them.
fn set_aside(alloc: Global, blocks: &mut Vec<Box<Block>>, count: usize) -> Result<(), AllocError>
    ensures room { OnOk result (count ≤ vec_len blocks.new) }
    ensures kept { vec_len blocks.old ≤ vec_len blocks.new }
    ensures few { vec_len blocks.new ≤ max (vec_len blocks.old) count }
{
    let more = count.saturating_sub(blocks.len());
    for _ in 0..more {
        blocks.push(Box::new(alloc, Block::new(Row::new(0)))?)?;
    }
    Ok(())
}

#[cfg(test)]
mod tests;
