//! The names of sets, and the numbers of each that is live. A name is the place of its slot; those
//! that are free stand on a stack within the slots, so that a name that was freed is used again. It
//! knows nothing of what is reserved.
ghost use Rattle.std.specs.Prelude.{◌≡◌, ◌+◌, ◌<◌, ◌≤◌, [], length, max, not, false, IsTrue};
ghost use Rattle.std.specs.Prelude.{OnErr, OnOk, vec_len};
ghost use Rattle.set_pool.specs.Rising.{Rises, inserted, is_among, removed};
ghost use Rattle.set_pool.specs.Lists.{AllRise, ChangesAt, DropsAt, SameLists, is_live_at};
ghost use Rattle.set_pool.specs.Lists.{members_at};
ghost use Rattle.set_pool.specs.Slots.{link_of, members_in, slots_without};
ghost use Rattle.set_pool.specs.Trees.{TakesOneAtMost};

use crate::sets::Set;
use crate::trees::Block;
use std::alloc::{AllocError, Global};
use std::marker::Model;

#[derive(Drop)]
pub struct Slots {
    slots: Vec<Slot>,
    top: usize,
    free: usize,
}

#[derive(Drop)]
enum Slot {
    /// The free name below this one on the stack, and how many there are below.
    Free(usize, usize),
    Live(Set),
}

impl Model for Slots {
    ghost use Rattle.set_pool.specs.Lists.{Names};

    ghost Value = { Names };

    ghost use Rattle.set_pool.specs.Slots.{IsStacked, lists_of};

    ghost view = { λ slots. record { lists = lists_of slots.slots.items; free = slots.free } };

    ghost invariant = { λ slots. IsStacked slots.slots.items slots.top slots.free };
}

impl Slots {
    pub fn new(alloc: Global) -> Slots
        ensures empty { result.lists ≡ [] }
        ensures free { result.free ≡ 0 }
    {
        Slots {
            slots: Vec::new(alloc),
            top: 0,
            free: 0,
        }
    }

    /// Ensures that `count` names are free.
    pub fn reserve(&mut self, count: usize) -> Result<(), AllocError>
        ensures room { OnOk result (count ≤ self.new.free) }
        ensures free { self.old.free ≤ self.new.free }
        ensures few { self.new.free ≤ max self.old.free count }
        ensures names { length self.new.lists + self.old.free ≡ length self.old.lists + self.new.free }
        ensures same { SameLists self.old.lists self.new.lists }
    {
        let more = count.saturating_sub(self.free);
        for _ in 0..more {
            self.add()?;
        }
        Ok(())
    }

    // One more name, which is free.
    fn add(&mut self) -> Result<(), AllocError>
        ensures free { OnOk result (self.new.free ≡ self.old.free + 1) }
        ensures names { OnOk result (length self.new.lists ≡ length self.old.lists + 1) }
        ensures err { OnErr result (self.new ≡ self.old) }
        ensures same { SameLists self.old.lists self.new.lists }
    {
        let name = self.slots.len();
        self.slots.push(Slot::Free(self.top, self.free))?;
        self.top = name;
        self.free += 1;
        Ok(())
    }

    pub fn make(&mut self) -> usize
        requires { 0 < self.old.free }
        ensures fresh { is_live_at self.old.lists result ≡ false }
        ensures made { ChangesAt self.old.lists self.new.lists result (Some []) }
        ensures free { self.new.free + 1 ≡ self.old.free }
        ensures rise { AllRise self.new.lists }
    {
        let name = self.top;
        let (below, count) = self.slots[name].link();
        self.slots[name] = Slot::Live(Set::new());
        self.top = below;
        self.free = count;
        name
    }

    pub fn free(&mut self, name: usize)
        requires { IsTrue (is_live_at self.old.lists name) }
        ensures freed { ChangesAt self.old.lists self.new.lists name None }
        ensures free { self.new.free ≡ self.old.free + 1 }
        ensures rise { AllRise self.new.lists }
    {
        self.slots[name] = Slot::Free(self.top, self.free);
        self.top = name;
        self.free += 1;
    }

    pub fn set(&self, name: usize) -> &Set
        requires { IsTrue (is_live_at self.now.lists name) }
        ensures set { result.now ≡ members_at self.now.lists name }
        ensures rises { Rises result.now }
        ensures rise { AllRise self.now.lists }
    {
        match &self.slots[name] {
            Slot::Live(set) => set,
            Slot::Free(_, _) => unreachable!(),
        }
    }

    pub fn insert(&mut self, name: usize, value: u64, blocks: &mut Vec<Box<Block>>) -> bool
        requires live { IsTrue (is_live_at self.old.lists name) }
        requires room { 0 < vec_len blocks.old }
        ensures list { ChangesAt self.old.lists self.new.lists name
            (Some (inserted value (members_at self.old.lists name))) }
        ensures fresh { result ≡ not (is_among value (members_at self.old.lists name)) }
        ensures free { self.new.free ≡ self.old.free }
        ensures blocks { TakesOneAtMost (vec_len blocks.old) (vec_len blocks.new) }
        ensures rise { AllRise self.new.lists }
    {
        match &mut self.slots[name] {
            Slot::Live(set) => set.insert(value, blocks),
            Slot::Free(_, _) => unreachable!(),
        }
    }

    pub fn remove(&mut self, name: usize, value: u64) -> bool
        requires { IsTrue (is_live_at self.old.lists name) }
        ensures list { ChangesAt self.old.lists self.new.lists name
            (Some (removed value (members_at self.old.lists name))) }
        ensures there { result ≡ is_among value (members_at self.old.lists name) }
        ensures free { self.new.free ≡ self.old.free }
        ensures rise { AllRise self.new.lists }
    {
        match &mut self.slots[name] {
            Slot::Live(set) => set.remove(value),
            Slot::Free(_, _) => unreachable!(),
        }
    }
}

impl Slots {
    /// Takes `value` out of every set.
    pub fn remove_everywhere(&mut self, value: u64)
        ensures lists { DropsAt self.old.lists self.new.lists value }
        ensures free { self.new.free ≡ self.old.free }
        ensures rise { AllRise self.new.lists }
    {
        for slot in self.slots.iter_mut() {
            slot.remove(value);
        }
    }
}

impl Slot {
    fn remove(&mut self, value: u64)
        requires { Rises (members_in self.old) }
        ensures { self.new ≡ slots_without value self.old }
    {
        if let Slot::Live(set) = self {
            set.remove(value);
        }
    }

    fn link(&self) -> (usize, usize)
        ensures { result ≡ link_of self.now }
    {
        match self {
            Slot::Free(below, count) => (*below, *count),
            Slot::Live(_) => (0, 0),
        }
    }
}
