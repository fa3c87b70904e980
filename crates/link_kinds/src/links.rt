//! Links: the kind of each item in each semantic directory, and the items that are lent to it. It
//! knows nothing of what makes an item a link, or lends it.
ghost use Rattle.std.specs.Prelude.{◌≡◌, ◌==◌, ◌&&◌, ◌||◌, ◌<◌, ◌+◌, length, max, ℕ, [], IsTrue};
ghost use Rattle.std.specs.Prelude.{None, Some, OnErr, OnOk, false, if◌then◌else◌, is_some, nat_eq};
ghost use Rattle.std.specs.Prelude.{not};
ghost use Rattle.indexmap.specs.IndexMap.{get, spare};
ghost use Rattle.set_pool.specs.Rising.{first_from, is_among};
ghost use Rattle.set_pool.specs.Sets as pool_sets;
ghost use Rattle.link_kinds.specs.Kinds.{items_of, no_lists, with_kind, with_lent};
ghost use Rattle.link_kinds.specs.Seen.{AllApart, ChangesDir, DropsItem, LinkListsRise};
ghost use Rattle.link_kinds.specs.Seen.{LosesOneAtMost, SameKinds, SameLinks, has_sets, kind_at};
ghost use Rattle.link_kinds.specs.Seen.{lent_in, lists_in, permanent_in, prohibited_in};
ghost use Rattle.link_kinds.specs.Seen.{transient_in};

use crate::sets::DirSets;
use hac_model::{Kind, Memory, Number};
use indexmap::IndexMap;
use set_pool::SetPool;
use std::alloc::Global;
use std::marker::Model;

/// The sets of each directory that has some.
type Dirs = IndexMap<u64, DirSets>;

/// How items are linked in semantic directories, and which are lent to them. Room comes first:
/// after `prepare(dir, n)`, `n` calls of `set_kind` or `set_lent` take no memory.
#[derive(Drop)]
pub struct Links {
    dirs: Dirs,
    pool: SetPool,
}

impl Model for Links {
    ghost use Rattle.link_kinds.specs.Seen.{Known};

    ghost Value = { Known };

    ghost use Rattle.link_kinds.specs.Kept.{AreLinksKept, seen_of};

    ghost view = { seen_of };

    ghost invariant = { AreLinksKept };
}

impl Links {
    /// No item is linked or lent anywhere.
    pub fn new(alloc: Global) -> Links
        ensures { result ≡ record { dirs = []; spare = 0 } }
    {
        Links {
            dirs: IndexMap::new(alloc),
            pool: SetPool::new(alloc),
        }
    }

    /// Ensures that a directory has its sets, and that there is memory for `count` calls of
    /// `set_kind` or `set_lent`. What is left of earlier calls counts.
    pub fn prepare(&mut self, dir: Number, count: u64) -> Result<(), Memory>
        ensures room { OnOk result (self.new.spare ≡ max self.old.spare count) }
        ensures sets { OnOk result
            ((d : ℕ) → has_sets self.new d ≡ (has_sets self.old d || d == dir)) }
        ensures kinds { SameKinds self.old self.new }

        // If memory ran out, all is as before.
        ensures err { OnErr result
            ((self.new.spare ≡ self.old.spare) × SameLinks self.old self.new) }
    {
        if sets_at(&self.dirs, dir).is_some() {
            self.pool.reserve(count)?;
            return Ok(());
        }
        self.dirs.reserve(1)?;
        reserve_more(&mut self.pool, count)?;
        let sets = DirSets::make(&mut self.pool);
        put_sets(&mut self.dirs, dir, sets);
        Ok(())
    }

    /// How an item is linked in a directory.
    pub fn kind(&self, dir: Number, item: Number) -> Kind
        ensures kind { result ≡ kind_at self.now dir item }
        ensures apart { AllApart self.now }
        ensures rise { LinkListsRise self.now }
    {
        match sets_at(&self.dirs, dir) {
            Some(sets) => sets.kind(&self.pool, item),
            None => Kind::Unlinked,
        }
    }

    /// All lists rise. This does nothing: it is called where a proof has to know so.
    pub fn know_lists(&self)
        ensures { LinkListsRise self.now }
    {
        let _pool = &self.pool;
    }

    /// Whether linked directories lend an item to a directory.
    pub fn lent(&self, dir: Number, item: Number) -> bool
        ensures { result ≡ is_among item (lent_in self.now dir) }
    {
        match sets_at(&self.dirs, dir) {
            Some(sets) => sets.lent(&self.pool, item),
            None => false,
        }
    }

    /// How many items of a kind a directory has. Those that aren't linked aren't counted.
    pub fn count(&self, dir: Number, kind: Kind) -> u64
        ensures { result ≡ length (items_of kind (lists_in self.now dir)) }
    {
        match sets_at(&self.dirs, dir) {
            Some(sets) => sets.count(&self.pool, kind),
            None => 0,
        }
    }

    /// The least transient item of a directory that isn't below the one given.
    pub fn transient_from(&self, dir: Number, item: Number) -> Option<Number>
        ensures { result ≡ first_from item (transient_in self.now dir) }
    {
        self.first_from(dir, Kind::Transient, item)
    }

    /// The least permanent item of a directory that isn't below the one given.
    pub fn permanent_from(&self, dir: Number, item: Number) -> Option<Number>
        ensures { result ≡ first_from item (permanent_in self.now dir) }
    {
        self.first_from(dir, Kind::Permanent, item)
    }

    /// The least prohibited item of a directory that isn't below the one given.
    pub fn prohibited_from(&self, dir: Number, item: Number) -> Option<Number>
        ensures { result ≡ first_from item (prohibited_in self.now dir) }
    {
        self.first_from(dir, Kind::Prohibited, item)
    }

    /// The least item of a kind in a directory that isn't below the one given.
    fn first_from(&self, dir: Number, kind: Kind, item: Number) -> Option<Number>
        ensures { result ≡ first_from item (items_of kind (lists_in self.now dir)) }
    {
        match sets_at(&self.dirs, dir) {
            Some(sets) => sets.first_from(&self.pool, kind, item),
            None => None,
        }
    }

    /// Gives an item a kind in a directory, in place of the one that it has there. An item that is
    /// lent stays so.
    pub fn set_kind(&mut self, dir: Number, item: Number, kind: Kind)
        requires sets { IsTrue (has_sets self.old dir) }
        requires room { 0 < self.old.spare }
        ensures lists { ChangesDir self.old self.new dir
            (with_kind kind item (lists_in self.old dir)) }
        ensures kind { (d i : ℕ) → kind_at self.new d i
            ≡ (if d == dir && i == item then kind else kind_at self.old d i) }
        ensures sets { SameLinks self.old self.new }
        ensures spare { LosesOneAtMost self.old.spare self.new.spare }
    {
        sets_of(&self.dirs, dir).set_kind(&mut self.pool, item, kind);
    }

    /// An item is lent to a directory, or no longer is. It keeps the kind that it has there.
    pub fn set_lent(&mut self, dir: Number, item: Number, on: bool)
        requires sets { IsTrue (has_sets self.old dir) }
        requires room { 0 < self.old.spare }
        ensures lists { ChangesDir self.old self.new dir
            (with_lent on item (lists_in self.old dir)) }
        ensures kinds { (d i : ℕ) → kind_at self.new d i ≡ kind_at self.old d i }
        ensures sets { SameLinks self.old self.new }
        ensures spare { LosesOneAtMost self.old.spare self.new.spare }
    {
        sets_of(&self.dirs, dir).set_lent(&mut self.pool, item, on);
    }

    /// No item is linked in the directory or lent to it any more, and it has no sets.
    pub fn drop_dir(&mut self, dir: Number)
        ensures lists { ChangesDir self.old self.new dir no_lists }
        ensures sets { (d : ℕ) → has_sets self.new d ≡ (has_sets self.old d && not (d == dir)) }
        ensures spare { self.new.spare ≡ self.old.spare }
    {
        if let Some(sets) = take_sets(&mut self.dirs, dir) {
            sets.free(&mut self.pool);
        }
    }

    /// The item isn't linked in any directory or lent to one any more.
    pub fn drop_item(&mut self, item: Number)
        ensures lists { DropsItem self.old self.new item }
        ensures sets { SameLinks self.old self.new }
        ensures spare { self.new.spare ≡ self.old.spare }
    {
        self.pool.remove_everywhere(item.get());
    }
}

/// Sets aside what four new sets want, beside `count` calls and what is spare already.
fn reserve_more(pool: &mut SetPool, count: u64) -> Result<(), Memory>
    ensures room { OnOk result (pool.new.spare ≡ max pool.old.spare count + 4) }
    ensures err { OnErr result (pool.new.spare ≡ pool.old.spare) }
    ensures same { pool_sets.SameSets pool.old pool.new }
{
    let Some(all) = count.max(pool.spare()).checked_add(4) else {
        return Err(Memory);
    };
    pool.reserve(all)?;
    Ok(())
}

/// The sets of a directory, if it has some.
fn sets_at(dirs: &Dirs, dir: Number) -> Option<DirSets>
    ensures { result ≡ get nat_eq dirs.now dir }
{
    dirs.get(&dir.get()).copied()
}

/// The sets of a directory that has some.
fn sets_of(dirs: &Dirs, dir: Number) -> DirSets
    requires { IsTrue (is_some (get nat_eq dirs.now dir)) }
    ensures { Some result ≡ get nat_eq dirs.now dir }
{
    let Some(sets) = sets_at(dirs, dir) else {
        unreachable!()
    };
    sets
}

/// Gives a directory its sets, in a map that has room for them.
fn put_sets(dirs: &mut Dirs, dir: Number, sets: DirSets)
    requires { 0 < spare dirs.old }
    ensures { (d : ℕ) → get nat_eq dirs.new d
        ≡ (if d == dir then Some sets else get nat_eq dirs.old d) }
{
    if dirs.insert(dir.get(), sets).is_err() {
        unreachable!()
    }
}

/// Removes the sets of a directory.
fn take_sets(dirs: &mut Dirs, dir: Number) -> Option<DirSets>
    ensures sets { result ≡ get nat_eq dirs.old dir }
    ensures taken { (d : ℕ) → get nat_eq dirs.new d
        ≡ (if d == dir then None else get nat_eq dirs.old d) }
{
    dirs.swap_remove(&dir.get())
}
