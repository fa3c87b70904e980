//! The four sets of one directory, within the pool that all directories share.
ghost use Rattle.std.specs.Prelude.{◌≡◌, ◌+◌, ◌<◌, ◌≤◌, [], length, None, Some, IsTrue};
ghost use Rattle.std.specs.Prelude.{if◌then◌else◌};
ghost use Rattle.set_pool.specs.Rising.{first_from, is_among};
ghost use Rattle.set_pool.specs.Sets.{AllListsRise, Changes, SameLive, is_live, members_of};
ghost use Rattle.link_kinds.specs.Kept.{AreDistinct, AreFresh, AreLive, ChangesAll, OthersStay};
ghost use Rattle.link_kinds.specs.Kept.{dir_lists};
ghost use Rattle.link_kinds.specs.Kinds.{items_of, kind_in, listed, with_kind, with_lent};
ghost use Rattle.link_kinds.specs.Seen.{LosesOneAtMost};

use hac_model::{Kind, Number};
use set_pool::{SetId, SetPool};

/// The sets of a directory's items: one for each kind of link, and one for those that linked
/// directories lend it.
#[derive(Clone, Copy)]
pub(crate) struct DirSets {
    pub(crate) transient: SetId,
    pub(crate) permanent: SetId,
    pub(crate) prohibited: SetId,
    pub(crate) lent: SetId,
}

impl DirSets {
    /// How an item is linked in the directory.
    pub(crate) fn kind(&self, pool: &SetPool, item: Number) -> Kind
        requires { AreLive pool.now self.now }
        ensures { result ≡ kind_in (dir_lists pool.now self.now) item }
    {
        let number = item.get();
        if pool.contains(self.transient, number) {
            Kind::Transient
        } else if pool.contains(self.permanent, number) {
            Kind::Permanent
        } else if pool.contains(self.prohibited, number) {
            Kind::Prohibited
        } else {
            Kind::Unlinked
        }
    }

    /// Whether an item is lent to the directory.
    pub(crate) fn lent(&self, pool: &SetPool, item: Number) -> bool
        requires { AreLive pool.now self.now }
        ensures { result ≡ is_among item (dir_lists pool.now self.now).lent }
    {
        pool.contains(self.lent, item.get())
    }

    /// How many items have a kind.
    pub(crate) fn count(&self, pool: &SetPool, kind: Kind) -> u64
        requires { AreLive pool.now self.now }
        ensures { result ≡ length (items_of kind (dir_lists pool.now self.now)) }
    {
        match kind {
            Kind::Transient => pool.len(self.transient),
            Kind::Permanent => pool.len(self.permanent),
            Kind::Prohibited => pool.len(self.prohibited),
            Kind::Unlinked => 0,
        }
    }

    /// The least item of a kind that isn't below the one given.
    pub(crate) fn first_from(&self, pool: &SetPool, kind: Kind, item: Number) -> Option<Number>
        requires { AreLive pool.now self.now }
        ensures { result ≡ first_from item (items_of kind (dir_lists pool.now self.now)) }
    {
        let found = match kind {
            Kind::Transient => pool.first_from(self.transient, item.get()),
            Kind::Permanent => pool.first_from(self.permanent, item.get()),
            Kind::Prohibited => pool.first_from(self.prohibited, item.get()),
            Kind::Unlinked => None,
        };
        found.map(Number::new)
    }

    /// Gives an item a kind, in place of the one that it has.
    pub(crate) fn set_kind(&self, pool: &mut SetPool, item: Number, kind: Kind)
        requires live { AreLive pool.old self.now }
        requires differ { AreDistinct self.now }
        requires room { 0 < pool.old.spare }
        ensures lists { dir_lists pool.new self.now
            ≡ with_kind kind item (dir_lists pool.old self.now) }
        ensures others { OthersStay pool.old pool.new self.now }
        ensures live { SameLive pool.old pool.new }
        ensures spare { LosesOneAtMost pool.old.spare pool.new.spare }
        ensures rise { AllListsRise pool.new }
    {
        set_listed(pool, self.transient, item, kind.is_transient());
        set_listed(pool, self.permanent, item, kind.is_permanent());
        set_listed(pool, self.prohibited, item, kind.is_prohibited());
    }

    /// The item is lent to the directory, or no longer is.
    pub(crate) fn set_lent(&self, pool: &mut SetPool, item: Number, on: bool)
        requires live { AreLive pool.old self.now }
        requires differ { AreDistinct self.now }
        requires room { 0 < pool.old.spare }
        ensures lists { dir_lists pool.new self.now
            ≡ with_lent on item (dir_lists pool.old self.now) }
        ensures others { OthersStay pool.old pool.new self.now }
        ensures live { SameLive pool.old pool.new }
        ensures spare { LosesOneAtMost pool.old.spare pool.new.spare }
        ensures rise { AllListsRise pool.new }
    {
        set_listed(pool, self.lent, item, on);
    }

    /// Four new sets, which are empty.
    pub(crate) fn make(pool: &mut SetPool) -> DirSets
        requires { 4 ≤ pool.old.spare }
        ensures made { ChangesAll pool.old pool.new result (Some []) }
        ensures fresh { AreFresh pool.old result }
        ensures differ { AreDistinct result }
        ensures spare { pool.new.spare + 4 ≡ pool.old.spare }
        ensures rise { AllListsRise pool.new }
    {
        let transient = pool.make();
        let permanent = pool.make();
        let prohibited = pool.make();
        let lent = pool.make();
        DirSets {
            transient,
            permanent,
            prohibited,
            lent,
        }
    }

    /// Frees the four sets.
    pub(crate) fn free(&self, pool: &mut SetPool)
        requires live { AreLive pool.old self.now }
        requires differ { AreDistinct self.now }
        ensures freed { ChangesAll pool.old pool.new self.now None }
        ensures spare { pool.new.spare ≡ pool.old.spare }
        ensures rise { AllListsRise pool.new }
    {
        pool.free(self.transient);
        pool.free(self.permanent);
        pool.free(self.prohibited);
        pool.free(self.lent);
    }
}

/// Puts an item into a set, or takes it out.
fn set_listed(pool: &mut SetPool, set: SetId, item: Number, on: bool)
    requires live { IsTrue (is_live pool.old set) }
    requires room { IsTrue on → 0 < pool.old.spare }
    ensures list { Changes pool.old pool.new set
        (Some (listed on item (members_of pool.old set))) }
    ensures live { SameLive pool.old pool.new }
    ensures spare { pool.new.spare + (if on then 1 else 0) ≡ pool.old.spare }
    ensures rise { AllListsRise pool.new }
{
    if on {
        pool.insert(set, item.get());
    } else {
        pool.remove(set, item.get());
    }
}
