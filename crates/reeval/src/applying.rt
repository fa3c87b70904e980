//! New verdicts, put into the links that are kept.
ghost use Rattle.std.specs.Prelude.{◌≡◌, ◌≤◌, ◌+◌, ◌==◌, ◌&&◌, ℕ, IsTrue, OnOk, if◌then◌else◌};
ghost use Rattle.std.specs.Prelude.{length, max};
ghost use Rattle.link_kinds.specs.Seen.{SameKinds, SameLinks, has_sets};
ghost use Rattle.reeval.specs.Settled.{AreSetsFor, HasRoom, verdict_in};
ghost use Rattle.reeval.specs.Told.{news_on, told};

use crate::verdicts::Change;
use hac_model::Memory;
use link_kinds::Links;

/// Takes the memory that `apply` wants for these changes. No link changes, whatever the answer.
pub fn reserve(found: &mut Links, delta: &[Change]) -> Result<(), Memory>
    ensures room { OnOk result (HasRoom found.new delta.now) }
    ensures same { SameKinds found.old found.new }

    // Whatever the answer, no more was taken than that.
    ensures most { found.new.spare ≤ max found.old.spare (length delta.now + length delta.now) }
    ensures sets { AreSetsFor found.old found.new delta.now }
{
    let Some(calls) = (delta.len() as u64).checked_mul(2) else {
        return Err(Memory);
    };
    for change in delta {
        found.prepare(change.dir, calls)?;
    }
    Ok(())
}

/// Puts new verdicts into the links, the last of an item and a directory over those before. It
/// takes no memory.
pub fn apply(found: &mut Links, delta: &[Change])
    requires { HasRoom found.old delta.now }
    ensures verdicts { (item dir : ℕ) → verdict_in found.new item dir
        ≡ told (news_on item delta.now) (verdict_in found.old item) dir }
    ensures sets { SameLinks found.old found.new }
{
    for change in delta {
        put(found, change);
    }
}

/// Puts one new verdict.
fn put(found: &mut Links, change: &Change)
    requires sets { IsTrue (has_sets found.old change.now.dir) }
    requires room { 2 ≤ found.old.spare }
    ensures verdicts { (item dir : ℕ) → verdict_in found.new item dir
        ≡ (if dir == change.now.dir && item == change.now.item then change.now.verdict
        else verdict_in found.old item dir) }
    ensures sets { SameLinks found.old found.new }
    ensures spare { found.old.spare ≤ found.new.spare + 2 }
{
    found.set_kind(change.dir, change.item, change.verdict.kind());
    found.set_lent(change.dir, change.item, change.verdict.lent);
}
