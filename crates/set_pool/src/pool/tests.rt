//! What no clause says: how high trees are, which names come again, what takes a block, and that
//! ample memory is enough.
ghost use Rattle.std.specs.Prelude.{IsTrue};
ghost use Rattle.set_pool.specs.Sets.{is_live};

use super::*;
use crate::trees::{Link, Tree};
use std::test::Fail;

#[test]
fn each_set_has_its_own_numbers(rt: HostRuntime) -> Result<(), Fail> {
    let mut pool = SetPool::new(rt.alloc());
    pool.reserve(5)?;
    let a = pool.make();
    let b = pool.make();
    let fresh = [pool.insert(a, 5), pool.insert(b, 5), pool.insert(a, 5)];
    assert_eq!(rt; fresh, [true, true, false]);
    pool.free(a);
    assert_eq!(rt; pool.len(b), 1);
    assert_eq!(rt; pool.first_from(b, 0), Some(5));
    assert_eq!(rt; pool.first_from(b, 6), None);
    assert!(rt; pool.contains(b, 5));
    assert!(rt; pool.remove(b, 5));
    assert_eq!(rt; pool.len(b), 0);
    Ok(())
}

#[test]
fn a_freed_name_comes_again(rt: HostRuntime) -> Result<(), Fail> {
    let mut pool = SetPool::new(rt.alloc());
    pool.reserve(3)?;
    let a = pool.make();
    let b = pool.make();
    pool.free(a);
    let c = pool.make();
    assert_eq!(rt; c, a);
    assert_ne!(rt; c, b);
    Ok(())
}

#[test]
fn a_lone_number_takes_no_block(rt: HostRuntime) -> Result<(), Fail> {
    let mut pool = SetPool::new(rt.alloc());
    pool.reserve(3)?;
    let a = pool.make();
    pool.insert(a, 5);
    assert_eq!(rt; pool.blocks.len(), 3);
    pool.insert(a, 7);
    assert_eq!(rt; pool.blocks.len(), 2);
    Ok(())
}

// No side of a block is more than one level higher than the other, and each block knows its height.
fn is_level(tree: &Tree) -> bool {
    match &tree.root {
        Link::Empty => true,
        Link::One(_) => true,
        Link::Full(block) => {
            let left = block.left.height();
            let right = block.right.height();
            let height = left.max(right).saturating_add(1);
            let lower = left.min(right).saturating_add(2);
            block.height == height
                && height <= lower
                && is_level(&block.left)
                && is_level(&block.right)
        }
    }
}

fn is_level_set(pool: &SetPool, set: SetId) -> bool
    requires { IsTrue (is_live pool.now set) }
{
    let set = pool.slots.set(set.0 as usize);
    is_level(&set.low) && is_level(&set.high)
}

// Puts in the numbers below 1009, which is prime, going on by `step`.
fn grow(pool: &mut SetPool, set: SetId, step: u64) -> Result<(), AllocError>
    requires { IsTrue (is_live pool.old set) }
    ensures { IsTrue (is_live pool.new set) }
{
    for i in 0..1009u64 {
        pool.reserve(1)?;
        pool.insert(set, i.wrapping_mul(step) % 1009);
    }
    Ok(())
}

// Seven of eight numbers go.
fn thin(pool: &mut SetPool, set: SetId, step: u64)
    requires { IsTrue (is_live pool.old set) }
    ensures { IsTrue (is_live pool.new set) }
{
    for i in 0..1009u64 {
        if i % 8 != 0 {
            pool.remove(set, i.wrapping_mul(step) % 1009);
        }
    }
}

#[test]
fn trees_stay_level(rt: HostRuntime) -> Result<(), Fail> {
    for step in [1, 1008, 385] {
        let mut pool = SetPool::new(rt.alloc());
        pool.reserve(1)?;
        let set = pool.make();
        grow(&mut pool, set, step)?;
        assert_eq!(rt; pool.len(set), 1009);
        assert!(rt; is_level_set(&pool, set), "grown by {step}");
        thin(&mut pool, set, step);
        assert!(rt; is_level_set(&pool, set), "thinned by {step}");
    }
    Ok(())
}
