//! The file of a disk in memory: a head, a gap of zeros that takes no memory, and a tail.
ghost use Rattle.std.specs.Prelude.{◌≡◌, ◌⊎◌, ◌+◌, ◌<◌, ◌≤◌, ◌↔◌, ◌^◌, ◌++◌, false, true, max};
ghost use Rattle.std.specs.Prelude.{IfOk, length, take, drop, slice_index, vec_capacity, vec_len};
ghost use Rattle.hac_disk.specs.Images.{overlaid};
ghost use Rattle.hac_disk.specs.Parts.{contents};

use std::alloc::{AllocError, Global};

// Both, one behind the other.
pub(crate) fn joined(alloc: Global, front: &[u8], back: &[u8]) -> Result<Vec<u8>, AllocError>
    ensures { IfOk result (λ all. all.items ≡ front.now ++ back.now) }
{
    let mut all = Vec::from_slice(alloc, front)?;
    all.extend_from_slice(back)?;
    Ok(all)
}

// The byte at a place of a head, a gap and a tail.
fn byte_of(head: &[u8], gap: usize, tail: &[u8], at: usize) -> u8
    requires size { length head.now + gap + length tail.now < 2 ^ 64 }
    requires within { at < length head.now + gap + length tail.now }
    ensures { result ≡ slice_index (contents head.now gap tail.now) at }
{
    let tail_at = head.len() + gap;
    if at < head.len() {
        head[at]
    } else if at < tail_at {
        0
    } else {
        tail[at - tail_at]
    }
}

// Fills `into` from that place on.
pub(crate) fn read_parts(head: &[u8], gap: usize, tail: &[u8], at: usize, into: &mut [u8])
    requires size { length head.now + gap + length tail.now < 2 ^ 64 }
    requires within { at + length into.old ≤ length head.now + gap + length tail.now }
    ensures { into.new ≡ take (length into.old) (drop at (contents head.now gap tail.now)) }
{
    for i in 0..into.len() {
        into[i] = byte_of(head, gap, tail, at + i);
    }
}

// Writes into the head or the tail, and says whether it did: what touches the gap isn't written.
pub(crate) fn write_parts(
    head: &mut Vec<u8>,
    gap: usize,
    tail: &mut Vec<u8>,
    at: usize,
    bytes: &[u8],
) -> bool
    requires size { vec_len head.old + gap + vec_len tail.old + length bytes.now < 2 ^ 64 }
    requires starts { at ≤ vec_len head.old + gap + vec_len tail.old }
    requires room { vec_len tail.old + length bytes.now ≤ vec_capacity tail.old }
    ensures touches { result ≡ false ↔ ((vec_len head.old < at + length bytes.now) ×
        (at < vec_len head.old + gap)) }
    ensures written { result ≡ true → contents head.new.items gap tail.new.items ≡
        overlaid at bytes.now (contents head.old.items gap tail.old.items) }
    ensures left { result ≡ false → (head.new.items ≡ head.old.items) ×
        (tail.new.items ≡ tail.old.items) }
    ensures head_len { vec_len head.new ≡ vec_len head.old }
    ensures tail_len { vec_len tail.new ≤ vec_len tail.old + length bytes.now }
    ensures tail_kept { result ≡ false → vec_len tail.new ≡ vec_len tail.old }
    ensures capacity { vec_capacity tail.old ≤ vec_capacity tail.new }
{
    let tail_at = head.len() + gap;
    if at >= tail_at {
        overlay(tail, at - tail_at, bytes);
        return true;
    }
    if at > head.len() || bytes.len() > head.len() - at {
        return false;
    }
    overlay(head, at, bytes);
    true
}

// Writes over what is there, and past the end.
fn overlay(bytes: &mut Vec<u8>, at: usize, new: &[u8])
    requires starts { at ≤ vec_len bytes.old }
    requires room { (at + length new.now ≤ vec_len bytes.old) ⊎
        (vec_len bytes.old + length new.now ≤ vec_capacity bytes.old) }
    ensures items { bytes.new.items ≡ overlaid at new.now bytes.old.items }
    ensures len { vec_len bytes.new ≡ max (vec_len bytes.old) (at + length new.now) }
    ensures capacity { vec_capacity bytes.old ≤ vec_capacity bytes.new }
{
    let within = new.len().min(bytes.len() - at);
    bytes[at..at + within].copy_from_slice(&new[..within]);
    bytes.extend_from_slice(&new[within..]).unwrap();
}
