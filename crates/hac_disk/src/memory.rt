//! A disk in memory. It keeps what it held at first and each call since, so that it can tell what a
//! crash may leave; and it fails at chosen calls.
ghost use Rattle.std.specs.Prelude.{◌≡◌, ◌⊎◌, ◌-◌, ◌<◌, ◌↔◌, ◌==◌, [], IfOk, IsErr, OnErr, OnOk};
ghost use Rattle.std.specs.Prelude.{if◌then◌else◌, is_ok, length};
ghost use Rattle.hac_outside.specs.Causes.{HasCause};
ghost use Rattle.hac_disk.specs.Exchanges as exchange;
ghost use Rattle.hac_disk.specs.Images.{Elapses, Follows, IsQuiet, IsSettled, Torn};
ghost use Rattle.hac_disk.specs.Memory.{IsFailing, TouchesGap, memory_does, seen_of};
ghost use Rattle.hac_disk.specs.Parts.{contents};
ghost use Rattle.hac_disk.specs.Contents.{Attaches, HasLength, RangeWithin, StandAt};
ghost use Rattle.hac_disk.specs.Contents.{StartsWithin, Written, WrittenInPart};

use super::disks::Disk;
use super::parts::{joined, read_parts, write_parts};
use hac_outside::{Calls, Failed};
use std::alloc::{AllocError, Global};
use std::marker::Model;

/// A disk over a file in memory. A call that is to fail, that passes the room, or that writes into
/// the gap is a fault; it changes nothing but the counts.
#[derive(Drop)]
pub struct MemoryDisk {
    first_head: Vec<u8>,
    first_tail: Vec<u8>,
    head: Vec<u8>,
    gap: usize,
    tail: Vec<u8>,
    log: Vec<Step>,
    kept: Vec<u8>,
    room: usize,
    last_call: u64,
    calls: Calls,
}

// A call that went well: a write with its place and length, a sync, or an attached name with its
// length. The bytes are in `kept`, those of one step behind those of the other.
#[derive(Clone, Copy, Drop)]
enum Step {
    Write(u64, u64),
    Sync,
    Attach(u64, bool),
}

impl Model for MemoryDisk {
    ghost use Rattle.hac_disk.specs.Memory.{DiskState};

    ghost Value = { DiskState };

    ghost use Rattle.hac_disk.specs.Kept.{IsDisk, disk_of};

    ghost view = { disk_of };

    ghost invariant = { IsDisk };
}

impl MemoryDisk {
    /// A disk that holds `head`, `gap` zeros and `tail`, with nothing pending and nothing attached.
    /// It has room for `bytes` bytes, written or in names, and for `calls` calls. A call whose
    /// number, from 1, is in `failing` is a fault. The gap takes no memory. If 64 bits can't count
    /// all of it, the answer is `AllocError`.
    pub fn new(
        alloc: Global,
        head: &[u8],
        gap: u64,
        tail: &[u8],
        bytes: u64,
        calls: u64,
        failing: &[u64],
    ) -> Result<MemoryDisk, AllocError>
        ensures first { IfOk result (λ disk. disk.first ≡ contents head.now gap tail.now) }
        ensures done { IfOk result (λ disk. disk.done ≡ []) }
        ensures gap { IfOk result (λ disk. disk.gap ≡ gap) }
        ensures gap_at { IfOk result (λ disk. disk.gap_at ≡
            (if gap == 0 then 0 else length head.now)) }
        ensures room { IfOk result (λ disk. disk.room ≡ bytes) }
        ensures last_call { IfOk result (λ disk. disk.last_call ≡ calls) }
        ensures failing { IfOk result (λ disk. disk.failing ≡ failing.now) }
        ensures calls { IfOk result (λ disk. disk.calls ≡ 0) }
        ensures faults { IfOk result (λ disk. disk.faults ≡ 0) }
    {
        let none: &[u8] = &[];
        let (front, behind) = if gap == 0 { (none, head) } else { (head, none) };
        let first_tail = joined(alloc, behind, tail)?;
        let room = bytes as usize;
        let gap = gap as usize;
        let size = front
            .len()
            .saturating_add(gap)
            .saturating_add(first_tail.len())
            .saturating_add(room);
        if size == usize::MAX {
            return Err(AllocError);
        }
        let mut tail = Vec::with_capacity(alloc, first_tail.len() + room)?;
        tail.extend_from_slice(&first_tail)?;
        Ok(MemoryDisk {
            first_head: Vec::from_slice(alloc, front)?,
            first_tail,
            head: Vec::from_slice(alloc, front)?,
            gap,
            tail,
            log: Vec::with_capacity(alloc, calls as usize)?,
            kept: Vec::with_capacity(alloc, room)?,
            room,
            last_call: calls,
            calls: Calls::new(alloc, failing)?,
        })
    }
}

impl Disk for MemoryDisk {
    ghost use Rattle.hac_disk.specs.MemoryLaws.{memory_lawful};

    ghost seen = { seen_of };

    ghost does = { memory_does };

    ghost lawful = { memory_lawful };

    fn attach(&mut self, name: &str, make: bool) -> Result<(), Failed>
        ensures attached { Attaches (seen_of self.old).attached name.now make result
            (seen_of self.new).attached }
        ensures quiet { IsQuiet (seen_of self.old) (seen_of self.new) }
        ensures cause { HasCause self.old.faults self.new.faults result }

        // Which calls fail, and what the others change.
        ensures fails { IsErr result ↔ (IsFailing self.old ⊎ (self.old.room < length name.now)) }
        ensures once { memory_does (exchange.Attach name.now make result) self.old self.new }
    {
        self.calls.begin_within(self.last_call)?;
        let name = name.as_bytes();
        if name.len() > self.room {
            return Err(self.calls.fail());
        }
        self.kept.extend_from_slice(name).unwrap();
        self.log
            .push(Step::Attach(name.len() as u64, make))
            .unwrap();
        self.room -= name.len();
        Ok(())
    }

    fn len(&mut self) -> Result<u64, Failed>
        ensures len { IfOk result (λ len. HasLength (seen_of self.old).contents len) }
        ensures attached { (seen_of self.new).attached ≡ (seen_of self.old).attached }
        ensures quiet { IsQuiet (seen_of self.old) (seen_of self.new) }
        ensures cause { HasCause self.old.faults self.new.faults result }
        ensures fails { IsErr result ↔ IsFailing self.old }
        ensures once { memory_does (exchange.Len result) self.old self.new }
    {
        self.calls.begin_within(self.last_call)?;
        Ok((self.head.len() + self.gap + self.tail.len()) as u64)
    }

    fn read_at(&mut self, at: u64, into: &mut [u8]) -> Result<(), Failed>
        requires { RangeWithin (seen_of self.old).contents at (length into.old) }
        ensures read { OnOk result (StandAt (seen_of self.old).contents at into.new) }
        ensures attached { (seen_of self.new).attached ≡ (seen_of self.old).attached }
        ensures quiet { IsQuiet (seen_of self.old) (seen_of self.new) }
        ensures cause { HasCause self.old.faults self.new.faults result }
        ensures fails { IsErr result ↔ IsFailing self.old }
        ensures once { memory_does (exchange.Read at into.old into.new result) self.old self.new }
    {
        self.calls.begin_within(self.last_call)?;
        read_parts(&self.head, self.gap, &self.tail, at as usize, into);
        Ok(())
    }

    fn write_at(&mut self, at: u64, bytes: &[u8]) -> Result<(), Failed>
        requires { StartsWithin (seen_of self.old).contents at }
        ensures written { OnOk result (Written (seen_of self.old).contents at bytes.now
            (seen_of self.new).contents) }
        ensures in_part { OnErr result (WrittenInPart (seen_of self.old).contents
            at (length bytes.now) (seen_of self.new).contents) }
        ensures images { Follows (Torn at (length bytes.now)) (seen_of self.old).image
            (seen_of self.new).image }
        ensures time { Elapses (seen_of self.old) (seen_of self.new) }
        ensures attached { (seen_of self.new).attached ≡ (seen_of self.old).attached }
        ensures cause { HasCause self.old.faults self.new.faults result }
        ensures fails { IsErr result ↔ (IsFailing self.old ⊎
            ((self.old.room < length bytes.now) ⊎ TouchesGap self.old at (length bytes.now))) }
        ensures once { memory_does (exchange.Write at bytes.now result) self.old self.new }
    {
        self.calls.begin_within(self.last_call)?;
        if bytes.len() > self.room {
            return Err(self.calls.fail());
        }
        if !write_parts(&mut self.head, self.gap, &mut self.tail, at as usize, bytes) {
            return Err(self.calls.fail());
        }
        self.kept.extend_from_slice(bytes).unwrap();
        self.log.push(Step::Write(at, bytes.len() as u64)).unwrap();
        self.room -= bytes.len();
        Ok(())
    }

    fn sync(&mut self) -> Result<(), Failed>
        ensures settled { OnOk result (IsSettled (seen_of self.new)) }
        ensures attached { (seen_of self.new).attached ≡ (seen_of self.old).attached }
        ensures quiet { IsQuiet (seen_of self.old) (seen_of self.new) }
        ensures cause { HasCause self.old.faults self.new.faults result }
        ensures fails { IsErr result ↔ IsFailing self.old }
        ensures once { memory_does (exchange.Sync result) self.old self.new }
    {
        self.calls.begin_within(self.last_call)?;
        self.log.push(Step::Sync).unwrap();
        Ok(())
    }
}
