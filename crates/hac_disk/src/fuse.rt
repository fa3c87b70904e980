//! A disk that stops after a number of calls.
ghost use Rattle.std.specs.Prelude.{◌≡◌, ◌-◌, ◌↔◌, IfOk, IsErr, OnErr, OnOk, if◌then◌else◌};
ghost use Rattle.std.specs.Prelude.{is_ok, length};
ghost use Rattle.hac_outside.specs.Calls.{next_number};
ghost use Rattle.hac_outside.specs.Causes.{HasCause};
ghost use Rattle.hac_disk.specs.Exchanges as exchange;
ghost use Rattle.hac_disk.specs.Fuse.{Burns, BurnsQuietly, behind_fuse, fuse_does, fuse_lawful};
ghost use Rattle.hac_disk.specs.Images.{Elapses, Follows, IsQuiet, IsSettled, Torn};
ghost use Rattle.hac_disk.specs.Contents.{Attaches, HasLength, RangeWithin, StandAt};
ghost use Rattle.hac_disk.specs.Contents.{StartsWithin, Written, WrittenInPart};

use super::disks::Disk;
use hac_outside::Failed;

/// Passes its first calls on to a disk, and fails every later one without passing it on: so a
/// program over it stops between two calls of the disk, as at a crash.
#[derive(Drop)]
pub struct FuseDisk<D: Disk> {
    disk: D,
    calls: u64,
    blown: u64,
}

impl<D: Disk> FuseDisk<D> {
    /// A fuse that lets `calls` calls pass.
    pub fn new(disk: D, calls: u64) -> FuseDisk<D>
        ensures disk { result.disk ≡ disk }
        ensures calls { result.calls ≡ calls }
        ensures blown { result.blown ≡ 0 }
    {
        FuseDisk {
            disk,
            calls,
            blown: 0,
        }
    }

    /// The disk, as the calls that were passed left it.
    pub fn into_disk(self) -> D
        ensures { result ≡ self.disk }
    {
        self.disk
    }

    // Counts a call. One behind the last is a fault.
    fn burn(&mut self) -> Result<(), Failed>
        ensures fails { IsErr result ↔ (self.old.calls ≡ 0) }
        ensures calls { self.new.calls ≡ self.old.calls - 1 }
        ensures blown { self.new.blown ≡ (if is_ok result then self.old.blown else next_number
            self.old.blown) }
        ensures disk { self.new.disk ≡ self.old.disk }
        ensures cause { HasCause (behind_fuse D.seen self.old).faults
            (behind_fuse D.seen self.new).faults result }
    {
        if self.calls == 0 {
            self.blown = self.blown.saturating_add(1);
            return Err(Failed);
        }
        self.calls -= 1;
        Ok(())
    }
}

impl<D: Disk> Disk for FuseDisk<D> {
    ghost seen = { behind_fuse D.seen };

    ghost does = { fuse_does D.does };

    ghost lawful = { λ fuse. fuse_lawful D.seen fuse (D.lawful fuse.disk) };

    fn attach(&mut self, name: &str, make: bool) -> Result<(), Failed>
        ensures attached { Attaches (D.seen self.old.disk).attached name.now make result
            (D.seen self.new.disk).attached }
        ensures quiet { IsQuiet (behind_fuse D.seen self.old) (behind_fuse D.seen self.new) }
        ensures burns { Burns D.seen self.old self.new result }
        ensures once { fuse_does D.does (exchange.Attach name.now make result) self.old self.new }
    {
        self.burn()?;
        self.disk.attach(name, make)
    }

    fn len(&mut self) -> Result<u64, Failed>
        ensures len { IfOk result (λ len. HasLength (D.seen self.old.disk).contents len) }
        ensures burns { BurnsQuietly D.seen self.old self.new result }
        ensures once { fuse_does D.does (exchange.Len result) self.old self.new }
    {
        self.burn()?;
        self.disk.len()
    }

    fn read_at(&mut self, at: u64, into: &mut [u8]) -> Result<(), Failed>
        requires { RangeWithin (D.seen self.old.disk).contents at (length into.old) }
        ensures read { OnOk result (StandAt (D.seen self.old.disk).contents at into.new) }
        ensures burns { BurnsQuietly D.seen self.old self.new result }
        ensures once { fuse_does D.does (exchange.Read at into.old into.new result) self.old self.new }
    {
        self.burn()?;
        self.disk.read_at(at, into)
    }

    fn write_at(&mut self, at: u64, bytes: &[u8]) -> Result<(), Failed>
        requires { StartsWithin (D.seen self.old.disk).contents at }
        ensures written { OnOk result (Written (D.seen self.old.disk).contents at bytes.now
            (D.seen self.new.disk).contents) }
        ensures in_part { OnErr result (WrittenInPart (D.seen self.old.disk).contents
            at (length bytes.now) (D.seen self.new.disk).contents) }
        ensures images { Follows (Torn at (length bytes.now)) (D.seen self.old.disk).image
            (D.seen self.new.disk).image }
        ensures time { Elapses (behind_fuse D.seen self.old) (behind_fuse D.seen self.new) }
        ensures attached { (D.seen self.new.disk).attached ≡ (D.seen self.old.disk).attached }
        ensures burns { Burns D.seen self.old self.new result }
        ensures once { fuse_does D.does (exchange.Write at bytes.now result) self.old self.new }
    {
        self.burn()?;
        self.disk.write_at(at, bytes)
    }

    fn sync(&mut self) -> Result<(), Failed>
        ensures settled { OnOk result (IsSettled (behind_fuse D.seen self.new)) }
        ensures burns { BurnsQuietly D.seen self.old self.new result }
        ensures once { fuse_does D.does (exchange.Sync result) self.old self.new }
    {
        self.burn()?;
        self.disk.sync()
    }
}
