//! What a disk is: what a read gives, what a crash may leave, and how each call changes these.
ghost use Rattle.std.specs.Prelude.{◌≡◌, IfOk, OnErr, OnOk, length};
ghost use Rattle.hac_outside.specs.Causes.{HasCause};
ghost use Rattle.hac_disk.specs.Exchanges.{Exchange};
ghost use Rattle.hac_disk.specs.Exchanges as exchange;
ghost use Rattle.hac_disk.specs.Images.{Elapses, Follows, IsQuiet, IsSettled, Torn};
ghost use Rattle.hac_disk.specs.Contents.{Attaches, HasLength, RangeWithin, StandAt};
ghost use Rattle.hac_disk.specs.Contents.{StartsWithin, Written, WrittenInPart};
ghost use Rattle.hac_disk.specs.Seen.{DiskSeen, IsLawful};

use hac_outside::Failed;

/// One file of bytes. Between two syncs each written range, and the file past its old end, may hold
/// any bytes after a crash; the bytes outside stay. After a sync that went well a crash leaves what
/// a read gives.
///
/// An image is what a crash leaves. A disk over a real file tells neither its bytes nor its images,
/// and then no condition on a place binds: it answers a range outside its file with a fault.
pub trait Disk {
    // What is seen of it. A call never changes whether it tells its bytes, or its names. At the end
    // of its type the count of faults stays as it is.
    ghost seen: { Self → DiskSeen };

    // What one call does to it: so a disk over another can say that it passes a call on once, and
    // does nothing else to the other. A disk may tell nothing more by it than the clauses do.
    ghost does: { Exchange → Self → Self → Type 0 };

    /// Binds the disk to the file of that name. A file that is missing is made where `make` says
    /// so, else it is a fault.
    fn attach(&mut self, name: &str, make: bool) -> Result<(), Failed>
        ensures attached { Attaches (seen self.old).attached name.now make result
            (seen self.new).attached }
        ensures quiet { IsQuiet (seen self.old) (seen self.new) }
        ensures cause { HasCause (seen self.old).faults (seen self.new).faults result }
        ensures once { does (exchange.Attach name.now make result) self.old self.new };

    /// How many bytes the file has.
    fn len(&mut self) -> Result<u64, Failed>
        ensures len { IfOk result (λ len. HasLength (seen self.old).contents len) }
        ensures attached { (seen self.new).attached ≡ (seen self.old).attached }
        ensures quiet { IsQuiet (seen self.old) (seen self.new) }
        ensures cause { HasCause (seen self.old).faults (seen self.new).faults result }
        ensures once { does (exchange.Len result) self.old self.new };

    /// Fills `into` with the bytes from that place on. After a failure nothing is known of what
    /// `into` holds.
    fn read_at(&mut self, at: u64, into: &mut [u8]) -> Result<(), Failed>
        requires { RangeWithin (seen self.old).contents at (length into.old) }
        ensures read { OnOk result (StandAt (seen self.old).contents at into.new) }
        ensures attached { (seen self.new).attached ≡ (seen self.old).attached }
        ensures quiet { IsQuiet (seen self.old) (seen self.new) }
        ensures cause { HasCause (seen self.old).faults (seen self.new).faults result }
        ensures once { does (exchange.Read at into.old into.new result) self.old self.new };

    /// Writes over what is there, and past the end. Until a sync a crash may leave any bytes in the
    /// range, also after a failure.
    fn write_at(&mut self, at: u64, bytes: &[u8]) -> Result<(), Failed>
        requires { StartsWithin (seen self.old).contents at }
        ensures written { OnOk result (Written (seen self.old).contents at bytes.now
            (seen self.new).contents) }
        ensures in_part { OnErr result (WrittenInPart (seen self.old).contents at (length bytes.now)
            (seen self.new).contents) }
        ensures images { Follows (Torn at (length bytes.now)) (seen self.old).image
            (seen self.new).image }
        ensures time { Elapses (seen self.old) (seen self.new) }
        ensures attached { (seen self.new).attached ≡ (seen self.old).attached }
        ensures cause { HasCause (seen self.old).faults (seen self.new).faults result }
        ensures once { does (exchange.Write at bytes.now result) self.old self.new };

    /// Makes what was written last: after it a crash leaves what a read gives.
    fn sync(&mut self) -> Result<(), Failed>
        ensures settled { OnOk result (IsSettled (seen self.new)) }
        ensures attached { (seen self.new).attached ≡ (seen self.old).attached }
        ensures quiet { IsQuiet (seen self.old) (seen self.new) }
        ensures cause { HasCause (seen self.old).faults (seen self.new).faults result }
        ensures once { does (exchange.Sync result) self.old self.new };

    // What a read gives is an image, and images of this moment are those since this moment.
    ghost lawful: { (disk : Self) → IsLawful (seen disk) };
}
