//! Going over a log, record by record, while the disk is read in larger pieces.
ghost use Rattle.std.specs.Prelude.{◌≡◌, ◌+◌, ◌<◌, ◌≤◌, ◌^◌, [], IfOk, IsErrOf, MatchOption, drop};
ghost use Rattle.std.specs.Prelude.{length, take};
ghost use Rattle.hac_outside.specs.Causes.{ReportsFault};
ghost use Rattle.hac_disk.specs.Images.{IsQuiet};
ghost use Rattle.hac_disk.specs.Contents.{HasLength, StandAt};
ghost use Rattle.hac_journal.specs.Faults.{is_disk_fault};
ghost use Rattle.hac_journal.specs.Finding.{GoesAhead, TellsAt, held_from, skipped};

use super::fault::JournalFault;
use super::finding::{Look, Next, look_at};
use hac_disk::Disk;
use std::alloc::{AllocError, Global};
use std::marker::Model;

// How many bytes are read at once, where the file has them and no record is longer.
const PIECE: u64 = 65_536;

/// Reads a log in pieces. It holds some bytes of the file, so it is of use only while the file
/// stays as it is.
#[derive(Drop)]
pub struct LogReader {
    alloc: Global,
    bytes: Vec<u8>,
    start: u64,
}

impl Model for LogReader {
    ghost use Rattle.std.specs.Prelude.{◌+◌, ◌<◌, ◌^◌, vec_len};
    ghost use Rattle.hac_journal.specs.Finding.{Window};

    ghost Value = { Window };

    ghost view = { λ reader. record { start = reader.start; bytes = reader.bytes.items } };

    ghost invariant = { λ reader. reader.start + vec_len reader.bytes < 2 ^ 64 };
}

impl LogReader {
    /// A reader that holds nothing yet.
    pub fn new(alloc: Global) -> LogReader
        ensures { result.bytes ≡ [] }
    {
        LogReader {
            alloc,
            bytes: Vec::new(alloc),
            start: 0,
        }
    }

    /// What is at a place of the log. If the reader doesn't hold all of the record, it reads a
    /// piece of the file from that place on, or the whole record where that is longer.
    pub fn next<D: Disk>(&mut self, disk: &mut D, at: u64) -> Result<Next, JournalFault>
        requires { StandAt (D.seen disk.old).contents self.old.start self.old.bytes }
        ensures held { StandAt (D.seen disk.new).contents self.new.start self.new.bytes }
        ensures next { IfOk result (λ next. TellsAt next at (D.seen disk.old).contents) }
        ensures ahead { IfOk result (λ next. GoesAhead next at) }
        ensures quiet { IsQuiet (D.seen disk.old) (D.seen disk.new) }
        ensures attached { (D.seen disk.new).attached ≡ (D.seen disk.old).attached }
        ensures not_full { IsErrOf result JournalFault.Full → ⊥ }
        ensures faults { ReportsFault (is_disk_fault result) (D.seen disk.old).faults
            (D.seen disk.new).faults }
    {
        loop {
            match look_at(self.from(at)) {
                Look::Record(size) => {
                    return Ok(Next::Entry {
                        payload: self.payload(at, size)?,
                        next: at + 5 + size as u64,
                    });
                }
                Look::ClosedGate => return Ok(Next::End),
                Look::Needs(need) => {
                    if let Some(len) = self.fill(disk, at, need)? {
                        return Ok(Next::Bad { at: len });
                    }
                }
            }
        }
    }

    // The bytes that are held from a place on.
    fn from(&self, at: u64) -> &[u8]
        ensures { result.now ≡ held_from self.now at }
    {
        &self.bytes[self.skip(at)..]
    }

    // How many of the bytes that are held are before a place.
    fn skip(&self, at: u64) -> usize
        ensures same { held_from self.now at ≡ drop result self.now.bytes }
        ensures within { result ≤ length self.now.bytes }
    {
        if at < self.start {
            return self.bytes.len();
        }
        self.bytes.len().min((at - self.start) as usize)
    }

    // The payload of a record that is held whole.
    fn payload(&self, at: u64, size: usize) -> Result<Vec<u8>, AllocError>
        requires { 5 + size < length (held_from self.now at) }
        ensures payload { IfOk result (λ payload. payload.items ≡ take size
            (drop 5 (held_from self.now at))) }
        ensures next { at + 5 + size < 2 ^ 64 }
    {
        Vec::from_slice(self.alloc, &self.from(at)[5..5 + size])
    }

    // Reads `need` bytes or more from a place on. If the file hasn't as many, it gives the file's
    // length.
    fn fill<D: Disk>(
        &mut self,
        disk: &mut D,
        at: u64,
        need: usize,
    ) -> Result<Option<u64>, JournalFault>
        requires held { StandAt (D.seen disk.old).contents self.old.start self.old.bytes }
        requires need { need < 2 ^ 33 }
        ensures held { StandAt (D.seen disk.new).contents self.new.start self.new.bytes }
        ensures filled { IfOk result (λ short. MatchOption short
            (need ≤ length (held_from self.new at))
            (λ len. HasLength (D.seen disk.old).contents len × (len < at + need) ×
            (self.new ≡ self.old))) }
        ensures quiet { IsQuiet (D.seen disk.old) (D.seen disk.new) }
        ensures attached { (D.seen disk.new).attached ≡ (D.seen disk.old).attached }
        ensures not_full { IsErrOf result JournalFault.Full → ⊥ }
        ensures faults { ReportsFault (is_disk_fault result) (D.seen disk.old).faults
            (D.seen disk.new).faults }
    {
        let len = disk.len()?;
        if len < at || len - at < need as u64 {
            return Ok(Some(len));
        }
        let size = (len - at).min(PIECE.max(need as u64)) as usize;
        self.bytes.clear();
        self.start = at;
        self.bytes.resize(size, 0)?;
        match disk.read_at(at, &mut self.bytes) {
            Ok(()) => Ok(None),
            Err(_) => {
                self.bytes.clear();
                Err(JournalFault::Disk)
            }
        }
    }
}

/// What is at a place of the log, by a reader of its own: for one look. To go over a log, keep a
/// `LogReader`.
pub fn next<D: Disk>(alloc: Global, disk: &mut D, at: u64) -> Result<Next, JournalFault>
    ensures next { IfOk result (λ next. TellsAt next at (D.seen disk.old).contents) }
    ensures ahead { IfOk result (λ next. GoesAhead next at) }
    ensures quiet { IsQuiet (D.seen disk.old) (D.seen disk.new) }
    ensures attached { (D.seen disk.new).attached ≡ (D.seen disk.old).attached }
    ensures not_full { IsErrOf result JournalFault.Full → ⊥ }
    ensures faults { ReportsFault (is_disk_fault result) (D.seen disk.old).faults
        (D.seen disk.new).faults }
{
    LogReader::new(alloc).next(disk, at)
}
