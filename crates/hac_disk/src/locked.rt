//! A file that one run has for itself: it is locked while it is open, so its length is known
//! without asking.
ghost use Rattle.std.specs.Prelude.{◌≡◌, ◌+◌, IfOk, IfSome, None, Ok, OnOk, Some, length, max};

use std::fs::{File, OpenFile, OpenOptions};
use std::io::{self, ErrorKind};
use std::os::fd::AsRawFd;
use std::os::unix::fs::FileExt;
use std::path::Path;

/// The greatest number that the system gives to a standard stream.
const STANDARD_STREAM_MAX: i32 = 2;

/// An open file with a lock that no other run gets meanwhile. The system takes the lock back when
/// the file is closed, also where the run is killed. Programs that ask for no lock, such as one
/// that copies the file, aren't hindered.
#[derive(Drop)]
pub struct LockedFile {
    file: File,
    /// The length in bytes, once it was asked for. Unknown again after a write that failed.
    len: Option<u64>,
}

impl LockedFile {
    /// Opens a file to read and write. One that may be made is made durable in its folder too, so
    /// that a crash doesn't take its name away.
    pub fn open(rt: &HostRuntime, name: &str, make: bool) -> io::Result<LockedFile>
        ensures unasked { IfOk result (λ file. file.len ≡ None) }
    {
        let mut how = OpenOptions::new();
        how.read(true).write(true).create(make);
        let file = how.open(rt, name)?;
        refuse_standard_stream(&file)?;
        file.try_lock()?;
        if make {
            sync_folder(rt, name)?;
        }
        Ok(LockedFile { file, len: None })
    }

    /// The length in bytes. The system is asked only if it isn't known.
    pub fn len(&mut self) -> io::Result<u64>
        ensures known { IfSome self.old.len (λ len. result ≡ Ok len) }
        ensures kept { IfOk result (λ len. self.new.len ≡ Some len) }
    {
        if let Some(len) = self.len {
            return Ok(len);
        }
        let len = self.file.metadata()?.len();
        self.len = Some(len);
        Ok(len)
    }

    /// Reads as many bytes as `into` has. A range that passes the end is an error.
    pub fn read_at(&self, at: u64, into: &mut [u8]) -> io::Result<()> {
        self.file.read_exact_at(into, at)
    }

    /// Writes bytes. A place behind the end is an error, as the system would write there and leave
    /// a hole.
    pub fn write_at(&mut self, at: u64, bytes: &[u8]) -> io::Result<()>
        ensures grown { OnOk result (IfSome self.old.len (λ len.
            self.new.len ≡ Some (max len (at + length bytes.now)))) }
    {
        let len = self.len()?;
        let Some(end) = end_within(len, at, bytes) else {
            return Err(io::Error::from(ErrorKind::InvalidInput));
        };
        self.len = None;
        self.file.write_all_at(bytes, at)?;
        self.len = Some(len.max(end));
        Ok(())
    }

    /// Has the system write what it holds of the file to the disk.
    pub fn sync(&self) -> io::Result<()> {
        self.file.sync_all()
    }
}

// Where bytes end that are written at a place. There is no such end where the place lies behind the
// file's.
fn end_within(len: u64, at: u64, bytes: &[u8]) -> Option<u64>
    ensures { IfSome result (λ end. end ≡ at + length bytes.now) }
{
    if at > len {
        return None;
    }
    at.checked_add(bytes.len() as u64)
}

// A file with the number of a standard stream would take what is written to that stream.
fn refuse_standard_stream(file: &File) -> io::Result<()> {
    if file.as_raw_fd() <= STANDARD_STREAM_MAX {
        return Err(io::Error::from(ErrorKind::InvalidInput));
    }
    Ok(())
}

// Syncs the folder of that name.
fn sync_folder(rt: &HostRuntime, name: &str) -> io::Result<()> {
    let here = Path::new(".");
    let folder = match Path::new(name).parent() {
        Some(folder) if !folder.as_str().is_empty() => folder,
        _ => here,
    };
    File::open(rt, folder)?.sync_all()
}
