//! A disk over a real file. It tells nothing: no contract can say what a real file holds.
ghost use Rattle.std.specs.Prelude.{◌≡◌, ⊤};
ghost use Rattle.hac_outside.specs.Causes.{HasCause};

use super::disks::Disk;
use super::locked::LockedFile;
use hac_outside::Failed;
use std::io::{self, ErrorKind};

/// A disk over the file that `attach` opens and locks. A file that another run has open can't be
/// attached, and one that is attached is let go of first. Each error of the system is a fault, and
/// so is a call before a file is attached, and one on a range outside the file. `sync` is `fsync`.
#[derive(Drop)]
pub struct FileDisk<'a> {
    rt: &'a HostRuntime,
    file: Option<LockedFile>,
    faults: u64,
}

impl<'a> FileDisk<'a> {
    /// A disk without a file.
    pub fn new(rt: &'a HostRuntime) -> FileDisk<'a>
        ensures { result.faults ≡ 0 }
    {
        FileDisk {
            rt,
            file: None,
            faults: 0,
        }
    }

    // The answer to a call. An error is counted.
    fn answer<T: Drop>(&mut self, outcome: io::Result<T>) -> Result<T, Failed>
        ensures cause { HasCause self.old.faults self.new.faults result }
    {
        match outcome {
            Ok(value) => Ok(value),
            Err(_) => {
                self.faults = self.faults.saturating_add(1);
                Err(Failed)
            }
        }
    }
}

impl Disk for FileDisk<'_> {
    ghost use Rattle.hac_disk.specs.Unknown.{unknown, unknown_lawful};

    ghost seen = { λ disk. unknown disk.faults };

    ghost does = { λ exchange old new. ⊤ };

    ghost lawful = { λ disk. unknown_lawful disk.faults };

    fn attach(&mut self, name: &str, make: bool) -> Result<(), Failed> {
        self.file = None;
        let opened = LockedFile::open(self.rt, name, make);
        self.file = Some(self.answer(opened)?);
        Ok(())
    }

    fn len(&mut self) -> Result<u64, Failed> {
        let outcome = file_len(&mut self.file);
        self.answer(outcome)
    }

    fn read_at(&mut self, at: u64, into: &mut [u8]) -> Result<(), Failed> {
        let outcome = read_range(&self.file, at, into);
        self.answer(outcome)
    }

    fn write_at(&mut self, at: u64, bytes: &[u8]) -> Result<(), Failed> {
        let outcome = write_range(&mut self.file, at, bytes);
        self.answer(outcome)
    }

    fn sync(&mut self) -> Result<(), Failed> {
        let outcome = sync_file(&self.file);
        self.answer(outcome)
    }
}

// The file, or an error where none is attached.
fn attached(file: &Option<LockedFile>) -> io::Result<&LockedFile> {
    match file {
        Some(file) => Ok(file),
        None => Err(io::Error::from(ErrorKind::NotFound)),
    }
}

// The file to change, or an error where none is attached.
fn attached_mut(file: &mut Option<LockedFile>) -> io::Result<&mut LockedFile> {
    match file {
        Some(file) => Ok(file),
        None => Err(io::Error::from(ErrorKind::NotFound)),
    }
}

fn file_len(file: &mut Option<LockedFile>) -> io::Result<u64> {
    attached_mut(file)?.len()
}

fn read_range(file: &Option<LockedFile>, at: u64, into: &mut [u8]) -> io::Result<()> {
    attached(file)?.read_at(at, into)
}

fn write_range(file: &mut Option<LockedFile>, at: u64, bytes: &[u8]) -> io::Result<()> {
    attached_mut(file)?.write_at(at, bytes)
}

fn sync_file(file: &Option<LockedFile>) -> io::Result<()> {
    attached(file)?.sync()
}
