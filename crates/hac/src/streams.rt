//! The standard streams, which a caller may have closed.
use std::fs::{File, OpenOptions};
use std::os::fd::AsRawFd;

/// The greatest number that the system gives to a standard stream.
const STANDARD_STREAM_MAX: i32 = 2;

/// The files that stand in for standard streams that were closed. While they are open no other file
/// gets the number of a standard stream.
#[derive(Drop)]
pub struct StandIns {
    _files: [Option<File>; 3],
}

impl StandIns {
    /// Opens each closed standard stream on `/dev/null`: it reads as empty, and what is written to
    /// it is lost.
    pub fn open(rt: &HostRuntime) -> StandIns {
        StandIns {
            _files: [stand_in(rt), stand_in(rt), stand_in(rt)],
        }
    }
}

// A file on /dev/null with the number of a standard stream, if one was free. The system gives out
// the least number that is free.
fn stand_in(rt: &HostRuntime) -> Option<File> {
    let file = OpenOptions::new()
        .read(true)
        .write(true)
        .open(rt, "/dev/null")
        .ok()?;
    if file.as_raw_fd() <= STANDARD_STREAM_MAX {
        Some(file)
    } else {
        None
    }
}
