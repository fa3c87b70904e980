//! The program: it hands its words, its standard input and output, and a disk and spaces over real
//! files to the run, and ends with the number of the run's status.
#![tactic(auto)]

ghost use Rattle.std.specs.Prelude.{◌≡◌, ◌<◌};

mod streams;

use hac_disk::FileDisk;
use hac_outside::{StdSink, StdSource, Steps};
use hac_top::{Status, run};
use sem_mounts::CatalogueSpaces;
use std::env;
use std::io::{self, ErrorKind};
use std::marker::Brand;
use std::process::ExitCode;
use std::rt::Env;
use std::sync::ledger::{Blank, Ledger};
use streams::StandIns;

fn main(rt: HostRuntime) -> ExitCode {
    // Before anything else is opened: a store must not get the number of a closed standard stream.
    let _stand_ins = StandIns::open(&rt);
    let status = run_program::<Brand>(&rt, Blank::new(1));
    tell_fault(&rt, status);
    ExitCode::from(status.number())
}

fn run_program<L: Ledger>(rt: &HostRuntime, blank: Blank) -> Status
    requires name { blank.name ≡ L.name }
    requires parts { blank.parts ≡ L.parts }
    requires some { 0 < blank.parts }
{
    let mut input = StdSource::new(rt.stdin());
    let mut output = StdSink::new(rt.stdout());
    let mut disk = FileDisk::new(rt);
    let mut spaces = CatalogueSpaces::new(rt);
    let mut probes: Steps<L> = Steps::new(blank);
    match program_words(rt) {
        Ok(words) => run(
            rt.alloc(),
            words.as_slice(),
            &mut input,
            &mut output,
            &mut disk,
            &mut spaces,
            &mut probes,
        ),
        Err(error) if error.kind() == ErrorKind::OutOfMemory => Status::Memory,
        // Words that are no text are answered as no words are: by the usage.
        Err(_) => run(
            rt.alloc(),
            &[],
            &mut input,
            &mut output,
            &mut disk,
            &mut spaces,
            &mut probes,
        ),
    }
}

/// The words behind the program's own name.
fn program_words(rt: &(impl Env + AllocGlobal)) -> io::Result<Vec<String>> {
    let mut words = Vec::new(rt.alloc());
    for word in env::args(rt)?.skip(1) {
        words.push(word)?;
    }
    Ok(words)
}

/// Says on standard error why a run stopped. A failure to say it changes nothing.
fn tell_fault(rt: &impl Eprint, status: Status) {
    let _ = match status {
        Status::Done | Status::SomeRefused | Status::Usage => Ok(()),
        Status::ReadFault => eprintln!(rt; "hac: read fault"),
        Status::WriteFault => eprintln!(rt; "hac: write fault"),
        Status::DiskFault => eprintln!(rt; "hac: disk fault"),
        Status::NotStore { at } => eprintln!(rt; "hac: not a store at byte {at}"),
        Status::Memory => eprintln!(rt; "hac: out of memory"),
        Status::BadSpace { which, line: None } => eprintln!(rt; "hac: space {which} failed"),
        Status::BadSpace {
            which,
            line: Some(line),
        } => eprintln!(rt; "hac: space {which} bad at line {line}"),
        Status::TooLong => eprintln!(rt; "hac: script too long"),
        Status::AlreadyStore => eprintln!(rt; "hac: already a store"),
    };
}
