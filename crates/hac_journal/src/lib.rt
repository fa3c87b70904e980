//! A journal: records one behind the other in a file, each behind a gate, the last before a closed
//! gate. This crate knows what a crash may leave of them, and nothing of what a payload means.
#![tactic(auto)]

mod appending;
mod fault;
mod finding;
mod laws;
mod reading;
mod records;

pub use appending::append;
pub use fault::JournalFault;
pub use finding::Next;
pub use laws::{
    closed_gates_end_a_log, found_records_are_whole, logs_are_read, logs_go_on, records_are_found,
};
pub use reading::{LogReader, next};
pub use records::{CLOSED, OPEN};
