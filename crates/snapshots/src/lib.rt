//! What is stored of a state, the state that it tells, and that state as a machine keeps it. It
//! knows no bytes.
#![tactic(auto)]

pub mod laws;
mod loading;
mod reading;
mod restoring;
mod taking;

pub use reading::{LoadFault, read};
pub use taking::snapshot;
