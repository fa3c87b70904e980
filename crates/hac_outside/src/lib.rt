//! The outside of the program: where its bytes come from and where they go. This crate knows
//! nothing of what the bytes mean.
#![tactic(auto)]

mod adapters;
mod calls;
mod fault;
mod memory;
mod sinks;
mod sources;
mod steps;

pub use adapters::{StdSink, StdSource};
pub use calls::Calls;
pub use fault::Failed;
pub use memory::{MemorySink, MemorySource};
pub use sinks::{Sink, write_all};
pub use sources::Source;
pub use steps::Steps;
