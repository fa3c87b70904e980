//! The machine: commands against a state that is kept with its links so that they are quick. It is
//! seen as that state and as the events for which memory was taken. A log is replayed on a state
//! without links. Paths are followed by `command_paths`, and events are judged by `event_check`.
//! This crate knows no line's bytes, no outside, and of a kept state only what `kept_state`,
//! `kept_links` and `tree_answers` promise.
#![tactic(auto)]

mod blocking;
mod cycles;
mod drafting;
mod drafts;
mod events;
mod machine;
mod marking;
mod questions;
mod replay;
mod sessions;
mod settling;
mod showing;

pub use drafts::{Change, Draft, Settled};
pub use machine::Machine;
pub use replay::Replay;
pub use snapshots::LoadFault;
