//! Whether an event can happen to a kept state, wherever it comes from: whether what it refers to
//! is there, nothing blocks it, and no limit is exceeded by what the state holds then. It changes
//! nothing and finds no link, and knows no command, no path and no log.
#![tactic(auto)]

mod asking;
mod counting;
mod fitting;
mod mounting;
mod telling;
mod told;

pub use counting::{counts_after, within, within_all};
pub use fitting::fits;
