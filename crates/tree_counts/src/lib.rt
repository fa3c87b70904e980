//! How much the state of a tree would hold after an event, before anything changes, and whether all
//! paths would stay short. It changes nothing, and knows neither links nor answers.
#![tactic(auto)]

mod counting;
mod depths;
mod mounting;

pub use counting::counts_after;
