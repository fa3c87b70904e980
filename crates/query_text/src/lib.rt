//! Queries as bytes: how they are read and printed, and how much one may hold. It knows no tree, so
//! that where a directory's path leads is for others to say.
#![tactic(auto)]

mod faults;
mod joining;
mod kinds;
pub mod laws;
mod paths;
mod printing;
mod reading;
mod sizes;
mod stepping;

pub use faults::QueryFault;
pub use paths::Paths;
pub use printing::{around, braced, joined, print, term_text};
pub use reading::parse;
pub use sizes::is_query;
