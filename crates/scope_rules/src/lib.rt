//! What directories provide, by the tree and the links, and what the tree will be after an event.
//! It reads no text, and asks no query.
#![tactic(auto)]

mod after;
mod arrivals;
mod fates;
mod providing;

pub use after::Scope;
pub use providing::{has_found, has_lent, provides};
