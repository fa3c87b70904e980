//! What a query says of an item, and how many questions for terms that takes. It knows neither
//! texts nor the tree: its caller says which terms an item has, and which directories provide it.
#![tactic(auto)]

mod atoms;
mod judging;
pub mod laws;

pub use atoms::Atoms;
pub use judging::judge;
