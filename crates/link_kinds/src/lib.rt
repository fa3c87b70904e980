//! Which items are linked in which semantic directories, and how, and which are lent to them. It
//! knows no tree and no query: a directory and an item are numbers.
#![tactic(auto)]

mod links;
mod sets;

pub use links::Links;
