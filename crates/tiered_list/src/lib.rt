//! A list of numbers in which one is inserted or removed anywhere by as many moves as the square
//! root of its length, and read anywhere at once: a tiered list. Room is taken first, so an insert
//! takes no memory. It doesn't know what the numbers stand for.
#![tactic(auto)]

mod items;
mod list;
mod runs;
mod tail;

pub use items::Items;
pub use list::TieredList;
