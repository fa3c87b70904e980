//! Names and numbers in order: whether they rise, and whether one is among some that do. It knows
//! nothing of what they stand for.
#![tactic(auto)]

mod names;
mod numbers;

pub use names::{has_name, is_before, names_rise};
pub use numbers::{has_number, numbers_rise};
