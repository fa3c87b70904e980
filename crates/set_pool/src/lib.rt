//! Sets of numbers in one pool. Room is reserved first, and after that sets are made and grow
//! without taking memory. It doesn't know what the numbers mean.
#![tactic(auto)]

mod balancing;
mod growing;
mod pool;
mod rows;
mod sets;
mod shrinking;
mod slots;
mod trees;

pub use pool::{SetId, SetPool};
