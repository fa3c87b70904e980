//! Roots and areas: the head of a store says which area is live, and a flip makes another one live.
//! This crate knows nothing of what the payloads of an area mean.
#![tactic(auto)]

mod areas;
mod flips;
mod heads;
mod laws;

pub use areas::{Area, area_place, write_area};
pub use flips::{close_and_fill, open_root};
pub use heads::{Root, RootFault, Slot, Stop, roots};
pub use laws::{areas_are_found, areas_are_read_alone, new_areas_lie_apart, roots_agree};
