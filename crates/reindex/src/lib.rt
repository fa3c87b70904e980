//! Index steps: what is new in the links of files that are indexed, each judged where its words
//! may tell; all links of a state, found from nothing in the same way; and what is new of an item
//! that moves, judged where its place may tell, or goes. It has the way on which items are
//! judged, and the links as they were. It knows no command, no path and no other event.
#![tactic(auto)]

mod ahead;
mod anew;
mod fitted;
mod indexing;
mod moves;
mod past;
mod steps;
mod texts;
mod unjudged;
mod ways;

pub use anew::{finds, links_of};
pub use moves::{delta_of_gone, delta_of_moved};
pub use past::Past;
pub use steps::delta_of_steps;
pub use ways::{Way, stops_from, way_of, way_over, with_first};
