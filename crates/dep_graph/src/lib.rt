//! Which directories depend on which, as numbers with lists of edges: which edges would close a
//! cycle, which directories refer to one, and in what order links are found or found anew. It knows
//! no tree, no query and no link, and not why a directory has its edges.
#![tactic(auto)]

mod acyclic;
mod cones;
mod cycles;
mod graph;
pub mod laws;
mod nodes;
mod referrers;
mod sources;

pub use graph::{Graph, NewEdges};
