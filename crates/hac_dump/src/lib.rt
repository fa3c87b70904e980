//! The dump of a tree: a script that makes the same tree again.
#![tactic(auto)]

pub mod laws;
