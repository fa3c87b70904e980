//! The tree of files and directories as numbered nodes: what it holds, and changes by number.
//! It knows no line, no store and no outside.
#![tactic(auto)]

mod bodies;
mod changing;
mod loading;
mod mounting;
mod paths;
mod ready;
mod tree;

pub use bodies::NewBody;
pub use ready::Ready;
pub use tree::Tree;
