//! The state as a machine keeps it: a tree, the marks of semantic directories, the answers of
//! spaces that mounts keep, what depends on what, and where sessions stand. It is seen as that
//! state and as the events for which memory was taken: each is prepared with memory, and then
//! applied without any. It knows no command and no link that a query finds, and it follows no
//! path.
#![tactic(auto)]

mod after;
mod edges;
mod forgetting;
mod gains;
mod kept;
mod lenders;
mod parts;
mod ready;
mod room;
mod terms;

pub use kept::KeptState;
