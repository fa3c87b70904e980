//! The whole of the program but its last edge: it takes words, a script, a store and spaces, and
//! gives replies and a status. It knows its source, its sink, its disk and its spaces by their
//! contracts alone.
#![tactic(auto)]

mod answering;
mod attaching;
mod deciding;
mod devices;
mod making;
mod opening;
mod playing;
mod running;
mod status;
mod storing;
mod taking;
mod ticking;

pub use running::run;
pub use status::Status;
