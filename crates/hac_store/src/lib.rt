//! A tree that lives in a store: each event is a record of a log before it happens, and a crash
//! loses none that was answered. Where sessions stand isn't stored. The first record of the live
//! area tells the version of the store, and a checkpoint writes version 2 whatever it was. This
//! crate joins the machine to the disk, and knows nothing of lines and replies.
#![tactic(auto)]

mod appending;
mod areas;
mod checkpointing;
mod creating;
mod fault;
mod laws;
mod opening;
mod store;

pub use fault::StoreFault;
pub use laws::{appends_extend, files_hold_no_session, steps_have_room};
pub use store::Store;
