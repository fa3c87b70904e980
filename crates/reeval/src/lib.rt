//! How links change: which verdicts on an item a change of the state calls for, given the links
//! that were known before. It knows no tree and no index: its caller says what the next state
//! tells.
#![tactic(auto)]

mod applying;
mod before;
mod judging;
pub mod laws;
mod layout;
mod planning;
mod settling;
mod verdicts;

pub use applying::{apply, reserve};
pub use before::{Before, Blank};
pub use layout::Layout;
pub use planning::{Task, plan};
pub use settling::{Stop, settle, settle_all};
pub use verdicts::{Change, Verdict, latest};
