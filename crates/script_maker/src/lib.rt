//! The script that is drawn from a number. The same number gives the same script on each machine.
//! It knows no command but by its words, and no device.
#![tactic(auto)]

mod generating;
pub mod laws;

pub use generating::make_script;
