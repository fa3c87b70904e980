//! Follows the paths of a line's command through the tree, from where its session stands. It gives
//! the command with the places, entries and directories that they lead to, or the first cause
//! against it that lies in them. It knows no link, no mark and no event, and nothing else that may
//! block a command.
#![tactic(auto)]

mod commands;
mod placing;
mod resolving;

pub use commands::followed;
