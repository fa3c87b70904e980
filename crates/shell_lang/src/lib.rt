//! The language of scripts: commands out of lines, and replies as text. It knows nothing of what a
//! command does, nor where its line comes from.
#![tactic(auto)]

mod commands;
pub mod laws;
mod numbers;
mod parsing;
mod paths;
mod printing;
mod putting;
mod queries;
mod sessions;
mod shapes;
mod word_texts;
mod words;
mod writing;

pub use commands::print_command;
pub use numbers::{seed_of, steps_of};
pub use parsing::parse_line;
pub use printing::print_reply;
pub use putting::put_length;
