//! Names, path words, paths and texts: how they are read and printed, and where a word leads. It
//! knows no tree, so that what a path leads to is for others to say.
#![tactic(auto)]

mod joining;
pub mod laws;
mod names;
mod printing;
mod reading;
mod spaces;
mod texts;

pub use joining::join;
pub use names::is_name;
pub use printing::print_path;
pub use reading::{NameFault, has_long_part, is_bad, parse_word};
pub use spaces::is_space_name;
pub use texts::{parse_text, print_text};
