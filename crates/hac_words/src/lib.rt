//! The words of a text: which there are, and which terms a text has. It knows nothing of files, and
//! nothing of how words are kept.
#![tactic(auto)]

mod bytes;
pub mod laws;
mod listing;
mod runs;
mod searching;
mod standing;
mod windows;

pub use bytes::{is_word, is_word_byte};
pub use listing::words_of;
pub use searching::has_term;
