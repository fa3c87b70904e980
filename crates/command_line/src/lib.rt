//! The words behind the program's name: the name of its store, its options, and the spaces that it
//! is to show. It knows no device, and opens no file.
#![tactic(auto)]

mod words;

pub use words::{Options, SpaceFile, WordsFault, read_words};
