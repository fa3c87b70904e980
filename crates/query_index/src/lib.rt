//! Which of some queries ask for a word: an index from words, and from beginnings of words, to the
//! places of the queries that ask for them. It knows no directories: a query is at a place.
#![tactic(auto)]

mod fit;
mod index;
pub mod laws;
mod met;
mod numbers;
mod postings;
mod queries;
mod sieve;

pub use fit::Fit;
pub use index::QueryIndex;
