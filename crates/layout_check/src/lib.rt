//! Whether the entries of a state fit one another, whatever they are, as those that were read from
//! a file. It goes over plain lists, and knows no tree that is kept, no query and no link.
#![tactic(auto)]

mod bodies;
mod counting;
mod depths;
mod kinds;
pub mod laws;
mod layout;
mod naming;
mod places;
mod rising;
mod searching;

pub use counting::counts_of;
pub use kinds::{is_document, is_linkable};
pub use layout::is_layout;
pub use places::is_directory_at;
pub use searching::entry_at;
