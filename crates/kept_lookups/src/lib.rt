//! What is looked up in a kept state. Its tree has neither marks nor answers nor sessions; what is
//! answered here is said of the whole state.
#![tactic(auto)]

mod contents;
mod entries;

pub use contents::{is_semantic, query_at, shown_of, target_of, text_of};
pub use entries::{
    is_below, is_directory, is_document, is_inside, is_item, is_mount, next_dirty, next_number,
    parent_of, version,
};
