//! The nodes of a tree by number, each changed by itself: what an entry is, its directory, its name
//! and the list of what is in it. It doesn't know how they fit together.
#![tactic(auto)]

mod documents;
mod nodes;
mod places;
mod searching;
mod targets;

pub use documents::{list_numbers, prepare_documents, prepare_nodes, put_unknown, take_dropped};
pub use nodes::{
    Content, Node, Nodes, Shown, children_at, clear_query, drop_child, entry_at, placed_numbers,
    prepare, put, put_children, reseat, reserve_child, set_query, set_text, show_text, take_out,
};
pub use places::{insert_named, parent_at, place_at};
pub use searching::named;
pub use targets::{Target, read_word};
