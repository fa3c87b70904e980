//! Parts of a state beside its tree, as a machine keeps them: the answers of spaces, by the mounts
//! that keep them, what a directory depends on, and where sessions stand; and what they and marks
//! will be after an event. It knows no tree.
#![tactic(auto)]

pub mod after;
mod answers;
mod edges;
mod gains;
pub mod lenders;
mod room;
pub mod sessions;
mod terms;

pub use answers::{Answers, Lists, had, is_answered, put_list};
pub use edges::edges_of;
pub use gains::with_answers;
pub use room::Room;
pub use terms::{answers_to, ordered_terms, push_terms, terms_in_order, unanswered};
