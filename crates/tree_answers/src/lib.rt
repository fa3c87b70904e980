//! What a kept state answers: the links that queries found, the marks that users made, which
//! queries name a directory, what the mounts have to be asked for a query, and the data lines of
//! commands that read. Links are taken as they are kept, none is found here and no text is read
//! for one; what spaces answer is kept nowhere. It knows no line of a script and no refusal, and
//! of a command only what its paths lead to.
#![tactic(auto)]

mod asking;
mod finding;
mod lines;
mod lines_of_counts;
mod lines_of_entries;
mod lines_of_links;
mod lines_of_queries;
mod marking;
mod mount_events;
mod numbering;
mod referring;
mod telling;

pub use asking::{Question, questions, told_for};
pub use lines::data_lines;
pub use marking::{is_linked, is_marked, is_permanent, may_mark};
pub use mount_events::{mounting, syncing};
pub use referring::{is_unreferenced, least_referrer};
