//! The fields of payloads: numbers, names, texts, terms and queries, as they are put into a payload
//! and taken out of one. It knows no list, no event and no state.
//!
//! The number of an entry has four bytes in version One and eight in version Two. Nothing else
//! differs: how many there are of something has four bytes in both.
#![tactic(auto)]

mod bytes;
mod faults;
mod fields;
mod putting;
mod queries;
mod rooms;
mod terms;

pub use bytes::Bytes;
pub use faults::Fault;
pub use fields::{count, name, num, space, target, text};
pub use putting::{
    put_count, put_long, put_middle, put_num, put_numbered, put_query, put_short, put_term,
};
pub use queries::query;
pub use terms::term;
