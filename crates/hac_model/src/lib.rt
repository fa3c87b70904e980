//! The types and definitions that every crate of `hac` speaks of. Its `specs/` say what the program
//! means, over plain lists and numbers; nothing here knows how any of it is stored or computed.
#![tactic(auto)]

mod bytes;
mod commands;
mod counts;
mod events;
pub mod laws;
mod limits;
mod marks;
mod members;
mod memory;
mod numbers;
mod paths;
mod places;
mod queries;
pub mod reading;
mod replies;
mod resolved;
mod snapshots;
mod spaces;
mod states;
mod taken;
mod terms;
mod versions;

pub use bytes::{Name, Pile, Seq, Text};
pub use commands::{Command, Line};
pub use counts::Counts;
pub use events::Event;
pub use limits::{
    ANSWERS_LIMIT, CATALOGUE_LIMIT, DIRS_LIMIT, DOCS_LIMIT, FOLLOW_LIMIT, ITEMS_LIMIT, LINE_LIMIT,
    Limit, LimitWord, MOUNTS_LIMIT, NAME_LIMIT, NESTING_LIMIT, NUMBERS_LIMIT, PAIRS_LIMIT,
    PATH_LIMIT, PAYLOAD_LIMIT, QUERY_LIMIT, SCRIPT_LIMIT, SEMANTICS_LIMIT, SESSIONS_LIMIT,
    SPACES_LIMIT, STORE_LIMIT, SYMLINKS_LIMIT, TARGET_LIMIT, TERMS_LIMIT, TEXT_LIMIT, TEXTS_LIMIT,
    TICK_LIMIT, first_passed,
};
pub use marks::{Kind, Mark};
pub use members::Member;
pub use memory::Memory;
pub use numbers::Number;
pub use paths::{Path, PathWord};
pub use places::Place;
pub use queries::{Node, Query, RawQuery};
pub use replies::{Deny, Refusal, Reply};
pub use resolved::Resolved;
pub use snapshots::{Document, Snapshot, StoredEntry};
pub use spaces::{Answers, Asks, Fetch, Search};
pub use states::{Answer, Body, Entry, EntryKind, Session, State};
pub use taken::Taken;
pub use terms::{Term, Words};
pub use versions::Version;
