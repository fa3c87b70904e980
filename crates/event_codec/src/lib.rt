//! Events and snapshots of whole states as the bytes of a payload, and back. It knows the grammar
//! of payloads; where in a store they lie, which events fit a state, and which states there can
//! be, is for others to say.
//!
//! Payloads of version One and of version Two differ in their kinds, which are 1 and 4 for events
//! and 2 and 3 for states; in the numbers of entries, which have four bytes in version One and
//! eight in version Two; and in how many documents a mount may have. Nothing else differs: how
//! many there are of something has four bytes in both.
#![tactic(auto)]

mod bodies;
mod faults;
mod kinds;
pub mod laws;
mod lists;
mod mounts;
mod reading;
mod snapshots;
mod writing;

pub use faults::CodecFault;
pub use kinds::{PayloadKind, payload_kind};
pub use reading::read_event;
pub use snapshots::{read_snapshot, write_snapshot};
pub use writing::write_event;
