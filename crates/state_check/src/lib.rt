//! Whether a state is valid, whatever it is, as one that was read from a file. It goes over the
//! list of entries as it stands, keeps nothing, and changes nothing.
#![tactic(auto)]

mod answers;
mod asking;
mod counting;
mod cycles;
mod finding;
mod rising;
mod valid;

pub use cycles::directories_among;
pub use valid::is_valid;
