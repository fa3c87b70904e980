//! An event that is to happen, with all that is known before it.

use hac_model::Event;
use kept_state::KeptState;
use link_kinds::Links;
use reindex::Way;

/// A state that is ready for an event, and what is kept beside it.
#[derive(Clone, Copy)]
pub(crate) struct Coming<'a> {
    /// The state.
    pub(crate) kept: &'a KeptState,
    /// Its links.
    pub(crate) found: &'a Links,
    /// The way to all of its semantic directories.
    pub(crate) way: &'a Way,
    /// The event for which it is ready.
    pub(crate) event: &'a Event,
}
