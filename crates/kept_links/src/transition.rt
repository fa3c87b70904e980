//! An event, and the states before it and behind it.

use crate::outlook::Outlook;
use hac_model::Event;
use kept_state::KeptState;

/// An event that can happen, from the state before it to the one behind it.
#[derive(Clone, Copy)]
pub(crate) struct Transition<'a> {
    /// The state before the event.
    pub(crate) before: &'a KeptState,
    /// The state behind it.
    pub(crate) after: &'a Outlook<'a>,
    /// The event.
    pub(crate) event: &'a Event,
}
