//! Steps that are to be taken, with all that is known before them.

use crate::indexing::Indexing;
use crate::ways::Way;
use link_kinds::Links;

/// A state whose files are to be indexed up to a number, and what is kept beside it.
#[derive(Clone, Copy)]
pub(crate) struct StepsAhead<'a> {
    /// The state, seen as the one behind the steps.
    pub(crate) indexing: Indexing<'a>,
    /// The links of the state.
    pub(crate) found: &'a Links,
    /// The way to all of its semantic directories.
    pub(crate) way: &'a Way,
}
