//! The one way in which a source or a sink fails.
use thiserror::Error;

/// A read, a write or a flush failed. It doesn't say why: nothing above can act on the reason.
#[derive(Clone, Copy, Debug, PartialEq, Eq, Error)]
#[error("the outside failed")]
pub struct Failed;
