//! Why a payload gives no event.
use thiserror::Error;

/// Why a payload can't be read.
#[derive(Clone, Copy, Debug, PartialEq, Eq, Error)]
pub enum CodecFault {
    /// The bytes spell nothing.
    #[error("the payload breaks the grammar at byte {at}")]
    Bad {
        /// The place of the first byte of the first field that has no allowed value or is cut
        /// short.
        at: u64,
    },
    /// Memory ran out.
    #[error("out of memory")]
    Memory,
}
