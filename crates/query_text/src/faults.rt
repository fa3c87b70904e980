//! Why bytes give no query.
ghost use Rattle.std.specs.Prelude.{◌≡◌};

use hac_model::{LimitWord, Memory};
use thiserror::Error;

/// Why bytes give no query.
#[derive(Clone, Copy, Debug, PartialEq, Eq, Error)]
pub enum QueryFault {
    /// The least number of bytes with which no query begins. One more than there are, if all of
    /// them only begin one.
    #[error("no query begins with the first {0} bytes")]
    BadAt(u64),
    /// The query exceeds a limit.
    #[error("the query passes a limit")]
    Limit(LimitWord),
    /// Memory ran out.
    #[error("out of memory")]
    Memory,
}

impl From<Memory> for QueryFault {
    ghost use Rattle.query_text.specs.declared.faults.QueryFault.TheVariants as fault;

    ghost from_gives = { λ _ e. e ≡ fault.Memory };

    fn from(_memory: Memory) -> QueryFault {
        QueryFault::Memory
    }
}
