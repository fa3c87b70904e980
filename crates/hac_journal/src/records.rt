//! The bytes of records.
ghost use Rattle.std.specs.Prelude.{◌≡◌, ◌+◌, ◌<◌, ◌≤◌, ◌^◌, ◌++◌, IfOk, MatchOption, OnOk, length};
ghost use Rattle.hac_journal.specs.Records.{AreShort, contents_of, log_of, record_of, records_of};

use std::alloc::{AllocError, AllocFailed, Global};

/// The byte of a gate that is open. Any other byte is a closed one.
pub const OPEN: u8 = 1;

/// The byte that is written for a closed gate.
pub const CLOSED: u8 = 0;

// Where the records end that begin at `end`, or none where they and the gate behind them exceed the
// limit.
pub(crate) fn log_end(limit: u64, end: u64, payloads: &[Vec<u8>]) -> Option<u64>
    ensures { MatchOption result (limit < end + length (log_of (contents_of payloads.now)))
        (λ new. (new ≡ end + length (records_of (contents_of payloads.now))) × (new < limit)) }
{
    let mut at = end;
    for payload in payloads {
        at = at.saturating_add(5).saturating_add(payload.len() as u64);
    }
    if at < limit { Some(at) } else { None }
}

// The bytes of the records, and the closed gate behind them.
pub(crate) fn log_bytes(alloc: Global, payloads: &[Vec<u8>]) -> Result<Vec<u8>, AllocError>
    requires { AreShort (contents_of payloads.now) }
    ensures { IfOk result (λ bytes. bytes.items ≡ log_of (contents_of payloads.now)) }
{
    let mut bytes = Vec::new(alloc);
    for payload in payloads {
        push_record(&mut bytes, payload)?;
    }
    match bytes.push(CLOSED) {
        Ok(()) => Ok(bytes),
        Err(_) => Err(AllocError),
    }
}

// Puts one record behind the bytes.
fn push_record(bytes: &mut Vec<u8>, payload: &[u8]) -> Result<(), AllocError>
    requires { length payload.now < 2 ^ 32 }
    ensures { OnOk result (bytes.new.items ≡ bytes.old.items ++ record_of payload.now) }
{
    let size = (payload.len() as u32).to_le_bytes();
    bytes.extend_from_slice(&[OPEN])?;
    bytes.extend_from_slice(&size)?;
    bytes.extend_from_slice(payload)
}
