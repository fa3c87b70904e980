//! What is at a place of a log.
ghost use Rattle.hac_journal.specs.Finding.{Shows};

use super::records::OPEN;
use byteorder::{ByteOrder, LittleEndian};

/// What is at a place of a log.
#[derive(Drop)]
pub enum Next {
    /// A record, its payload, and the place of the gate behind it.
    Entry {
        /// The payload of the record, without its gate and its length.
        payload: Vec<u8>,
        /// Where to look next.
        next: u64,
    },
    /// A gate that isn't open: the log ends here.
    End,
    /// The file ends before the record does, or before its gate.
    Bad {
        /// The file's length.
        at: u64,
    },
}

// What the first bytes of a record, or some of them, say.
#[derive(Clone, Copy)]
pub(crate) enum Look {
    // A record with a payload of that size; the next gate is there too.
    Record(usize),
    // A gate that isn't open.
    ClosedGate,
    // This many bytes are needed to say more.
    Needs(usize),
}

// Looks at the bytes from a gate on.
pub(crate) fn look_at(bytes: &[u8]) -> Look
    ensures { Shows result bytes.now }
{
    if bytes.is_empty() {
        return Look::Needs(1);
    }
    let is_open = bytes[0] == OPEN;
    if !is_open {
        return Look::ClosedGate;
    }
    if bytes.len() < 5 {
        return Look::Needs(5);
    }
    let size = LittleEndian::read_u32(&bytes[1..]) as usize;
    if bytes.len() < 6 + size {
        return Look::Needs(6 + size);
    }
    Look::Record(size)
}
