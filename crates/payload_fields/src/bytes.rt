//! The bytes of a payload that are still to be read.
ghost use Rattle.std.specs.Prelude.{◌≡◌, ◌<◌, ◌≤◌, ◌^◌, ◌∷◌, length, take, drop, MatchOption, []};
ghost use Rattle.payload_fields.specs.declared.faults.Fault.TheVariants as fault;

use crate::faults::Fault;
use std::marker::Model;

/// A place in a payload, seen as the bytes from there on.
#[derive(Drop)]
pub struct Bytes<'a> {
    rest: &'a [u8],
}

impl<'a> Model for Bytes<'a> {
    ghost use Rattle.std.specs.Prelude.{ℕ, List};

    ghost Value = { List ℕ };

    ghost view = { λ bytes. bytes.rest.now };
}

impl<'a> Bytes<'a> {
    /// The place of the first byte.
    pub fn new(bytes: &'a [u8]) -> Bytes<'a>
        ensures { result ≡ bytes.now }
    {
        Bytes { rest: bytes }
    }

    /// The bytes from here on.
    pub(crate) fn rest(&self) -> &'a [u8]
        ensures { result.now ≡ self.now }
    {
        self.rest
    }

    /// How many bytes are left.
    pub fn left(&self) -> usize
        ensures left { result ≡ length self.now }
        ensures bound { result < 2 ^ 63 }
    {
        self.rest.len()
    }

    /// Goes on behind the next bytes.
    pub(crate) fn skip(&mut self, count: usize)
        requires { count ≤ length self.old }
        ensures { self.new ≡ drop count self.old }
    {
        self.rest = &self.rest[count..];
    }

    /// Takes the next byte, where there is one.
    pub fn byte(&mut self) -> Option<u8>
        ensures { MatchOption result ((self.old ≡ []) × (self.new ≡ []))
            (λ byte. self.old ≡ byte ∷ self.new) }
    {
        let (byte, rest) = self.rest.split_first()?;
        self.rest = rest;
        Some(*byte)
    }

    /// The fault of a field that begins here.
    pub fn bad(&self) -> Fault
        ensures { result ≡ fault.Bad (length self.now) }
    {
        Fault::Bad { left: self.left() }
    }
}
