//! The calls of an object in memory, by number: which of them are to fail, and how many failed.
ghost use Rattle.std.specs.Prelude.{◌≡◌, ◌↔◌, Contains, IfOk, IsErr, if◌then◌else◌, is_ok};
ghost use Rattle.hac_outside.specs.Calls.{IsFailingCall, next_number};

use super::fault::Failed;
use std::alloc::{AllocError, Global};

/// How many calls were made of an object, and which are to fail. At the end of their type its
/// counts stay as they are.
#[derive(Drop)]
pub struct Calls {
    /// The numbers, from 1, of the calls that are to fail.
    pub failing: Vec<u64>,
    /// How many calls there were.
    pub made: u64,
    /// How many faults there were.
    pub faults: u64,
}

impl Calls {
    /// No calls, of which those with these numbers are to fail.
    pub fn new(alloc: Global, failing: &[u64]) -> Result<Calls, AllocError>
        ensures failing { IfOk result (λ calls. calls.failing.items ≡ failing.now) }
        ensures made { IfOk result (λ calls. calls.made ≡ 0) }
        ensures faults { IfOk result (λ calls. calls.faults ≡ 0) }
    {
        Ok(Calls {
            failing: Vec::from_slice(alloc, failing)?,
            made: 0,
            faults: 0,
        })
    }

    /// Numbers the call that begins. One that is to fail is a fault.
    pub fn begin(&mut self) -> Result<(), Failed>
        ensures fails { IsErr result ↔ Contains self.old.failing.items (next_number self.old.made) }
        ensures faults { self.new.faults ≡ (if is_ok result then self.old.faults else next_number
            self.old.faults) }
        ensures made { self.new.made ≡ next_number self.old.made }
        ensures failing { self.new.failing.items ≡ self.old.failing.items }
    {
        self.made = self.made.saturating_add(1);
        if self.failing.contains(&self.made) {
            return Err(self.fail());
        }
        Ok(())
    }

    /// The same, where a call past the last one is a fault too.
    pub fn begin_within(&mut self, last: u64) -> Result<(), Failed>
        ensures fails { IsErr result ↔ IsFailingCall last self.old.failing.items self.old.made }
        ensures faults { self.new.faults ≡ (if is_ok result then self.old.faults else next_number
            self.old.faults) }
        ensures made { self.new.made ≡ next_number self.old.made }
        ensures failing { self.new.failing.items ≡ self.old.failing.items }
    {
        let full = self.made >= last;
        self.made = self.made.saturating_add(1);
        if full || self.failing.contains(&self.made) {
            return Err(self.fail());
        }
        Ok(())
    }

    /// Counts a fault, and gives the answer for it.
    pub fn fail(&mut self) -> Failed
        ensures made { self.new.made ≡ self.old.made }
        ensures failing { self.new.failing.items ≡ self.old.failing.items }
        ensures faults { self.new.faults ≡ next_number self.old.faults }
    {
        self.faults = self.faults.saturating_add(1);
        Failed
    }
}
