//! Numbers of documents.
ghost use Rattle.std.specs.Prelude.{◌≡◌, ◌∷◌, ◌||◌, ℕ, [], IfOk, OnOk, nat_eq};
ghost use Rattle.std.specs.List.{list_any};

use hac_model::Memory;
use std::alloc::Global;
use std::marker::Model;

/// Some numbers, in the order in which they were put. The one put last is kept beside the others,
/// since a look at those may have to wait for memory.
#[derive(Drop)]
pub(crate) struct Numbers {
    last: u32,
    all: Vec<u32>,
}

impl Model for Numbers {
    ghost use Rattle.std.specs.Prelude.{ℕ, IsTrue, List, nat_eq};
    ghost use Rattle.std.specs.List.{list_any};

    ghost Value = { List ℕ };

    ghost view = { λ numbers. numbers.all.items };

    ghost invariant = { λ numbers. IsTrue (list_any (nat_eq numbers.last) numbers.all.items) };
}

impl Numbers {
    /// One number.
    pub(crate) fn one(alloc: Global, number: u32) -> Result<Numbers, Memory>
        ensures { IfOk result (λ numbers. numbers ≡ number ∷ []) }
    {
        Ok(Numbers {
            last: number,
            all: vec![in alloc; number]?,
        })
    }

    /// Puts a number behind the others, unless it is the one that was put last.
    pub(crate) fn put(&mut self, number: u32) -> Result<(), Memory>
        ensures { OnOk result ((n : ℕ) → list_any (nat_eq n) self.new
            ≡ (nat_eq n number || list_any (nat_eq n) self.old)) }
    {
        if self.last != number {
            self.all.push(number)?;
            self.last = number;
        }
        Ok(())
    }

    pub(crate) fn as_slice(&self) -> &[u32]
        ensures { result.now ≡ self.now }
    {
        self.all.as_slice()
    }
}
