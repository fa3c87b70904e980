//! Runs of bytes in the order of their bytes. Each keeps its first bytes as a number, so that most
//! pairs are told apart by one comparison.
ghost use Rattle.std.specs.Prelude.{◌≡◌, Some, nat_eq, refl};
ghost use Rattle.std.specs.Cmp.{partial_equiv_from_equiv};
ghost use Rattle.std.specs.Cmp.Lexicographic.{nat_list_cmp_total, nat_list_eq_equiv, pointwise};
ghost use Rattle.std.specs.Cmp.Lexicographic.{slice_cmp, texts_po, texts_ties};
ghost use Rattle.std.specs.Ordering.{nat_cmp};
ghost use Rattle.hac_words.specs.Fronts.{front_of};

use std::cmp::Ordering;
use std::marker::Model;

/// A run of bytes of a text, seen as these.
#[derive(Drop)]
pub(crate) struct Run<'t> {
    front: u64,
    bytes: &'t [u8],
}

impl<'t> Model for Run<'t> {
    ghost use Rattle.std.specs.Prelude.{ℕ, List};
    ghost use Rattle.hac_words.specs.Fronts.{IsFront};

    ghost Value = { List ℕ };

    ghost view = { λ run. run.bytes.now };

    ghost invariant = { λ run. IsFront run.front run.bytes.now };
}

impl<'t> Run<'t> {
    /// The run of these bytes.
    pub(crate) fn new(bytes: &'t [u8]) -> Run<'t>
        ensures { result ≡ bytes.now }
    {
        Run {
            front: front_of(bytes),
            bytes,
        }
    }

    /// Its bytes.
    pub(crate) fn as_bytes(&self) -> &[u8]
        ensures { result.now ≡ self.now }
    {
        self.bytes
    }
}

impl<'t> PartialEq for Run<'t> {
    ghost eq = { pointwise nat_eq };

    ghost laws = { partial_equiv_from_equiv nat_list_eq_equiv };

    fn eq(&self, other: &Run<'t>) -> bool {
        self.front == other.front && self.bytes == other.bytes
    }
}

impl<'t> Eq for Run<'t> {
    ghost laws = { nat_list_eq_equiv };
}

impl<'t> PartialOrd for Run<'t> {
    ghost partial_cmp = { λ x y. Some (slice_cmp nat_cmp x y) };

    ghost laws = { texts_po };

    fn partial_cmp(&self, other: &Run<'t>) -> Option<Ordering> {
        Some(self.cmp(other))
    }
}

impl<'t> Ord for Run<'t> {
    ghost cmp = { slice_cmp nat_cmp };

    ghost total = { nat_list_cmp_total };

    ghost matches_partial_cmp = { λ x y. refl };

    ghost matches_eq = { texts_ties };

    fn cmp(&self, other: &Run<'t>) -> Ordering {
        match self.front.cmp(&other.front) {
            Ordering::Equal => self.bytes.cmp(other.bytes),
            apart => apart,
        }
    }
}

// The first eight bytes as a number, with 0 for each that is missing.
fn front_of(bytes: &[u8]) -> u64
    ensures { result ≡ front_of 8 bytes.now }
{
    let mut front = [0; 8];
    let part = &bytes[..bytes.len().min(8)];
    front[..part.len()].copy_from_slice(part);
    u64::from_be_bytes(front)
}
