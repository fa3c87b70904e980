//! What is known of an item in a directory.
ghost use Rattle.std.specs.Prelude.{◌≡◌, ◌||◌, if◌then◌else◌};
ghost use Rattle.hac_model.specs.declared.marks.Kind.TheVariants.{Transient, Unlinked};
ghost use Rattle.reeval.specs.Told.{are_same, latest};

use hac_model::{Kind, Number};

/// Whether a directory finds an item, and whether the item is lent to it.
#[derive(Clone, Copy, Debug)]
pub struct Verdict {
    /// Its query finds the item.
    pub found: bool,
    /// A directory that was added to it provides the item.
    pub lent: bool,
}

/// A new verdict of a directory on an item.
#[derive(Clone, Copy, Debug)]
pub struct Change {
    /// The directory.
    pub dir: Number,
    /// The item.
    pub item: Number,
    /// What the directory says of it now.
    pub verdict: Verdict,
}

impl Verdict {
    /// Whether the item is linked by it, in one way or both.
    pub fn is_linked(self) -> bool
        ensures { result ≡ (self.found || self.lent) }
    {
        self.found || self.lent
    }

    /// The kind of the link that the directory finds, if it finds the item.
    pub fn kind(self) -> Kind
        ensures { result ≡ (if self.found then Transient else Unlinked) }
    {
        if self.found {
            Kind::Transient
        } else {
            Kind::Unlinked
        }
    }

    /// Whether both say the same.
    pub fn is_same(self, other: Verdict) -> bool
        ensures { result ≡ are_same self other }
    {
        self.found == other.found && self.lent == other.lent
    }
}

/// The last of the new verdicts of a directory, or else the one that it had.
pub fn latest(news: &[Change], dir: Number, had: Verdict) -> Verdict
    ensures { result ≡ latest news.now dir had }
{
    let mut verdict = had;
    for change in news {
        if change.dir == dir {
            verdict = change.verdict;
        }
    }
    verdict
}
