//! How an item is linked in a semantic directory.
ghost use Rattle.std.specs.Prelude.{◌≡◌};
ghost use Rattle.hac_model.specs.Tree.Kinds.{is_linked, is_permanent, is_prohibited, is_transient};
ghost use Rattle.hac_model.specs.Tree.Kinds.{is_unlinked};

use crate::numbers::Number;

/// The kind of an item's link in a semantic directory.
#[derive(Clone, Copy, Debug, PartialEq, Eq)]
pub enum Kind {
    /// The query finds the item.
    Transient,
    /// The user added the item.
    Permanent,
    /// The user removed the item, and the system never puts it back.
    Prohibited,
    /// The item isn't linked, and has no mark.
    Unlinked,
}

impl Kind {
    /// Whether the query finds the item.
    pub fn is_transient(self) -> bool
        ensures { result ≡ is_transient self }
    {
        matches!(self, Kind::Transient)
    }

    /// Whether the user added the item.
    pub fn is_permanent(self) -> bool
        ensures { result ≡ is_permanent self }
    {
        matches!(self, Kind::Permanent)
    }

    /// Whether the user removed the item.
    pub fn is_prohibited(self) -> bool
        ensures { result ≡ is_prohibited self }
    {
        matches!(self, Kind::Prohibited)
    }

    /// Whether the item is neither linked nor marked.
    pub fn is_unlinked(self) -> bool
        ensures { result ≡ is_unlinked self }
    {
        matches!(self, Kind::Unlinked)
    }

    /// Whether the item is a link, found or added.
    pub fn is_linked(self) -> bool
        ensures { result ≡ is_linked self }
    {
        matches!(self, Kind::Transient | Kind::Permanent)
    }
}

/// A mark that an item gets in a semantic directory.
#[derive(Clone, Copy, Debug, PartialEq, Eq)]
pub struct Mark {
    /// The directory.
    pub dir: Number,
    /// The item.
    pub item: Number,
    /// What the item is there from now on: permanent or prohibited, or unlinked where its mark is
    /// removed.
    pub kind: Kind,
}
