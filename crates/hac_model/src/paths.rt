//! Paths, and the words of a command that lead to them.
ghost use Rattle.std.specs.Prelude.{◌≡◌, ◌==◌, ◌++◌, ◌∷◌, ◌-◌, [], length, take, OnOk, OnErr};
ghost use Rattle.std.specs.Prelude.{nat_eq};
ghost use Rattle.std.specs.Cmp.{partial_equiv_from_equiv};
ghost use Rattle.std.specs.Cmp.Lexicographic.{pointwise, lists_equiv, nat_list_eq_equiv};

use crate::bytes::Name;
use crate::memory::Memory;
use std::alloc::{AllocError, Global};
use std::marker::Model;

/// The names that lead from the root to an entry. The path of the root has none.
#[derive(Debug, Drop)]
pub struct Path(Vec<Name>);

impl Model for Path {
    ghost use Rattle.std.specs.Prelude.{ℕ, List};

    ghost Value = { List (List ℕ) };

    ghost view = { λ p. p.0.items };
}

impl Path {
    /// The root.
    pub fn root(alloc: Global) -> Path
        ensures { result ≡ [] }
    {
        Path(Vec::new(alloc))
    }

    /// The path with these names.
    pub fn new(names: Vec<Name>) -> Path
        ensures { result ≡ names.items }
    {
        Path(names)
    }

    /// The names in order, the one below the root first.
    pub fn as_slice(&self) -> &[Name]
        ensures { result.now ≡ self.now }
    {
        self.0.as_slice()
    }

    /// How many names the path has.
    pub fn len(&self) -> usize
        ensures { result ≡ length self.now }
    {
        self.0.len()
    }

    /// Whether the path is the root.
    pub fn is_root(&self) -> bool
        ensures { result ≡ (length self.now == 0) }
    {
        self.0.is_empty()
    }

    /// Goes down by a name.
    pub fn push(&mut self, name: Name) -> Result<(), Memory>
        ensures ok { OnOk result (self.new ≡ self.old ++ name ∷ []) }
        ensures err { OnErr result (self.new ≡ self.old) }
    {
        self.0.push(name)?;
        Ok(())
    }

    /// Goes up by a name. The root is its own parent.
    pub fn pop(&mut self)
        ensures { self.new ≡ take (length self.old - 1) self.old }
    {
        self.0.pop();
    }

    /// Goes down by copies of names.
    pub fn extend(&mut self, names: &[Name]) -> Result<(), Memory>
        ensures ok { OnOk result (self.new ≡ self.old ++ names.now) }
        ensures err { OnErr result (self.new ≡ self.old) }
    {
        self.0.extend_with_clones(names)?;
        Ok(())
    }
}

impl Clone for Path {
    ghost is_clone = { λ path copy. copy ≡ path };

    fn clone(&self) -> Result<Path, AllocError> {
        Ok(Path(self.0.clone()?))
    }
}

impl PartialEq for Path {
    ghost eq = { pointwise (pointwise nat_eq) };

    ghost laws = { partial_equiv_from_equiv (lists_equiv nat_list_eq_equiv) };

    fn eq(&self, other: &Path) -> bool {
        self.as_slice() == other.as_slice()
    }
}

impl Eq for Path {
    ghost laws = { lists_equiv nat_list_eq_equiv };
}

/// A path word as it was read: where it begins, and how it leads on.
#[derive(Debug, Drop, PartialEq, Eq)]
pub struct PathWord {
    /// It begins at the root, and not at the session's directory.
    pub absolute: bool,
    /// How many names it first leads up: 0 for an absolute word, since the root is its own parent.
    pub ups: u64,
    /// The names by which it then leads down.
    pub names: Path,
}

impl Clone for PathWord {
    ghost is_clone = { λ word copy. copy ≡ word };

    fn clone(&self) -> Result<PathWord, AllocError> {
        Ok(PathWord {
            absolute: self.absolute,
            ups: self.ups,
            names: self.names.clone()?,
        })
    }
}
