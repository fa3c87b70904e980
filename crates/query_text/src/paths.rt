//! The paths of directories that queries name.
ghost use Rattle.std.specs.Prelude.{◌≡◌, ◌∷◌, ◌++◌, [], MatchOption, OnOk, OnErr, Some, None};

use hac_model::{Memory, Number, Path};
use std::alloc::Global;
use std::marker::Model;

/// A directory and its path.
#[derive(Debug, Drop)]
pub struct NamedDir {
    /// The directory.
    pub dir: Number,
    /// The names that lead to it from the root.
    pub path: Path,
}

/// The paths of directories: of each directory the first one that it was given.
#[derive(Debug, Drop)]
pub struct Paths(Vec<NamedDir>);

impl Model for Paths {
    ghost use Rattle.std.specs.Prelude.{List};
    ghost use Rattle.query_text.specs.declared.paths.NamedDir.{NamedDir};

    ghost Value = { List NamedDir };

    ghost view = { λ paths. paths.0.items };
}

impl Paths {
    /// No paths.
    pub fn new(alloc: Global) -> Paths
        ensures { result ≡ [] }
    {
        Paths(Vec::new(alloc))
    }

    /// Gives a directory a path.
    pub fn add(&mut self, dir: Number, path: Path) -> Result<(), Memory>
        ensures ok { OnOk result (self.new ≡ self.old ++ record { dir = dir; path = path } ∷ []) }
        ensures err { OnErr result (self.new ≡ self.old) }
    {
        self.0.push(NamedDir { dir, path })?;
        Ok(())
    }

    /// What was given, in order.
    pub(crate) fn as_slice(&self) -> &[NamedDir]
        ensures { result.now ≡ self.now }
    {
        self.0.as_slice()
    }
}
