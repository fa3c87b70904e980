//! Paths of entries, found by steps over parents.
ghost use Rattle.std.specs.Prelude.{◌≡◌, ◌==◌, ◌++◌, map, reverse, IfOk, IsTrue, OnOk};
ghost use Rattle.std.specs.List.{list_any};
ghost use Rattle.hac_model.specs.Tree.{ancestors, extends, path_of};
ghost use Rattle.hac_model.specs.Tree.{is_live};
ghost use Rattle.hac_model.specs.Tree.Events.{is_inside};

use crate::tree::Tree;
use hac_model::{Memory, Number, PATH_LIMIT, Path};
use tree_nodes::entry_at;

impl Tree {
    /// The path of an entry. That of the root has no names.
    pub fn path_of(&self, entry: Number) -> Result<Path, Memory>
        ensures { IfOk result (λ path. path ≡ path_of self.now.state entry) }
    {
        let mut path = Path::root(self.alloc);
        self.push_names(PATH_LIMIT + 1, entry, &mut path)?;
        Ok(path)
    }

    /// Goes down by the names that lead to an entry, at most `steps` of them.
    fn push_names(&self, steps: u64, entry: Number, path: &mut Path) -> Result<(), Memory>
        ensures { OnOk result (path.new ≡ path.old ++
            reverse (map (λ entry. entry.name) (ancestors steps self.now.state.entries entry))) }
    {
        if steps == 0 {
            return Ok(());
        }
        let Some(node) = entry_at(&self.nodes, entry) else {
            return Ok(());
        };
        self.push_names(steps - 1, node.parent, path)?;
        path.push(node.name.clone()?)
    }

    /// Whether an entry is below a directory, at any depth.
    pub fn is_below(&self, item: Number, dir: Number) -> bool
        requires item { IsTrue (is_live self.now.state.entries item) }
        requires dir { IsTrue (is_live self.now.state.entries dir) }
        ensures { result ≡ extends (path_of self.now.state item) (path_of self.now.state dir) }
    {
        self.know_layout();
        self.leads_up(PATH_LIMIT + 1, item, dir)
    }

    /// Whether what has a number is an entry, or is below it. It goes up from the number.
    pub fn is_inside(&self, number: Number, entry: Number) -> bool
        requires number { IsTrue (is_live self.now.state.entries number) }
        requires entry { IsTrue (is_live self.now.state.entries entry) }
        ensures { result ≡ is_inside self.now.state number entry }
    {
        number == entry || self.is_below(number, entry)
    }

    /// Whether at most `steps` steps over parents lead from an entry to a directory.
    fn leads_up(&self, steps: u64, item: Number, dir: Number) -> bool
        ensures { result ≡ list_any (λ entry. entry.parent == dir)
            (ancestors steps self.now.state.entries item) }
    {
        if steps == 0 {
            return false;
        }
        match entry_at(&self.nodes, item) {
            Some(node) => node.parent == dir || self.leads_up(steps - 1, node.parent, dir),
            None => false,
        }
    }
}
