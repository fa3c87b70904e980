//! Places, entries and directories to which path words lead, and refusals where they lead to none.
ghost use Rattle.std.specs.Prelude.{◌≡◌, Some};
ghost use Rattle.hac_model.specs.Run.Answers.{Answers, Refuses};
ghost use Rattle.hac_model.specs.Run.Resolving.{place, entry, directory, directory_or_root};
ghost use Rattle.hac_model.specs.Run.Resolving.{holder, listed_directory, mount_of};
ghost use Rattle.hac_model.specs.Run.Resolving.{numbered_query, outside_mounts, own_entry, slot};
ghost use Rattle.hac_model.specs.Tree.{path_of};

use crate::placing::{self, Stop, named};
use file_tree::Tree;
use hac_model::{Deny, Node, Number, PathWord, Place, Query, RawQuery, Refusal};
use std::alloc::Global;
use std::marker::Model;

/// Follows path words through a tree, from the directory in which they begin.
#[derive(Drop)]
pub(crate) struct Resolver<'a> {
    pub(crate) alloc: Global,
    pub(crate) tree: &'a Tree,
    pub(crate) base: Number,
}

impl<'a> Model for Resolver<'a> {
    ghost use Rattle.command_paths.specs.Resolver.{Standing, standing_code};

    ghost Value = { Standing };

    ghost coded = { standing_code };

    ghost use Rattle.command_paths.specs.Resolver.{standing_of, StandsInDirectory};

    ghost view = { standing_of };

    ghost invariant = { StandsInDirectory };
}

impl<'a> Resolver<'a> {
    /// Where a path word leads. A symbolic link as its last name is followed or not.
    pub(crate) fn place(&self, word: &PathWord, follow: bool) -> Result<Place, Deny>
        ensures { Answers result (place self.now.state self.now.base follow word.now) }
    {
        match placing::place(self.alloc, self.tree, self.base, word, follow) {
            Ok(place) => Ok(place),
            Err(Stop::Missing(path)) => Err(Deny::Refused(Refusal::NoPath(path))),
            Err(Stop::NotDir(path)) => Err(Deny::Refused(Refusal::NotDir(path))),
            Err(Stop::Loop(path)) => Err(Deny::Refused(Refusal::Loop(path))),
            Err(Stop::Memory) => Err(Deny::Memory),
        }
    }

    /// Where a path word leads, so that something can be put there: not into a mount.
    pub(crate) fn slot(&self, word: &PathWord, follow: bool) -> Result<Place, Deny>
        ensures { Answers result (slot self.now.state self.now.base follow word.now) }
    {
        match self.place(word, follow) {
            Ok(found) => outside_mounts(self.tree, found),
            Err(deny) => Err(deny),
        }
    }

    /// The entry to which a path word leads, or the root. A symbolic link as its last name is followed
    /// or not.
    pub(crate) fn entry(&self, word: &PathWord, follow: bool) -> Result<Number, Deny>
        ensures { Answers result (entry self.now.state self.now.base follow word.now) }
    {
        match self.place(word, follow)? {
            Place::There(number) => Ok(number),
            Place::Free { dir, name } => Err(Deny::Refused(Refusal::NoPath(named(
                self.tree, dir, name,
            )?))),
        }
    }

    /// The entry to which a path word leads, or the root, which isn't a document.
    pub(crate) fn own_entry(&self, word: &PathWord, follow: bool) -> Result<Number, Deny>
        ensures { Answers result (own_entry self.now.state self.now.base follow word.now) }
    {
        let number = self.entry(word, follow)?;
        if self.tree.is_document(number) {
            return Err(in_mount(self.tree, self.tree.parent(number)));
        }
        Ok(number)
    }

    /// The directory to which a path word leads.
    pub(crate) fn directory(&self, word: &PathWord) -> Result<Number, Deny>
        ensures { Answers result (directory self.now.state self.now.base word.now) }
    {
        let number = self.entry(word, true)?;
        if self.tree.is_directory(number) {
            Ok(number)
        } else {
            Err(Deny::Refused(Refusal::NotDir(self.tree.path_of(number)?)))
        }
    }

    /// The directory to which a path word leads, which isn't a mount.
    pub(crate) fn holder(&self, word: &PathWord) -> Result<Number, Deny>
        ensures { Answers result (holder self.now.state self.now.base word.now) }
    {
        let dir = self.directory(word)?;
        if self.tree.is_mount(dir) {
            return Err(in_mount(self.tree, dir));
        }
        Ok(dir)
    }

    /// The directory to which a path word leads, the one from which it would lead on if none is given.
    pub(crate) fn listed_directory(&self, word: &Option<PathWord>) -> Result<Number, Deny>
        ensures { Answers result (listed_directory self.now.state self.now.base word.now) }
    {
        match word {
            Some(word) => self.directory(word),
            None => Ok(self.base),
        }
    }

    /// The directory to which a path word leads, the root if none is given.
    pub(crate) fn directory_or_root(&self, word: &Option<PathWord>) -> Result<Number, Deny>
        ensures { Answers result (directory_or_root self.now.state self.now.base word.now) }
    {
        match word {
            Some(word) => self.directory(word),
            None => Ok(Number::ROOT),
        }
    }

    /// The query with each directory by its number. It goes down as deep as the query does.
    pub(crate) fn numbered_query(&self, query: RawQuery) -> Result<Query<Number>, Deny>
        ensures { Answers result (numbered_query self.now.state self.now.base query) }
    {
        match query.node {
            Node::Term(term) => Ok(Query::term(term)),
            Node::Dir(word) => Ok(Query::dir(self.directory(&word)?)),
            Node::Not(query) => {
                let inner = self.numbered_query(Box::into_inner(query))?;
                Ok(Query::negation(self.alloc, inner)?)
            }
            Node::And(left, right) => {
                let first = self.numbered_query(Box::into_inner(left))?;
                let second = self.numbered_query(Box::into_inner(right))?;
                Ok(Query::both(self.alloc, first, second)?)
            }
            Node::Or(left, right) => {
                let first = self.numbered_query(Box::into_inner(left))?;
                let second = self.numbered_query(Box::into_inner(right))?;
                Ok(Query::either(self.alloc, first, second)?)
            }
        }
    }
}

/// The place, which isn't to be in a mount.
fn outside_mounts(tree: &Tree, found: Place) -> Result<Place, Deny>
    ensures { Answers result (outside_mounts tree.now.state found) }
{
    match mount_of(tree, &found) {
        Some(mount) => {
            drop(found);
            Err(in_mount(tree, mount))
        }
        None => Ok(found),
    }
}

/// The mount to which a place belongs: that of a document, or one in which nothing has the name.
fn mount_of(tree: &Tree, found: &Place) -> Option<Number>
    ensures { result ≡ mount_of tree.now.state found.now }
{
    match found {
        Place::There(number) => {
            if tree.is_document(*number) {
                Some(tree.parent(*number))
            } else {
                None
            }
        }
        Place::Free { dir, .. } => {
            if tree.is_mount(*dir) {
                Some(*dir)
            } else {
                None
            }
        }
    }
}

/// The entries of a mount belong to its space.
fn in_mount(tree: &Tree, mount: Number) -> Deny
    ensures { Refuses result (Some (Refusal.InMount (path_of tree.now.state mount))) }
{
    match tree.path_of(mount) {
        Ok(path) => Deny::Refused(Refusal::InMount(path)),
        Err(_) => Deny::Memory,
    }
}
