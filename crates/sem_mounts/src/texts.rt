//! Texts by the names of their documents.
ghost use Rattle.std.specs.Prelude.{◌≡◌, [], IfOk, IsTrue, length};
ghost use Rattle.std.specs.Option.{option_map};
ghost use Rattle.hac_model.specs.Tree.Names.{is_name};
ghost use Rattle.hac_model.specs.Spaces.Answering.{AreRisingNames, text_at};
ghost use Rattle.hac_model.specs.Spaces.Catalogue.{names, with_document};
ghost use Rattle.sem_mounts.specs.Reading.{Adds};
ghost use Rattle.sem_mounts.specs.WordLists.{AreListed, marked};

use crate::word_lists::WordLists;
use hac_model::{Memory, Name, Text};
use std::alloc::Global;
use std::collections::BTreeMap;
use std::marker::Model;

/// Documents as they are gathered, no two of one name.
#[derive(Drop)]
pub(crate) struct Texts {
    alloc: Global,
    texts: BTreeMap<Name, Text>,
}

impl Model for Texts {
    ghost use Rattle.std.specs.Prelude.{All, IsTrue, List};
    ghost use Rattle.std.specs.Map.{keys_of};
    ghost use Rattle.hac_model.specs.Tree.Names.{is_name};
    ghost use Rattle.hac_model.specs.Spaces.Catalogue.{Document};

    ghost Value = { List Document };

    ghost view = { λ documents. documents.texts.entries };

    ghost invariant = { λ documents.
        All (λ name. IsTrue (is_name name)) (keys_of documents.texts.entries) };
}

impl Texts {
    /// No documents.
    pub(crate) fn new(alloc: Global) -> Texts
        ensures { result ≡ [] }
    {
        Texts {
            alloc,
            texts: BTreeMap::new(alloc),
        }
    }

    /// Adds a document. Where there is one of its name it doesn't, and says so.
    pub(crate) fn add(&mut self, name: Name, text: Text) -> Result<bool, Memory>
        requires { IsTrue (is_name name) }
        ensures { IfOk result (Adds (with_document self.old (name, text)) self.new) }
    {
        Ok(self.texts.insert(name, text)?.is_none())
    }

    /// How many documents there are.
    pub(crate) fn len(&self) -> usize
        ensures { result ≡ length self.now }
    {
        self.texts.len()
    }

    /// The names of the documents, rising.
    pub(crate) fn names(&self) -> Result<Vec<Name>, Memory>
        ensures names { IfOk result (λ found. found.items ≡ names self.now) }
        ensures rising { IfOk result (λ found. AreRisingNames found.items) }
    {
        let mut found = Vec::with_capacity(self.alloc, self.texts.len())?;
        for name in self.texts.keys() {
            found.push(name.clone()?)?;
        }
        Ok(found)
    }

    /// The names of those documents whose mark is set, rising.
    pub(crate) fn names_marked(&self, marks: &[bool]) -> Result<Vec<Name>, Memory>
        ensures { IfOk result (λ found. found.items ≡ marked (names self.now) marks.now) }
    {
        let mut found = Vec::new(self.alloc);
        for (name, is_marked) in self.texts.keys().zip(marks) {
            if *is_marked {
                found.push(name.clone()?)?;
            }
        }
        Ok(found)
    }

    /// A copy of the text of the document of that name, if there is one.
    pub(crate) fn text(&self, name: &Name) -> Result<Option<Vec<u8>>, Memory>
        ensures { IfOk result (λ text.
            option_map (λ text. text.items) text ≡ text_at self.now name.now) }
    {
        match self.texts.get(name) {
            Some(text) => Ok(Some(Vec::from_slice(self.alloc, text.as_slice())?)),
            None => Ok(None),
        }
    }

    /// For each word the documents that have it.
    pub(crate) fn lists(&self) -> Result<WordLists, Memory>
        ensures { IfOk result (AreListed self.now) }
    {
        WordLists::of(self.alloc, &self.texts)
    }
}
