//! The documents of a space, with their words.
ghost use Rattle.std.specs.Prelude.{◌≡◌, IfOk};
ghost use Rattle.std.specs.Option.{option_map};
ghost use Rattle.hac_model.specs.Spaces.Answering.{AreRisingNames, names_with, text_at};
ghost use Rattle.hac_model.specs.Spaces.Catalogue.{names};

use crate::texts::Texts;
use crate::word_lists::WordLists;
use hac_model::{Memory, Name, Term};
use std::alloc::Global;
use std::marker::Model;

/// The documents of a space, no two of one name. For each word it keeps the documents that have it,
/// so that a question for a term looks into no text.
#[derive(Drop)]
pub struct Docs {
    alloc: Global,
    texts: Texts,
    lists: WordLists,
}

impl Model for Docs {
    ghost use Rattle.std.specs.Prelude.{List};
    ghost use Rattle.hac_model.specs.Spaces.Catalogue.{Document};
    ghost use Rattle.sem_mounts.specs.WordLists.{AreListed};

    ghost Value = { List Document };

    ghost view = { λ documents. documents.texts };

    ghost invariant = { λ documents. AreListed documents.texts documents.lists };
}

impl Docs {
    /// The documents of these texts.
    pub(crate) fn new(alloc: Global, texts: Texts) -> Result<Docs, Memory>
        ensures { IfOk result (λ documents. documents ≡ texts) }
    {
        Ok(Docs {
            alloc,
            lists: texts.lists()?,
            texts,
        })
    }

    /// The names of the documents, rising.
    pub fn names(&self) -> Result<Vec<Name>, Memory>
        ensures names { IfOk result (λ found. found.items ≡ names self.now) }
        ensures rising { IfOk result (λ found. AreRisingNames found.items) }
    {
        self.texts.names()
    }

    /// The names of the documents whose text has the term, rising. It looks into no text.
    pub fn names_with(&self, term: &Term) -> Result<Vec<Name>, Memory>
        ensures { IfOk result (λ found. found.items ≡ names_with self.now term.now) }
    {
        let marks = self.lists.marks(self.alloc, self.texts.len(), term)?;
        self.texts.names_marked(marks.as_slice())
    }

    /// A copy of the text of the document of that name, if there is one.
    pub fn text(&self, name: &Name) -> Result<Option<Vec<u8>>, Memory>
        ensures { IfOk result (λ text.
            option_map (λ text. text.items) text ≡ text_at self.now name.now) }
    {
        self.texts.text(name)
    }
}
