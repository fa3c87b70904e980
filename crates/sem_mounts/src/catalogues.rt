//! Catalogues as they are read: one document on a line, its name, a tab and its text.
ghost use Rattle.std.specs.Prelude.{◌≡◌, IfOk};
ghost use Rattle.std.specs.List.{list_all};
ghost use Rattle.hac_model.specs.Bytes.{is_space};
ghost use Rattle.hac_model.specs.Spaces.Catalogue.{catalogue, content, with_line};
ghost use Rattle.sem_mounts.specs.Reading.{Adds, ReadsCatalogue, with_spelled};

use crate::documents::Docs;
use crate::spelled::spelled_text;
use crate::splitting::split_once;
use crate::texts::Texts;
use bstr::ByteSlice;
use hac_model::{CATALOGUE_LIMIT, Memory, Name, TEXT_LIMIT, Text};
use hac_names::is_name;
use std::alloc::Global;
use thiserror::Error;

/// Why bytes are no catalogue.
#[derive(Clone, Copy, Debug, PartialEq, Eq, Error)]
pub enum CatalogueFault {
    /// A line is bad.
    #[error("line {line} of the catalogue is bad")]
    Bad {
        /// The number of the first bad line, from 1.
        line: u64,
    },
    /// Memory ran out.
    #[error("out of memory")]
    Memory,
}

impl From<Memory> for CatalogueFault {
    ghost use Rattle.sem_mounts.specs.declared.catalogues.CatalogueFault.TheVariants as fault;

    ghost from_gives = { λ _ e. e ≡ fault.Memory };

    fn from(_memory: Memory) -> CatalogueFault {
        CatalogueFault::Memory
    }
}

/// The documents of a catalogue. A line is bad where it isn't a name, a tab and a text as `write`
/// spells it, where the name was there before, and where the catalogue has more bytes up to its end
/// than it may have. A blank line is none.
pub fn read_catalogue(alloc: Global, bytes: &[u8]) -> Result<Docs, CatalogueFault>
    ensures { ReadsCatalogue result (catalogue bytes.now) }
{
    let texts = read_texts(alloc, bytes)?;
    Ok(Docs::new(alloc, texts)?)
}

/// The names and texts of a catalogue. The bytes are needed no longer than they are read.
pub(crate) fn read_texts(alloc: Global, bytes: &[u8]) -> Result<Texts, CatalogueFault>
    ensures { ReadsCatalogue result (catalogue bytes.now) }
{
    let mut documents = Texts::new(alloc);
    let mut room = CATALOGUE_LIMIT;
    let mut number = 1;
    for line in bytes.lines_with_terminator() {
        if line.len() > room || !take_line(alloc, &mut documents, content(line))? {
            return Err(CatalogueFault::Bad { line: number });
        }
        room -= line.len();
        number += 1;
    }
    Ok(documents)
}

/// A line without its end.
fn content(line: &[u8]) -> &[u8]
    ensures { result.now ≡ content line.now }
{
    match split_once(line, b'\n') {
        Some((content, _)) => content,
        None => line,
    }
}

/// Whether a line is blank.
fn is_blank(line: &[u8]) -> bool
    ensures { result ≡ list_all is_space line.now }
{
    line.iter().all(|b| *b == b' ')
}

/// Adds the document of a line, where the line isn't blank. Where the line is bad it doesn't, and
/// says so.
#[tactic(auto, unfolding(hac_model::specs::Spaces::Catalogue::with_line))]
fn take_line(alloc: Global, documents: &mut Texts, line: &[u8]) -> Result<bool, Memory>
    ensures { IfOk result (Adds (with_line documents.old line.now) documents.new) }
{
    if is_blank(line) {
        return Ok(true);
    }
    match split_once(line, b'\t') {
        Some((name, bytes)) => take_document(alloc, documents, name, bytes),
        None => Ok(false),
    }
}

/// Adds the document of this name whose text the bytes spell. Where the name or the text is bad, or
/// where there is a document of the name, it doesn't, and says so.
fn take_document(
    alloc: Global,
    documents: &mut Texts,
    name: &[u8],
    bytes: &[u8],
) -> Result<bool, Memory>
    ensures { IfOk result (Adds (with_spelled documents.old name.now bytes.now) documents.new) }
{
    if !is_name(name) {
        return Ok(false);
    }
    match spelled_text(alloc, bytes)? {
        Some(text) if text.len() as u64 <= TEXT_LIMIT => {
            let name = Name::new(name.to_vec(alloc)?);
            documents.add(name, Text::new(text))
        }
        _ => Ok(false),
    }
}
