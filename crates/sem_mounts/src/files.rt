//! Spaces over real files. They tell no contents: no contract can say what a real file holds.
ghost use Rattle.std.specs.Prelude.{◌≡◌, [], IfOk, false, map, not};
ghost use Rattle.sem_mounts.specs.Seen.{has_entry, is_absent, is_failed};

use crate::catalogues::read_texts;
use crate::documents::Docs;
use crate::entries::{copy_of, find, push};
use crate::faults::{AttachFault, SpaceFault};
use crate::spaces::Spaces;
use hac_model::{CATALOGUE_LIMIT, Name, Term};
use std::fs::File;
use std::io::{self, Read};
use std::path::Path;

/// Spaces over catalogue files. A file is read once, when its space is attached. Each error of the
/// system is a fault.
#[derive(Drop)]
pub struct CatalogueSpaces<'a> {
    rt: &'a HostRuntime,
    spaces: Vec<(Name, Docs)>,
    faults: u64,
}

impl<'a> CatalogueSpaces<'a> {
    /// No spaces yet.
    pub fn new(rt: &'a HostRuntime) -> CatalogueSpaces<'a>
        ensures spaces { result.spaces.items ≡ [] }
        ensures faults { result.faults ≡ 0 }
    {
        CatalogueSpaces {
            rt,
            spaces: Vec::new(rt.alloc()),
            faults: 0,
        }
    }
}

impl Spaces for CatalogueSpaces<'_> {
    ghost use Rattle.std.specs.Prelude.{None};

    ghost seen = { λ spaces. record {
      attached = map (λ space. space.0) spaces.spaces.items;
      contents = None;
      faults = spaces.faults;
    } };

    ghost told = { λ spaces. tt };

    fn attach(&mut self, name: &Name, file: &str) -> Result<(), AttachFault> {
        let Ok(bytes) = read_file(self.rt, file) else {
            self.faults = self.faults.saturating_add(1);
            return Err(AttachFault::Failed);
        };
        let texts = read_texts(self.rt.alloc(), &bytes)?;
        // Before the words are listed, so that they take the memory of the bytes.
        drop(bytes);
        let documents = Docs::new(self.rt.alloc(), texts)?;
        push(&mut self.spaces, (copy_of(name)?, documents))?;
        Ok(())
    }

    fn list(&mut self, name: &Name) -> Result<Vec<Name>, SpaceFault> {
        Ok(attached(&self.spaces, name)?.names()?)
    }

    fn search(&mut self, name: &Name, term: &Term) -> Result<Vec<Name>, SpaceFault> {
        Ok(attached(&self.spaces, name)?.names_with(term)?)
    }

    fn fetch(&mut self, name: &Name, document: &Name) -> Result<Option<Vec<u8>>, SpaceFault> {
        Ok(attached(&self.spaces, name)?.text(document)?)
    }
}

// The bytes of a file. Of one that is too long for a catalogue, one byte more than a catalogue may
// have.
fn read_file(rt: &HostRuntime, name: &str) -> io::Result<Vec<u8>> {
    let mut bytes = Vec::new(rt.alloc());
    let most = CATALOGUE_LIMIT as u64 + 1;
    File::open(rt, Path::new(name))?
        .take(most)
        .read_to_end(&mut bytes)?;
    Ok(bytes)
}

// The documents of a space.
fn attached<'a>(spaces: &'a [(Name, Docs)], name: &Name) -> Result<&'a Docs, SpaceFault>
    ensures absent { is_absent result ≡ not (has_entry spaces.now name.now) }
    ensures failed { is_failed result ≡ false }
{
    match find(spaces, name.as_bytes()) {
        Some(documents) => Ok(documents),
        None => Err(SpaceFault::Absent),
    }
}
