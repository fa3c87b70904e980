//! Spaces in memory, which fail at chosen calls.
ghost use Rattle.std.specs.Prelude.{◌≡◌, ◌⊎◌, ◌↔◌, ◌++◌, ◌∷◌, [], false, Contains, IfOk, IsErr};
ghost use Rattle.std.specs.Prelude.{IsFalse, IsTrue, OnErr, OnOk, if◌then◌else◌, is_ok, not, refl};
ghost use Rattle.std.specs.Prelude.{Some};
ghost use Rattle.std.specs.Map.{lookup};
ghost use Rattle.std.specs.Option.{option_copied, option_map};
ghost use Rattle.std.specs.Str.{bytes_eq};
ghost use Rattle.hac_outside.specs.Calls.{next_number};
ghost use Rattle.hac_model.specs.Spaces.Answering.{AreRisingNames, names_with, text_at};
ghost use Rattle.hac_model.specs.Spaces.Catalogue.{names};
ghost use Rattle.sem_mounts.specs.Memory.{FailsToAnswer, FailsToAttach, IsNextCall};
ghost use Rattle.sem_mounts.specs.Memory.{is_out_of_memory};
ghost use Rattle.sem_mounts.specs.Seen.{AreAsked, Attaches, CountsFault, IsSaid, has_entry};
ghost use Rattle.sem_mounts.specs.Seen.{is_absent, is_attach_failed, is_attached, is_failed};

use crate::catalogues::read_catalogue;
use crate::documents::Docs;
use crate::entries::{copy_of, find, push};
use crate::faults::{AttachFault, SpaceFault};
use crate::spaces::Spaces;
use hac_model::{Memory, Name, Term, Text};
use hac_outside::{Calls, Failed};
use std::alloc::Global;
use std::marker::Model;

/// Spaces over files in memory. A call that is to fail is a fault, and so is `attach` of a file
/// that is missing.
#[derive(Drop)]
pub struct MemorySpaces {
    alloc: Global,
    files: Vec<(Name, Text)>,
    spaces: Vec<(Name, Docs)>,
    attaches: Vec<(Name, Name)>,
    calls: Calls,
}

impl Model for MemorySpaces {
    ghost use Rattle.std.specs.Prelude.{◌<◌, ◌^◌};
    ghost use Rattle.sem_mounts.specs.Memory.{MemoryState};

    ghost Value = { MemoryState };

    ghost view = { λ spaces. record {
      contents = record {
        files = spaces.files.items;
        spaces = spaces.spaces.items;
        calls = spaces.attaches.items;
      };
      failing = spaces.calls.failing.items;
      made = spaces.calls.made;
      faults = spaces.calls.faults;
    } };

    ghost invariant = { λ spaces. spaces.calls.faults < 2 ^ 64 };
}

impl MemorySpaces {
    /// Spaces over files, each with its name and its bytes. None is attached. A call whose number,
    /// from 1, is in `failing` is a fault.
    pub fn new(
        alloc: Global,
        files: &[(Name, Text)],
        failing: &[u64],
    ) -> Result<MemorySpaces, Memory>
        ensures files { IfOk result (λ spaces. spaces.contents.files ≡ files.now) }
        ensures spaces { IfOk result (λ spaces. spaces.contents.spaces ≡ []) }
        ensures calls { IfOk result (λ spaces. spaces.contents.calls ≡ []) }
        ensures failing { IfOk result (λ spaces. spaces.failing ≡ failing.now) }
        ensures made { IfOk result (λ spaces. spaces.made ≡ 0) }
        ensures faults { IfOk result (λ spaces. spaces.faults ≡ 0) }
    {
        Ok(MemorySpaces {
            alloc,
            files: copies(alloc, files)?,
            spaces: Vec::new(alloc),
            attaches: Vec::new(alloc),
            calls: Calls::new(alloc, failing)?,
        })
    }
}

impl Spaces for MemorySpaces {
    ghost use Rattle.sem_mounts.specs.Memory.{seen_of};

    ghost seen = { seen_of };

    ghost told = { λ spaces. refl };

    fn attach(&mut self, name: &Name, file: &str) -> Result<(), AttachFault>
        requires { is_attached (seen_of self.old) name.now ≡ false }
        ensures attached { (seen_of self.new).attached
            ≡ (if is_ok result then (seen_of self.old).attached ++ name.now ∷ []
            else (seen_of self.old).attached) }
        ensures contents { Attaches name.now file.now result self.old.contents self.new.contents }
        ensures cause { CountsFault (is_attach_failed result) self.old.faults self.new.faults }

        // Which calls fail, where there is memory.
        ensures plan { IsNextCall self.old self.new (is_attach_failed result)
            (IsFalse (is_out_of_memory result) × FailsToAttach self.old file.now) }
    {
        if let Err(memory) = keep_call(self.alloc, &mut self.attaches, name, file) {
            pass(&mut self.calls);
            return Err(memory.into());
        }
        let bytes = opened(&mut self.calls, &self.files, file)?;
        let documents = read_catalogue(self.alloc, bytes.as_slice())?;
        push(&mut self.spaces, (copy_of(name)?, documents))?;
        Ok(())
    }

    #[tactic(auto, using(crate::proofs::SpaceLemmas::counted_fault))]
    fn list(&mut self, name: &Name) -> Result<Vec<Name>, SpaceFault>
        ensures asked { AreAsked (seen_of self.old) (seen_of self.new) name.now result }
        ensures rising { IfOk result (λ found. AreRisingNames found.items) }
        ensures said { IfOk result (λ found. IsSaid (seen_of self.old) name.now names
            found.items) }
        ensures plan { IsNextCall self.old self.new (is_failed result)
            (FailsToAnswer self.old name.now) }
    {
        Ok(asked(&mut self.calls, &self.spaces, name)?.names()?)
    }

    #[tactic(auto, using(crate::proofs::SpaceLemmas::counted_fault))]
    fn search(&mut self, name: &Name, term: &Term) -> Result<Vec<Name>, SpaceFault>
        ensures asked { AreAsked (seen_of self.old) (seen_of self.new) name.now result }
        ensures said { IfOk result (λ found. IsSaid (seen_of self.old) name.now
            (λ documents. names_with documents term.now) found.items) }
        ensures plan { IsNextCall self.old self.new (is_failed result)
            (FailsToAnswer self.old name.now) }
    {
        Ok(asked(&mut self.calls, &self.spaces, name)?.names_with(term)?)
    }

    #[tactic(auto, using(crate::proofs::SpaceLemmas::counted_fault))]
    fn fetch(&mut self, name: &Name, document: &Name) -> Result<Option<Vec<u8>>, SpaceFault>
        ensures asked { AreAsked (seen_of self.old) (seen_of self.new) name.now result }
        ensures said { IfOk result (λ text. IsSaid (seen_of self.old) name.now
            (λ documents. text_at documents document.now) (option_map (λ text. text.items) text)) }
        ensures plan { IsNextCall self.old self.new (is_failed result)
            (FailsToAnswer self.old name.now) }
    {
        Ok(asked(&mut self.calls, &self.spaces, name)?.text(document)?)
    }
}

fn copies(alloc: Global, files: &[(Name, Text)]) -> Result<Vec<(Name, Text)>, Memory>
    ensures { IfOk result (λ copies. copies.items ≡ files.now) }
{
    let mut copies = Vec::with_capacity(alloc, files.len())?;
    for (name, bytes) in files {
        let bytes = Vec::from_slice(alloc, bytes.as_slice())?;
        copies.push((copy_of(name)?, Text::new(bytes)))?;
    }
    Ok(copies)
}

// The bytes of a file. One that is missing is a fault.
fn opened<'a>(calls: &mut Calls, files: &'a [(Name, Text)], file: &str) -> Result<&'a Text, Failed>
    ensures bytes { IfOk result (λ bytes.
        lookup (bytes_eq file.now) files.now ≡ Some bytes.now) }
    ensures fails { IsErr result
        ↔ (Contains calls.old.failing.items (next_number calls.old.made)
        ⊎ IsFalse (has_entry files.now file.now)) }
    ensures faults { calls.new.faults
        ≡ (if is_ok result then calls.old.faults else next_number calls.old.faults) }
    ensures made { calls.new.made ≡ next_number calls.old.made }
    ensures failing { calls.new.failing.items ≡ calls.old.failing.items }
{
    calls.begin()?;
    match find(files, file.as_bytes()) {
        Some(bytes) => Ok(bytes),
        None => Err(calls.fail()),
    }
}

// The documents that a question is for. A question to no space has a number too, but never fails.
fn asked<'a>(
    calls: &mut Calls,
    spaces: &'a [(Name, Docs)],
    name: &Name,
) -> Result<&'a Docs, SpaceFault>
    ensures documents { IfOk result (λ documents.
        lookup (bytes_eq name.now) spaces.now ≡ Some documents.now) }
    ensures absent { is_absent result ≡ not (has_entry spaces.now name.now) }
    ensures fails { IsTrue (is_failed result)
        ↔ (Contains calls.old.failing.items (next_number calls.old.made)
        × IsTrue (has_entry spaces.now name.now)) }
    ensures faults { calls.new.faults
        ≡ (if is_failed result then next_number calls.old.faults else calls.old.faults) }
    ensures made { calls.new.made ≡ next_number calls.old.made }
    ensures failing { calls.new.failing.items ≡ calls.old.failing.items }
{
    match find(spaces, name.as_bytes()) {
        Some(documents) => match calls.begin() {
            Ok(()) => Ok(documents),
            Err(_) => Err(SpaceFault::Failed),
        },
        None => {
            pass(calls);
            Err(SpaceFault::Absent)
        }
    }
}

// Numbers a call that its number doesn't let fail.
fn pass(calls: &mut Calls)
    ensures faults { calls.new.faults ≡ calls.old.faults }
    ensures made { calls.new.made ≡ next_number calls.old.made }
    ensures failing { calls.new.failing.items ≡ calls.old.failing.items }
{
    calls.made = calls.made.saturating_add(1);
}

// Keeps a call of `attach`. Where there is no memory, those that are kept are as before.
fn keep_call(
    alloc: Global,
    attaches: &mut Vec<(Name, Name)>,
    name: &Name,
    file: &str,
) -> Result<(), Memory>
    ensures ok { OnOk result (attaches.new.items
        ≡ attaches.old.items ++ (name.now, file.now) ∷ []) }
    ensures err { OnErr result (attaches.new.items ≡ attaches.old.items) }
{
    push(attaches, call_of(alloc, name, file)?)
}

// A call of `attach`, as it is kept.
fn call_of(alloc: Global, name: &Name, file: &str) -> Result<(Name, Name), Memory>
    ensures { IfOk result (λ call. call ≡ (name.now, file.now)) }
{
    let file = Name::new(Vec::from_slice(alloc, file.as_bytes())?);
    Ok((copy_of(name)?, file))
}
