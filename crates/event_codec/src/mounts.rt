//! The documents of mounts and what their spaces answered, as items of lists.
ghost use Rattle.std.specs.Prelude.{◌≡◌};
ghost use Rattle.std.specs.Option.{option_copied, option_map};
ghost use Rattle.hac_model.specs.declared.states.Answer.{Answer};
ghost use Rattle.hac_model.specs.declared.snapshots.Document.{Document};

use crate::lists::{Item, list, put_list};
use hac_model::{Answer, Document, Memory, Name, Term, Version};
use payload_fields::{Bytes, Fault, num, put_num, put_short, put_term, term};
use std::alloc::Global;

/// The names of documents rise.
impl Item for Document {
    ghost use Rattle.hac_model.specs.Payload.States.{document_field};

    ghost item = { document_field };

    fn read(
        alloc: Global,
        version: Version,
        bytes: &mut Bytes,
        last: Option<&Document>,
    ) -> Result<Document, Fault> {
        Ok(Document {
            number: num(version, bytes)?,
            name: Name::read(alloc, version, bytes, name_of(last))?,
        })
    }

    #[tactic(auto, using(payload_fields::proofs::PutLemmas::puts))]
    fn put(&self, out: &mut Vec<u8>, version: Version) -> Result<(), Memory> {
        put_num(out, version, self.number)?;
        put_short(out, self.name.as_bytes())
    }
}

fn name_of(document: Option<&Document>) -> Option<&Name>
    ensures { option_copied result ≡
        option_map (λ (document : Document). document.name) (option_copied document.entry) }
{
    match document {
        Some(document) => Some(&document.name),
        None => None,
    }
}

/// The terms of a list rise.
impl Item for Term {
    ghost use Rattle.hac_model.specs.Payload.Fields.{checked};
    ghost use Rattle.hac_model.specs.Payload.Payloads.{rises};
    ghost use Rattle.hac_model.specs.Payload.States.{term_field};
    ghost use Rattle.hac_model.specs.Query.Terms.{is_term_before};

    ghost item = { λ version last. checked term_field (rises is_term_before last) };

    fn read(
        alloc: Global,
        _version: Version,
        bytes: &mut Bytes,
        last: Option<&Term>,
    ) -> Result<Term, Fault> {
        let bad = bytes.bad();
        let term = term(alloc, bytes)?;
        match last {
            Some(before) if !before.is_before(&term) => Err(bad),
            _ => Ok(term),
        }
    }

    fn put(&self, out: &mut Vec<u8>, _version: Version) -> Result<(), Memory> {
        put_term(out, self)
    }
}

/// The terms of answers rise.
impl Item for Answer {
    ghost use Rattle.hac_model.specs.Payload.States.{answer_field};

    ghost item = { answer_field };

    fn read(
        alloc: Global,
        version: Version,
        bytes: &mut Bytes,
        last: Option<&Answer>,
    ) -> Result<Answer, Fault> {
        Ok(Answer {
            term: Term::read(alloc, version, bytes, term_of(last))?,
            documents: list(alloc, version, bytes)?,
        })
    }

    #[tactic(auto, using(payload_fields::proofs::PutLemmas::puts))]
    fn put(&self, out: &mut Vec<u8>, version: Version) -> Result<(), Memory> {
        put_term(out, &self.term)?;
        put_list(out, version, self.documents.as_slice())
    }
}

fn term_of(answer: Option<&Answer>) -> Option<&Term>
    ensures { option_copied result ≡
        option_map (λ (answer : Answer). answer.term) (option_copied answer.entry) }
{
    match answer {
        Some(answer) => Some(&answer.term),
        None => None,
    }
}
