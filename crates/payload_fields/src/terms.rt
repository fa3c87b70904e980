//! Terms: what kind of term it is, and its letters.
ghost use Rattle.hac_model.specs.Payload.Fields.{failing_at};
ghost use Rattle.hac_model.specs.Payload.QueryFields.{word_field};
ghost use Rattle.hac_model.specs.Payload.States.{term_field};
ghost use Rattle.payload_fields.specs.Reading.{GivesField};

use crate::bytes::Bytes;
use crate::faults::Fault;
use crate::fields::word;
use hac_model::{Name, Term};
use std::alloc::Global;

/// A term. It fails as one with its kind byte.
#[tactic(auto, unfolding(hac_model::specs::Payload::Fields::choice_at, hac_model::specs::Payload::Fields::way_at))]
pub fn term(alloc: Global, bytes: &mut Bytes) -> Result<Term, Fault>
    ensures { GivesField result bytes.new (term_field.read bytes.old) }
{
    let left = bytes.left();
    match bytes.byte() {
        Some(1) => Ok(Term::Word(whole_word(alloc, bytes, left)?)),
        Some(2) => Ok(Term::Prefix(whole_word(alloc, bytes, left)?)),
        _ => Err(Fault::Bad { left }),
    }
}

/// The letters of a term. Where they are bad, the fault is where `left` bytes are left.
pub(crate) fn whole_word(alloc: Global, bytes: &mut Bytes, left: usize) -> Result<Name, Fault>
    ensures { GivesField result bytes.new (failing_at left (word_field.read bytes.old)) }
{
    match word(alloc, bytes) {
        Ok(letters) => Ok(letters),
        Err(Fault::Memory) => Err(Fault::Memory),
        Err(Fault::Bad { .. }) => Err(Fault::Bad { left }),
    }
}
