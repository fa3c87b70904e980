//! Fields as bytes, each added to those before it.
ghost use Rattle.std.specs.Prelude.{◌≡◌, ◌++◌, ◌∷◌, ◌<◌, ◌≤◌, ◌^◌, [], IsTrue, OnOk, length};
ghost use Rattle.std.specs.Int.{w8, w16, w32, w64, to_le_bytes};
ghost use Rattle.hac_model.specs.Payload.Fields.{count, num};
ghost use Rattle.hac_model.specs.Query.Queries.{are_terms, letter_count};
ghost use Rattle.hac_model.specs.Payload.QueryFields.{are_nums, query_bytes};
ghost use Rattle.hac_model.specs.Payload.States.{term_field};
ghost use Rattle.hac_model.specs.declared.limits.TheConstants.{QUERY_LIMIT};

use byteorder::{ByteOrder, LittleEndian};
use hac_model::{Memory, Node, Number, Query, Term, Version};

/// Adds how many there are of something: four bytes in each version.
pub fn put_count(out: &mut Vec<u8>, number: u64) -> Result<(), Memory>
    requires { IsTrue (count.fits number) }
    ensures { OnOk result (out.new.items ≡ out.old.items ++ count.text number) }
{
    let mut bytes = [0; 4];
    LittleEndian::write_u32(&mut bytes, number as u32);
    out.extend_from_slice(&bytes)?;
    Ok(())
}

/// Adds the number of an entry: four bytes in version One, and eight in version Two.
pub fn put_num(out: &mut Vec<u8>, version: Version, number: Number) -> Result<(), Memory>
    requires { IsTrue ((num version).fits number) }
    ensures { OnOk result (out.new.items ≡ out.old.items ++ (num version).text number) }
{
    match version {
        Version::One => put_count(out, number.get()),
        Version::Two => put_long_number(out, number.get()),
    }
}

/// Adds a number of eight bytes.
fn put_long_number(out: &mut Vec<u8>, number: u64) -> Result<(), Memory>
    ensures { OnOk result (out.new.items ≡ out.old.items ++ to_le_bytes w64 number) }
{
    let mut bytes = [0; 8];
    LittleEndian::write_u64(&mut bytes, number);
    out.extend_from_slice(&bytes)?;
    Ok(())
}

/// Adds bytes behind a byte that says how many they are.
#[tactic(auto, using(crate::proofs::PutLemmas::puts))]
pub fn put_short(out: &mut Vec<u8>, run: &[u8]) -> Result<(), Memory>
    requires { length run.now < 2 ^ 8 }
    ensures { OnOk result (out.new.items ≡ out.old.items ++
        (to_le_bytes w8 (length run.now) ++ run.now)) }
{
    out.push(run.len() as u8)?;
    out.extend_from_slice(run)?;
    Ok(())
}

/// Adds bytes behind two bytes that say how many they are.
#[tactic(auto, using(crate::proofs::PutLemmas::puts))]
pub fn put_middle(out: &mut Vec<u8>, run: &[u8]) -> Result<(), Memory>
    requires { length run.now < 2 ^ 16 }
    ensures { OnOk result (out.new.items ≡ out.old.items ++
        (to_le_bytes w16 (length run.now) ++ run.now)) }
{
    let mut bytes = [0; 2];
    LittleEndian::write_u16(&mut bytes, run.len() as u16);
    out.extend_from_slice(&bytes)?;
    out.extend_from_slice(run)?;
    Ok(())
}

/// Adds bytes behind four bytes that say how many they are.
#[tactic(auto, using(crate::proofs::PutLemmas::puts))]
pub fn put_long(out: &mut Vec<u8>, run: &[u8]) -> Result<(), Memory>
    requires { length run.now < 2 ^ 32 }
    ensures { OnOk result (out.new.items ≡ out.old.items ++
        (to_le_bytes w32 (length run.now) ++ run.now)) }
{
    put_count(out, run.len() as u64)?;
    out.extend_from_slice(run)?;
    Ok(())
}

/// Adds a kind and the number of an entry.
#[tactic(auto, using(crate::proofs::PutLemmas::puts))]
pub fn put_numbered(
    out: &mut Vec<u8>,
    version: Version,
    kind: u8,
    number: Number,
) -> Result<(), Memory>
    requires { IsTrue ((num version).fits number) }
    ensures { OnOk result (out.new.items ≡ out.old.items ++ kind ∷ (num version).text number) }
{
    out.push(kind)?;
    put_num(out, version, number)
}

/// Adds a query: each `NOT`, `AND` and `OR` before what it joins.
#[tactic(auto, using(crate::proofs::PutLemmas::puts))]
pub fn put_query(out: &mut Vec<u8>, version: Version, query: &Query<Number>) -> Result<(), Memory>
    requires terms { IsTrue (are_terms query.now) }
    requires letters { letter_count query.now ≤ QUERY_LIMIT }
    requires numbers { IsTrue (are_nums version query.now) }
    ensures { OnOk result (out.new.items ≡ out.old.items ++ query_bytes version query.now) }
{
    match &query.node {
        Node::Term(term) => put_term(out, term),
        Node::Dir(dir) => put_numbered(out, version, 3, *dir),
        Node::Not(query) => {
            out.push(4)?;
            put_query(out, version, query)
        }
        Node::And(left, right) => {
            out.push(5)?;
            put_query(out, version, left)?;
            put_query(out, version, right)
        }
        Node::Or(left, right) => {
            out.push(6)?;
            put_query(out, version, left)?;
            put_query(out, version, right)
        }
    }
}

/// Adds a term.
#[tactic(auto, using(crate::proofs::PutLemmas::puts))]
pub fn put_term(out: &mut Vec<u8>, term: &Term) -> Result<(), Memory>
    requires { IsTrue (term_field.fits term.now) }
    ensures { OnOk result (out.new.items ≡ out.old.items ++ term_field.text term.now) }
{
    match term {
        Term::Word(letters) => {
            out.push(1)?;
            put_middle(out, letters.as_bytes())
        }
        Term::Prefix(letters) => {
            out.push(2)?;
            put_middle(out, letters.as_bytes())
        }
    }
}
