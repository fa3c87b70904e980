//! Names, as trials write them.
ghost use Rattle.std.specs.Prelude.{◌≡◌, IfOk};
ghost use Rattle.hac_model.specs.declared.terms.Term.TheVariants as term;

use hac_model::{Name, Term};
use std::alloc::{AllocError, Global};
use std::process::Abort;

/// A name of these letters.
pub fn name(alloc: Global, letters: &[u8]) -> Result<Name, AllocError>
    ensures { IfOk result (λ name. name ≡ letters.now) }
{
    Ok(Name::new(Vec::from_slice(alloc, letters)?))
}

/// The word of these letters.
pub fn word(alloc: Global, letters: &[u8]) -> Result<Term, AllocError>
    ensures { IfOk result (λ word. word ≡ term.Word letters.now) }
{
    Ok(Term::Word(name(alloc, letters)?))
}

/// The words that begin with these letters.
pub fn prefix(alloc: Global, letters: &[u8]) -> Result<Term, AllocError>
    ensures { IfOk result (λ prefix. prefix ≡ term.Prefix letters.now) }
{
    Ok(Term::Prefix(name(alloc, letters)?))
}

/// These are the names, each with a space behind it.
pub(crate) fn expect_names(
    rt: &impl Abort,
    alloc: Global,
    names: &[Name],
    want: &[u8],
) -> Result<(), AllocError> {
    let mut bytes = Vec::new(alloc);
    for name in names {
        bytes.extend_from_slice(name.as_bytes())?;
        bytes.push(b' ')?;
    }
    assert_eq!(rt; bytes.as_slice(), want);
    Ok(())
}
