//! Path words as the program prints them.
ghost use Rattle.std.specs.Prelude.{◌≡◌, ◌++◌, codes, replicate, IfOk, OnOk};
ghost use Rattle.std.specs.List.{flat_map};
ghost use Rattle.hac_model.specs.Script.CommandTexts.{steps, word_text};
ghost use Rattle.hac_model.specs.Tree.Paths.{slashed};

use hac_model::{Memory, Name, Path, PathWord};
use hac_names::print_path;
use std::alloc::Global;

/// A path word as it is printed.
pub fn word_text(alloc: Global, word: &PathWord) -> Result<Name, Memory>
    ensures { IfOk result (λ text. text ≡ word_text word.now) }
{
    if word.absolute {
        print_path(alloc, &word.names)
    } else {
        steps_text(alloc, word)
    }
}

/// The steps of a relative word, from `.` on.
fn steps_text(alloc: Global, word: &PathWord) -> Result<Name, Memory>
    ensures { IfOk result (λ text. text ≡ codes "." ++ flat_map slashed (steps word.now)) }
{
    let mut text = b".".to_vec(alloc)?;
    push_ups(&mut text, word.ups)?;
    push_names(&mut text, &word.names)?;
    Ok(Name::new(text))
}

/// Appends a slash and `..` for each name that a word leads up.
#[tactic(auto, using(crate::proofs::StepLemmas::ups_next))]
fn push_ups(out: &mut Vec<u8>, ups: u64) -> Result<(), Memory>
    ensures { OnOk result (out.new.items ≡ out.old.items ++
        flat_map slashed (replicate ups (codes ".."))) }
{
    for _ in 0..ups {
        out.extend_from_slice(b"/..")?;
    }
    Ok(())
}

/// Appends a slash and each of the names.
fn push_names(out: &mut Vec<u8>, names: &Path) -> Result<(), Memory>
    ensures { OnOk result (out.new.items ≡ out.old.items ++ flat_map slashed names.now) }
{
    for name in names.as_slice() {
        push_name(out, name)?;
    }
    Ok(())
}

fn push_name(out: &mut Vec<u8>, name: &Name) -> Result<(), Memory>
    ensures { OnOk result (out.new.items ≡ out.old.items ++ slashed name.now) }
{
    out.push(b'/')?;
    out.extend_from_slice(name.as_bytes())?;
    Ok(())
}
