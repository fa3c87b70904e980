//! Whether entries have names, and no two in one directory the same.
ghost use Rattle.std.specs.Prelude.{◌≡◌, IfOk};
ghost use Rattle.std.specs.List.{list_all};
ghost use Rattle.hac_model.specs.Tree.Names.{is_name};
ghost use Rattle.hac_model.specs.Tree.ValidTest.{do_names_differ};

use hac_model::{Entry, Memory};
use hac_names::is_name;
use std::alloc::Global;
use std::collections::BTreeSet;

/// Whether the name of each entry may be one.
pub(crate) fn are_named(entries: &[Entry]) -> bool
    ensures { result ≡ list_all (λ entry. is_name entry.name) entries.now }
{
    entries.iter().all(|entry| is_name(entry.name.as_bytes()))
}

/// Whether no two entries of a directory have one name.
pub(crate) fn do_names_differ(alloc: Global, entries: &[Entry]) -> Result<bool, Memory>
    ensures { IfOk result (λ told. told ≡ do_names_differ entries.now) }
{
    let mut places = BTreeSet::new(alloc);
    for entry in entries {
        if !places.insert((entry.parent.get(), entry.name.as_bytes()))? {
            return Ok(false);
        }
    }
    Ok(true)
}
