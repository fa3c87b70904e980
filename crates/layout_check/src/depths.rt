//! Whether paths are short. Entries that are in one another, in a circle, have no end of ancestors,
//! so no more of them are counted than one too many.
ghost use Rattle.std.specs.Prelude.{◌≡◌, ◌≤◌, length};
ghost use Rattle.hac_model.specs.Tree.{ancestors};
ghost use Rattle.hac_model.specs.Tree.Limits as limits;
ghost use Rattle.layout_check.specs.Rising.{DoRise};

use crate::kinds::names_below;
use crate::searching::entry_at;
use hac_model::{Entry, Number, PATH_LIMIT};

/// Whether no path has more names than a path may have.
pub(crate) fn are_paths_short(entries: &[Entry]) -> bool
    requires { DoRise entries.now }
    ensures { result ≡ limits.are_paths_short entries.now }
{
    entries.iter().all(|entry| has_short_path(entries, entry))
}

/// Whether the path of an entry is short, also with the names below it.
fn has_short_path(entries: &[Entry], entry: &Entry) -> bool
    requires { DoRise entries.now }
    ensures { result ≡ limits.has_short_path entries.now entry.now }
{
    let names = count_ancestors(entries, PATH_LIMIT + 1, entry.number);
    names + names_below(&entry.body) <= PATH_LIMIT
}

/// How many ancestors the entry of a number has, itself among them, counting at most `steps`.
fn count_ancestors(entries: &[Entry], steps: u64, number: Number) -> u64
    requires { DoRise entries.now }
    ensures ancestors { result ≡ length (ancestors steps entries.now number) }
    ensures few { result ≤ steps }
{
    if steps == 0 {
        return 0;
    }
    match entry_at(entries, number) {
        Some(entry) => count_ancestors(entries, steps - 1, entry.parent) + 1,
        None => 0,
    }
}
