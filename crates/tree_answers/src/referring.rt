//! Which directories refer to another one: by their queries, or since it was added to them.
ghost use Rattle.std.specs.Prelude.{◌≡◌, map, IfOk, IsTrue};
ghost use Rattle.hac_model.specs.Tree.Depends.{referrers};
ghost use Rattle.hac_model.specs.Tree.Events.{is_unreferenced};
ghost use Rattle.hac_model.specs.Run.Refusals.{least_path, lesser_path};
ghost use Rattle.hac_model.specs.Tree.{is_directory_at, path_of};

use hac_model::{Memory, Number, Path};
use hac_names::print_path;
use kept_state::KeptState;
use sorted_lists::is_before;
use std::alloc::Global;

/// The least of the paths of directories that refer to a directory, if there are any.
pub fn least_referrer(alloc: Global, kept: &KeptState, dir: Number) -> Result<Option<Path>, Memory>
    requires { IsTrue (is_directory_at kept.now.state.entries dir) }
    ensures { IfOk result (λ least. least
        ≡ least_path (map (λ entry. path_of kept.now.state entry.number)
        (referrers kept.now.state dir))) }
{
    let mut referrers = kept.graph().referrers(dir)?;
    referrers.sort_unstable();
    least_path(alloc, kept, referrers.as_slice())
}

/// Whether no directory refers to a directory.
pub fn is_unreferenced(kept: &KeptState, dir: Number) -> Result<bool, Memory>
    requires { IsTrue (is_directory_at kept.now.state.entries dir) }
    ensures { IfOk result (λ is. is ≡ is_unreferenced kept.now.state dir) }
{
    let referrers = kept.graph().referrers(dir)?;
    Ok(referrers.is_empty())
}

/// The least of the paths of entries, compared as they are printed.
fn least_path(alloc: Global, kept: &KeptState, entries: &[Number]) -> Result<Option<Path>, Memory>
    ensures { IfOk result (λ least. least ≡ least_path (map (path_of kept.now.state) entries.now)) }
{
    let mut least: Option<Path> = None;
    let mut left = entries.len();
    'entries: while left > 0 {
        left -= 1;
        let path = kept.path_of(entries[left])?;
        least = match least {
            Some(other) => Some(lesser(alloc, path, other)?),
            None => Some(path),
        };
    }
    Ok(least)
}

/// The lesser of two paths, compared as they are printed.
fn lesser(alloc: Global, path: Path, other: Path) -> Result<Path, Memory>
    ensures { IfOk result (λ least. least ≡ lesser_path path other) }
{
    let first = print_path(alloc, &path)?;
    let second = print_path(alloc, &other)?;
    if is_before(second.as_bytes(), first.as_bytes()) {
        Ok(other)
    } else {
        Ok(path)
    }
}
