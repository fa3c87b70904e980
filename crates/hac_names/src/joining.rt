//! Where a path word leads.
ghost use Rattle.std.specs.Prelude.{◌≡◌, ◌-◌, length, if◌then◌else◌, IfOk};
ghost use Rattle.hac_model.specs.Tree.Paths as paths;

use hac_model::{Memory, Path, PathWord};
use std::alloc::Global;

/// The path to which a word leads from a base.
pub fn join(alloc: Global, base: &Path, word: &PathWord) -> Result<Path, Memory>
    ensures { IfOk result (λ path. path ≡ paths.join base.now word.now) }
{
    let mut path = Path::root(alloc);
    path.extend(&base.as_slice()[..kept_len(base, word)])?;
    path.extend(word.names.as_slice())?;
    Ok(path)
}

/// How many names of the base are before those of the word.
fn kept_len(base: &Path, word: &PathWord) -> usize
    ensures { result ≡ if word.now.absolute then 0 else length base.now - word.now.ups }
{
    if word.absolute {
        0
    } else {
        base.len().saturating_sub(word.ups as usize)
    }
}
