//! Paths as they are printed.
ghost use Rattle.std.specs.Prelude.{◌≡◌, IfOk};
ghost use Rattle.hac_model.specs.Tree.Paths.{path_text};

use hac_model::{Memory, Name, Path};
use std::alloc::Global;

/// A path as it is printed, with a slash before each name. The root is a slash.
pub fn print_path(alloc: Global, path: &Path) -> Result<Name, Memory>
    ensures { IfOk result (λ text. text ≡ path_text path.now) }
{
    if path.is_root() {
        return Ok(Name::new(b"/".to_vec(alloc)?));
    }
    let mut text = Vec::new(alloc);
    for name in path.as_slice() {
        text.push(b'/')?;
        text.extend_from_slice(name.as_bytes())?;
    }
    Ok(Name::new(text))
}
