//! Which items a directory provides, as a caller of queries knows it.
ghost use Rattle.std.specs.Prelude.{◌≡◌, ℕ, Bool};

use crate::numbers::Number;

/// Knows which items directories provide.
pub trait Member {
    /// That the directory provides the item.
    ghost provides: { Self → ℕ → ℕ → Bool };

    /// Whether the directory provides the item.
    fn within(&self, dir: Number, item: Number) -> bool
        ensures { result ≡ provides self.now dir item };
}
