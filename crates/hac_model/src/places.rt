//! Where a look-up ends.
use crate::bytes::Name;
use crate::numbers::Number;

/// What a path leads to, as `look` of the specs says.
#[derive(Debug, Drop)]
pub enum Place {
    /// An entry, or the root.
    There(Number),
    /// Nothing yet: a directory without an entry of this name.
    Free {
        /// The directory.
        dir: Number,
        /// The name.
        name: Name,
    },
}
