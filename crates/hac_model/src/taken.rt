//! What is taken of the bytes that a line asks for.
use crate::bytes::Text;

/// What came of the bytes that a line asks for behind its end.
#[derive(Debug, Drop)]
pub enum Taken {
    /// All of them.
    Whole(Text),
    /// All came, and they are more than a text may have, so they weren't kept.
    Dropped,
    /// The script ended before they did.
    Short,
}
