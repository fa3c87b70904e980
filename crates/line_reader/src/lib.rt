//! Lines out of a stream of bytes, in whatever pieces the stream comes, with the bytes that a line
//! asks for behind it. It knows what ends a line and what limits there are, and not what a line
//! says.
#![tactic(auto)]

mod reading;

pub use reading::{LineFault, Piece, Reader, is_blank};
