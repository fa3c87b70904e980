//! What an entry counts for by its body, and sums of such counts. It knows no tree and no place: an
//! entry is given by its kind and the length of its text, and whether a path is too long by a truth
//! value.
#![tactic(auto)]

mod shares;

pub use shares::{
    as_new, kept_bytes, minus, of_directory, of_document, of_file, of_mount, of_mount_with,
    of_root, of_semantic, of_symlink, plus, replaced, synced, with_long_paths,
};
