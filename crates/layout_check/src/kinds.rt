//! What kinds of entries there are.
ghost use Rattle.std.specs.Prelude.{◌≡◌, is_some};
ghost use Rattle.hac_model.specs.Tree.Limits as limits;
ghost use Rattle.hac_model.specs.Tree as tree;

use hac_model::Body;

/// Whether it is a directory of any kind.
pub(crate) fn is_directory(body: &Body) -> bool
    ensures { result ≡ tree.is_directory body.now }
{
    matches!(body, Body::Dir | Body::Semantic { .. } | Body::Mount { .. })
}

/// Whether it is a directory with a query.
pub(crate) fn is_semantic(body: &Body) -> bool
    ensures { result ≡ is_some (tree.query_in body.now) }
{
    matches!(body, Body::Semantic { .. })
}

/// Whether it is a mount.
pub(crate) fn is_mount(body: &Body) -> bool
    ensures { result ≡ tree.is_mount body.now }
{
    matches!(body, Body::Mount { .. })
}

/// Whether it is a document of a mount.
pub fn is_document(body: &Body) -> bool
    ensures { result ≡ tree.is_document body.now }
{
    matches!(body, Body::Document)
}

/// Whether it is a symbolic link.
pub(crate) fn is_symlink(body: &Body) -> bool
    ensures { result ≡ tree.is_symlink body.now }
{
    matches!(body, Body::Symlink { .. })
}

/// Whether it is a file.
pub(crate) fn is_file(body: &Body) -> bool
    ensures { result ≡ tree.is_file body.now }
{
    matches!(body, Body::File { .. })
}

/// Whether it is a file or a document.
pub fn is_linkable(body: &Body) -> bool
    ensures { result ≡ tree.is_linkable body.now }
{
    is_file(body) || is_document(body)
}

/// Whether it is a file that is to be indexed.
pub(crate) fn is_dirty(body: &Body) -> bool
    ensures { result ≡ tree.is_dirty body.now }
{
    match body {
        Body::File { dirty, .. } => *dirty,
        _ => false,
    }
}

/// How many names have to fit into a path below it.
pub(crate) fn names_below(body: &Body) -> u64
    ensures { result ≡ limits.names_below body.now }
{
    u64::from(is_mount(body))
}
