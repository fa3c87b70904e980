//! What new entries are.
ghost use Rattle.std.specs.Prelude.{◌≡◌};
ghost use Rattle.hac_model.specs.Tree.Valid.{IsSound};
ghost use Rattle.file_tree.specs.Bodies.{body_from, new_word};
ghost use Rattle.tree_nodes.specs.Nodes.{body_of};

use hac_model::{Name, Number, PathWord, Query, Text};
use tree_nodes::{Content, Shown, Target};

/// What a new entry is.
#[derive(Debug, Drop)]
pub enum NewBody {
    /// A file with this text, which was never indexed.
    File(Text),
    /// A plain directory.
    Dir,
    /// A symbolic link with this target.
    Symlink(Text),
    /// A directory with this query, and without marks.
    Semantic(Query<Number>),
    /// A directory that shows this space, and keeps no answers.
    Mount(Name),
    /// An entry of a mount.
    Document,
}

/// What a new body says, given the word of a symbolic link's target.
pub(crate) fn new_content(body: NewBody, word: Option<PathWord>) -> Content
    requires sound { IsSound (body_from body) }
    requires word { word ≡ new_word body }
    ensures { body_of result ≡ body_from body }
{
    match body {
        NewBody::File(text) => Content::File {
            text,
            dirty: true,
            shown: Shown::Never,
        },
        NewBody::Dir => Content::Dir,
        NewBody::Symlink(target) => match word {
            Some(word) => Content::Symlink(Target::new(target, word)),
            None => unreachable!(),
        },
        NewBody::Semantic(query) => Content::Semantic { query },
        NewBody::Mount(space) => Content::Mount { space },
        NewBody::Document => Content::Document,
    }
}
