//! What spaces tell: the names of their documents. It knows no tree.
ghost use Rattle.std.specs.Prelude.{◌≡◌};
ghost use Rattle.std.specs.List.{list_all};
ghost use Rattle.hac_model.specs.Tree.Mounting.{are_documents};
ghost use Rattle.hac_model.specs.Tree.Names.{is_name};

use hac_model::{DOCS_LIMIT, Name};
use hac_names::is_name;
use sorted_lists::names_rise;

/// Whether names may be those of a space's documents.
pub fn are_documents(names: &[Name]) -> bool
    ensures { result ≡ are_documents names.now }
{
    are_names(names) && names_rise(names) && names.len() as u64 <= DOCS_LIMIT
}

fn are_names(names: &[Name]) -> bool
    ensures { result ≡ list_all is_name names.now }
{
    names.iter().all(|name| is_name(name.as_bytes()))
}
