//! Queries of lines as they are printed, with the path words that they name.
ghost use Rattle.std.specs.Prelude.{◌≡◌, ◌++◌, codes, IfOk};
ghost use Rattle.hac_model.specs.Query.Grammar.{escaped};
ghost use Rattle.hac_model.specs.Query.QueryText as text;
ghost use Rattle.hac_model.specs.Query.QueryText.{referred_by};
ghost use Rattle.hac_model.specs.Script.CommandTexts.{word_text};

use crate::word_texts::word_text;
use hac_model::{Memory, Node, PathWord, RawQuery};
use query_text::{around, braced, joined, term_text};
use std::alloc::Global;

/// The text of a query. It goes down as deep as the query does.
pub fn query_text(alloc: Global, query: &RawQuery) -> Result<Vec<u8>, Memory>
    ensures { IfOk result
        (λ bytes. bytes.items ≡ text.query_text (referred_by word_text query.now)) }
{
    match &query.node {
        Node::Term(term) => term_text(alloc, term),
        Node::Dir(word) => dir_text(alloc, word),
        Node::Not(inner) => {
            let operand = query_text(alloc, inner)?;
            let operand = around(alloc, is_joined(inner), operand)?;
            joined(alloc, b"", b"NOT ", &operand)
        }
        Node::And(left, right) => {
            let first = query_text(alloc, left)?;
            let first = around(alloc, is_or(left), first)?;
            let second = query_text(alloc, right)?;
            let second = around(alloc, is_joined(right), second)?;
            joined(alloc, &first, b" AND ", &second)
        }
        Node::Or(left, right) => {
            let first = query_text(alloc, left)?;
            let second = query_text(alloc, right)?;
            let second = around(alloc, is_or(right), second)?;
            joined(alloc, &first, b" OR ", &second)
        }
    }
}

/// Whether the query is two that `OR` joins.
fn is_or(query: &RawQuery) -> bool
    ensures { result ≡ text.is_or (referred_by word_text query.now) }
{
    match &query.node {
        Node::Or(_, _) => true,
        _ => false,
    }
}

/// Whether the query is two that are joined.
fn is_joined(query: &RawQuery) -> bool
    ensures { result ≡ text.is_joined (referred_by word_text query.now) }
{
    match &query.node {
        Node::And(_, _) => true,
        Node::Or(_, _) => true,
        _ => false,
    }
}

fn dir_text(alloc: Global, word: &PathWord) -> Result<Vec<u8>, Memory>
    ensures { IfOk result (λ bytes. bytes.items ≡ codes "{" ++
        (escaped (word_text word.now) ++ codes "}")) }
{
    braced(alloc, word_text(alloc, word)?.as_bytes())
}
