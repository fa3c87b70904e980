//! Queries as they are printed.
ghost use Rattle.std.specs.Prelude.{◌≡◌, ◌++◌, codes, is_some, IfOk, IsTrue, MatchOption, None};
ghost use Rattle.std.specs.Prelude.{Some};
ghost use Rattle.hac_model.specs.Query.Grammar.{escape, escaped};
ghost use Rattle.hac_model.specs.Query.QueryText as text;
ghost use Rattle.query_text.specs.Printing.{are_known, dir_path, path_at, printed_query};

use crate::paths::{NamedDir, Paths};
use hac_model::{Memory, Name, Node, Number, Path, Query, Term};
use hac_names::print_path;
use std::alloc::Global;

/// A query as it is printed: with one space around each operator, with the paths of its
/// directories, and with only the parentheses that it needs.
pub fn print(alloc: Global, query: &Query<Number>, paths: &Paths) -> Result<Name, Memory>
    requires known { IsTrue (are_known paths.now query.now) }
    ensures { IfOk result (λ printed. printed ≡ printed_query paths.now query.now) }
{
    Ok(Name::new(query_text(alloc, query, paths)?))
}

/// The text of a query. It goes down as deep as the query does.
fn query_text(alloc: Global, query: &Query<Number>, paths: &Paths) -> Result<Vec<u8>, Memory>
    requires known { IsTrue (are_known paths.now query.now) }
    ensures { IfOk result (λ bytes. bytes.items ≡ printed_query paths.now query.now) }
{
    match &query.node {
        Node::Term(term) => term_text(alloc, term),
        Node::Dir(dir) => dir_text(alloc, *dir, paths),
        Node::Not(inner) => {
            let operand = query_text(alloc, inner, paths)?;
            let operand = around(alloc, is_joined(inner), operand)?;
            joined(
                alloc,
                b"".as_slice(),
                b"NOT ".as_slice(),
                operand.as_slice(),
            )
        }
        Node::And(left, right) => {
            let first = query_text(alloc, left, paths)?;
            let first = around(alloc, is_or(left), first)?;
            let second = query_text(alloc, right, paths)?;
            let second = around(alloc, is_joined(right), second)?;
            joined(
                alloc,
                first.as_slice(),
                b" AND ".as_slice(),
                second.as_slice(),
            )
        }
        Node::Or(left, right) => {
            let first = query_text(alloc, left, paths)?;
            let second = query_text(alloc, right, paths)?;
            let second = around(alloc, is_or(right), second)?;
            joined(
                alloc,
                first.as_slice(),
                b" OR ".as_slice(),
                second.as_slice(),
            )
        }
    }
}

/// Whether the query is two that `OR` joins.
fn is_or(query: &Query<Number>) -> bool
    ensures { result ≡ text.is_or query.now }
{
    match &query.node {
        Node::Or(_, _) => true,
        _ => false,
    }
}

/// Whether the query is two that are joined.
fn is_joined(query: &Query<Number>) -> bool
    ensures { result ≡ text.is_joined query.now }
{
    match &query.node {
        Node::And(_, _) => true,
        Node::Or(_, _) => true,
        _ => false,
    }
}

/// The bytes, in parentheses where they are needed.
pub fn around(alloc: Global, needed: bool, bytes: Vec<u8>) -> Result<Vec<u8>, Memory>
    ensures { IfOk result (λ all. all.items ≡ text.around needed bytes.items) }
{
    if needed {
        joined(alloc, b"(".as_slice(), bytes.as_slice(), b")".as_slice())
    } else {
        Ok(bytes)
    }
}

/// Three runs of bytes, one after the other.
pub fn joined(alloc: Global, first: &[u8], second: &[u8], third: &[u8]) -> Result<Vec<u8>, Memory>
    ensures { IfOk result (λ all. all.items ≡ first.now ++ (second.now ++ third.now)) }
{
    let mut all = first.to_vec(alloc)?;
    all.extend_from_slice(second)?;
    all.extend_from_slice(third)?;
    Ok(all)
}

/// A term as it is printed.
pub fn term_text(alloc: Global, term: &Term) -> Result<Vec<u8>, Memory>
    ensures { IfOk result (λ bytes. bytes.items ≡ text.term_text term.now) }
{
    match term {
        Term::Word(letters) => Ok(letters.as_bytes().to_vec(alloc)?),
        Term::Prefix(letters) => joined(alloc, letters.as_bytes(), b"*".as_slice(), b"".as_slice()),
    }
}

fn dir_text(alloc: Global, dir: Number, paths: &Paths) -> Result<Vec<u8>, Memory>
    requires known { IsTrue (is_some (path_at paths.now dir)) }
    ensures { IfOk result (λ bytes. bytes.items ≡ codes "{" ++
        (escaped (dir_path paths.now dir) ++ codes "}")) }
{
    match find(paths.as_slice(), dir) {
        Some(path) => braced(alloc, print_path(alloc, path)?.as_bytes()),
        None => unreachable!(),
    }
}

/// The bytes of a path between braces.
pub fn braced(alloc: Global, path: &[u8]) -> Result<Vec<u8>, Memory>
    ensures { IfOk result (λ bytes. bytes.items ≡ codes "{" ++ (escaped path.now ++ codes "}")) }
{
    let spelled = escaped(alloc, path)?;
    joined(alloc, b"{".as_slice(), spelled.as_slice(), b"}".as_slice())
}

/// The path of a directory, if it was given one.
fn find(paths: &[NamedDir], dir: Number) -> Option<&Path>
    ensures { MatchOption result (path_at paths.now dir ≡ None)
        (λ path. path_at paths.now dir ≡ Some path.now) }
{
    for named in paths {
        if named.dir == dir {
            return Some(&named.path);
        }
    }
    None
}

/// The bytes of a path as they are written between braces.
fn escaped(alloc: Global, path: &[u8]) -> Result<Vec<u8>, Memory>
    ensures { IfOk result (λ spelled. spelled.items ≡ escaped path.now) }
{
    let mut spelled = Vec::new(alloc);
    for byte in path {
        if *byte == b'}' || *byte == b'\\' {
            spelled.push(b'\\')?;
        }
        spelled.push(*byte)?;
    }
    Ok(spelled)
}
