//! Commands as the program prints them: lines that are read as the same commands.
ghost use Rattle.std.specs.Prelude.{◌≡◌, ◌++◌, codes, length, IfOk, OnOk};
ghost use Rattle.std.specs.List.{flat_map};
ghost use Rattle.hac_model.specs.Script.LineWords.{quoted_byte};
ghost use Rattle.hac_model.specs.Script.CommandTexts.{command_text, line_text, maybe_part};
ghost use Rattle.hac_model.specs.Script.CommandTexts.{number_part, path_part, put_bytes};
ghost use Rattle.hac_model.specs.Script.CommandTexts.{query_part, quoted_part, session_text};

use crate::printing::{push_bytes, push_number};
use crate::queries::query_text;
use crate::word_texts::word_text;
use hac_model::{Command, Line, Memory, PathWord, RawQuery};
use std::alloc::Global;

/// A session's command as a line that spells it, with the line's end and the bytes that belong to
/// it: a text is that of a `put`.
pub fn print_command(alloc: Global, line: &Line) -> Result<Vec<u8>, Memory>
    ensures { IfOk result (λ bytes. bytes.items ≡ command_text line.now) }
{
    let mut out = Vec::new(alloc);
    push_session(&mut out, line.session.as_bytes())?;
    push_command(alloc, &mut out, &line.command)?;
    out.push(b'\n')?;
    out.extend_from_slice(put_bytes(&line.command))?;
    Ok(out)
}

/// Appends how a line names its session.
fn push_session(out: &mut Vec<u8>, name: &[u8]) -> Result<(), Memory>
    ensures { OnOk result (out.new.items ≡ out.old.items ++ session_text name.now) }
{
    if name == b"main".as_slice() {
        return Ok(());
    }
    push_bytes(out, b"@")?;
    push_bytes(out, name)?;
    push_bytes(out, b" ")
}

/// The bytes that belong to the line of a command.
fn put_bytes(command: &Command) -> &[u8]
    ensures { result.now ≡ put_bytes command.now }
{
    match command {
        Command::Write { text, .. } => text.as_slice(),
        _ => b"",
    }
}

/// Appends the line of a command, without its end.
fn push_command(alloc: Global, out: &mut Vec<u8>, command: &Command) -> Result<(), Memory>
    ensures { OnOk result (out.new.items ≡ out.old.items ++ line_text command.now) }
{
    match command {
        Command::Mkdir { path } => push_one(alloc, out, b"mkdir", path),
        Command::Rmdir { path } => push_one(alloc, out, b"rmdir", path),
        Command::Write { path, text } => push_put(alloc, out, path, text.as_slice()),
        Command::Cat { path } => push_one(alloc, out, b"cat", path),
        Command::Ls { path } => push_maybe(alloc, out, b"ls", path),
        Command::Cd { path } => push_maybe(alloc, out, b"cd", path),
        Command::Pwd => push_bytes(out, b"pwd"),
        Command::Mv { from, to } => push_two(alloc, out, b"mv", from, to),
        Command::Rm { path } => push_one(alloc, out, b"rm", path),
        Command::Ln { target, path } => push_link(alloc, out, target.as_slice(), path),
        Command::Readlink { path } => push_one(alloc, out, b"readlink", path),
        Command::Smkdir { path, query } => push_asking(alloc, out, b"smkdir", path, query),
        Command::Setq { path, query } => push_asking(alloc, out, b"setq", path, query),
        Command::Unq { path } => push_one(alloc, out, b"unq", path),
        Command::Query { path } => push_one(alloc, out, b"query", path),
        Command::Sls { path } => push_maybe(alloc, out, b"sls", path),
        Command::Sln { item, dir } => push_two(alloc, out, b"sln", item, dir),
        Command::Srm { item, dir } => push_two(alloc, out, b"srm", item, dir),
        Command::Sforget { item, dir } => push_two(alloc, out, b"sforget", item, dir),
        Command::Find { query } => push_find(alloc, out, query),
        Command::Smount { path, space } => push_mount(alloc, out, path, space.as_bytes()),
        Command::Ssync { path } => push_one(alloc, out, b"ssync", path),
        Command::Sumount { path } => push_one(alloc, out, b"sumount", path),
        Command::Index => push_bytes(out, b"index"),
        Command::Tick { steps } => push_tick(alloc, out, *steps),
        Command::Counts => push_bytes(out, b"counts"),
        Command::Checkpoint => push_bytes(out, b"checkpoint"),
    }
}

/// Appends a name and one path.
fn push_one(alloc: Global, out: &mut Vec<u8>, name: &[u8], path: &PathWord) -> Result<(), Memory>
    ensures { OnOk result (out.new.items ≡ out.old.items ++ (name.now ++ path_part path.now)) }
{
    push_bytes(out, name)?;
    push_path(alloc, out, path)
}

/// Appends a name and a path, if there is one.
fn push_maybe(
    alloc: Global,
    out: &mut Vec<u8>,
    name: &[u8],
    path: &Option<PathWord>,
) -> Result<(), Memory>
    ensures { OnOk result (out.new.items ≡ out.old.items ++ (name.now ++ maybe_part path.now)) }
{
    match path {
        Some(path) => push_one(alloc, out, name, path),
        None => push_bytes(out, name),
    }
}

/// Appends a name and two paths.
fn push_two(
    alloc: Global,
    out: &mut Vec<u8>,
    name: &[u8],
    first: &PathWord,
    second: &PathWord,
) -> Result<(), Memory>
    ensures { OnOk result (out.new.items ≡ out.old.items ++
        (name.now ++ (path_part first.now ++ path_part second.now))) }
{
    push_one(alloc, out, name, first)?;
    push_path(alloc, out, second)
}

/// Appends a name, a path and a query.
fn push_asking(
    alloc: Global,
    out: &mut Vec<u8>,
    name: &[u8],
    path: &PathWord,
    query: &RawQuery,
) -> Result<(), Memory>
    ensures { OnOk result (out.new.items ≡ out.old.items ++
        (name.now ++ (path_part path.now ++ query_part query.now))) }
{
    push_one(alloc, out, name, path)?;
    push_query(alloc, out, query)
}

/// Appends `put` with the length of a text.
fn push_put(alloc: Global, out: &mut Vec<u8>, path: &PathWord, text: &[u8]) -> Result<(), Memory>
    ensures { OnOk result (out.new.items ≡ out.old.items ++
        (codes "put" ++ (path_part path.now ++ number_part (length text.now)))) }
{
    push_one(alloc, out, b"put", path)?;
    push_number(alloc, out, b" ", text.len() as u64)
}

/// Appends `ln` with a target.
fn push_link(alloc: Global, out: &mut Vec<u8>, target: &[u8], path: &PathWord) -> Result<(), Memory>
    ensures { OnOk result (out.new.items ≡ out.old.items ++
        (codes "ln" ++ (quoted_part target.now ++ path_part path.now))) }
{
    push_bytes(out, b"ln")?;
    push_quoted(out, target)?;
    push_path(alloc, out, path)
}

/// Appends `smount` with the name of a space.
fn push_mount(alloc: Global, out: &mut Vec<u8>, path: &PathWord, space: &[u8]) -> Result<(), Memory>
    ensures { OnOk result (out.new.items ≡ out.old.items ++
        (codes "smount" ++ (path_part path.now ++ quoted_part space.now))) }
{
    push_one(alloc, out, b"smount", path)?;
    push_quoted(out, space)
}

/// Appends `find` with its query.
fn push_find(alloc: Global, out: &mut Vec<u8>, query: &RawQuery) -> Result<(), Memory>
    ensures { OnOk result (out.new.items ≡ out.old.items ++
        (codes "find" ++ query_part query.now)) }
{
    push_bytes(out, b"find")?;
    push_query(alloc, out, query)
}

/// Appends `tick` with its number.
fn push_tick(alloc: Global, out: &mut Vec<u8>, steps: u64) -> Result<(), Memory>
    ensures { OnOk result (out.new.items ≡ out.old.items ++ (codes "tick" ++ number_part steps)) }
{
    push_bytes(out, b"tick")?;
    push_number(alloc, out, b" ", steps)
}

/// Appends a query behind a space.
fn push_query(alloc: Global, out: &mut Vec<u8>, query: &RawQuery) -> Result<(), Memory>
    ensures { OnOk result (out.new.items ≡ out.old.items ++ query_part query.now) }
{
    push_bytes(out, b" ")?;
    push_bytes(out, query_text(alloc, query)?.as_slice())
}

/// Appends a path in quotes behind a space.
fn push_path(alloc: Global, out: &mut Vec<u8>, path: &PathWord) -> Result<(), Memory>
    ensures { OnOk result (out.new.items ≡ out.old.items ++ path_part path.now) }
{
    push_quoted(out, word_text(alloc, path)?.as_bytes())
}

/// Appends bytes in quotes behind a space.
fn push_quoted(out: &mut Vec<u8>, bytes: &[u8]) -> Result<(), Memory>
    ensures { OnOk result (out.new.items ≡ out.old.items ++ quoted_part bytes.now) }
{
    push_bytes(out, b" \"")?;
    push_quoted_bytes(out, bytes)?;
    push_bytes(out, b"\"")
}

/// Appends bytes as they stand between quotes.
fn push_quoted_bytes(out: &mut Vec<u8>, bytes: &[u8]) -> Result<(), Memory>
    ensures { OnOk result (out.new.items ≡ out.old.items ++ flat_map quoted_byte bytes.now) }
{
    for byte in bytes {
        push_quoted_byte(out, *byte)?;
    }
    Ok(())
}

fn push_quoted_byte(out: &mut Vec<u8>, byte: u8) -> Result<(), Memory>
    ensures { OnOk result (out.new.items ≡ out.old.items ++ quoted_byte byte) }
{
    match byte {
        b'"' | b'\\' => out.extend_from_slice(&[b'\\', byte])?,
        _ => out.push(byte)?,
    }
    Ok(())
}
