//! A line's session and command. What a command does is not known here.
ghost use Rattle.std.specs.Prelude.{IfOk, IsTrue};
ghost use Rattle.hac_model.specs.Run.Answers.{Answers};
ghost use Rattle.hac_model.specs.Script.Lines.{called_with, command_with, is_spelled_line};
ghost use Rattle.hac_model.specs.Script.Lines.{item_taken, line_with, named_command};

use crate::numbers::parse_tick;
use crate::putting::{is_put, parse_put};
use crate::sessions::session_words;
use crate::shapes::{
    alone, maybe_path, of_two_paths, one_path, parse_find, parse_link, parse_mount, path_and_query,
};
use crate::words::split_word;
use crate::writing::parse_write;
use hac_model::{Command, Deny, LINE_LIMIT, LimitWord, Line, Name, Refusal, Taken};
use std::alloc::Global;

/// The session and the command that a line spells, or the first refusal of its spelling. `taken` is
/// what came of the bytes behind the line, where it asks for any.
pub fn parse_line(alloc: Global, line: &[u8], taken: Option<Taken>) -> Result<Line, Deny>
    ensures line { Answers result (item_taken line.now taken) }
    ensures spelled { IfOk result (λ line. IsTrue (is_spelled_line line)) }
{
    if line.len() > LINE_LIMIT {
        return Err(Deny::Refused(Refusal::Limit(LimitWord::Line)));
    }
    line_with(alloc, line, taken)
}

/// The same of a line of any length.
fn line_with(alloc: Global, line: &[u8], taken: Option<Taken>) -> Result<Line, Deny>
    ensures { Answers result (line_with line.now taken) }
{
    let Some((name, bytes)) = session_words(line) else {
        return Err(Deny::Refused(Refusal::BadLine));
    };
    let session = Name::new(Vec::from_slice(alloc, name)?);
    let command = parse_with(alloc, bytes, taken)?;
    Ok(Line { session, command })
}

/// The command that the bytes behind a session spell, given what came of the bytes behind the line.
fn parse_with(alloc: Global, bytes: &[u8], taken: Option<Taken>) -> Result<Command, Deny>
    ensures { Answers result (command_with bytes.now taken) }
{
    let (name, arguments) = split_word(alloc, bytes)?;
    parse_called(alloc, &name, arguments, taken)
}

/// The command of a name, from what follows it, given what came of the bytes behind the line.
fn parse_called(
    alloc: Global,
    name: &[u8],
    arguments: &[u8],
    taken: Option<Taken>,
) -> Result<Command, Deny>
    ensures { Answers result (called_with name.now arguments.now taken) }
{
    if is_put(name) {
        parse_put(alloc, arguments, taken)
    } else {
        parse_named(alloc, name, arguments)
    }
}

/// The command of a name, from what follows it.
fn parse_named(alloc: Global, name: &[u8], arguments: &[u8]) -> Result<Command, Deny>
    ensures { Answers result (named_command name.now arguments.now) }
{
    if name == b"mkdir".as_slice() {
        one_path(alloc, arguments, |path| Command::Mkdir { path })
    } else if name == b"rmdir".as_slice() {
        one_path(alloc, arguments, |path| Command::Rmdir { path })
    } else if name == b"write".as_slice() {
        parse_write(alloc, arguments)
    } else if name == b"cat".as_slice() {
        one_path(alloc, arguments, |path| Command::Cat { path })
    } else if name == b"ls".as_slice() {
        maybe_path(alloc, arguments, |path| Command::Ls { path })
    } else if name == b"cd".as_slice() {
        maybe_path(alloc, arguments, |path| Command::Cd { path })
    } else if name == b"pwd".as_slice() {
        alone(arguments, Command::Pwd)
    } else if name == b"mv".as_slice() {
        of_two_paths(alloc, arguments, |from, to| Command::Mv { from, to })
    } else if name == b"rm".as_slice() {
        one_path(alloc, arguments, |path| Command::Rm { path })
    } else if name == b"ln".as_slice() {
        parse_link(alloc, arguments)
    } else if name == b"readlink".as_slice() {
        one_path(alloc, arguments, |path| Command::Readlink { path })
    } else if name == b"smkdir".as_slice() {
        path_and_query(
            alloc,
            arguments,
            |path, query| Command::Smkdir { path, query },
        )
    } else if name == b"setq".as_slice() {
        path_and_query(
            alloc,
            arguments,
            |path, query| Command::Setq { path, query },
        )
    } else if name == b"unq".as_slice() {
        one_path(alloc, arguments, |path| Command::Unq { path })
    } else if name == b"query".as_slice() {
        one_path(alloc, arguments, |path| Command::Query { path })
    } else if name == b"sls".as_slice() {
        maybe_path(alloc, arguments, |path| Command::Sls { path })
    } else if name == b"sln".as_slice() {
        of_two_paths(alloc, arguments, |item, dir| Command::Sln { item, dir })
    } else if name == b"srm".as_slice() {
        of_two_paths(alloc, arguments, |item, dir| Command::Srm { item, dir })
    } else if name == b"sforget".as_slice() {
        of_two_paths(alloc, arguments, |item, dir| Command::Sforget { item, dir })
    } else if name == b"find".as_slice() {
        parse_find(alloc, arguments)
    } else if name == b"smount".as_slice() {
        parse_mount(alloc, arguments)
    } else if name == b"ssync".as_slice() {
        one_path(alloc, arguments, |path| Command::Ssync { path })
    } else if name == b"sumount".as_slice() {
        one_path(alloc, arguments, |path| Command::Sumount { path })
    } else if name == b"index".as_slice() {
        alone(arguments, Command::Index)
    } else if name == b"tick".as_slice() {
        parse_tick(alloc, arguments)
    } else if name == b"counts".as_slice() {
        alone(arguments, Command::Counts)
    } else if name == b"checkpoint".as_slice() {
        alone(arguments, Command::Checkpoint)
    } else {
        Err(Deny::Refused(Refusal::BadLine))
    }
}
