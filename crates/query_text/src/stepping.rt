//! What one byte more makes of what was read of a query.
ghost use Rattle.std.specs.Prelude.{◌≡◌, ◌==◌, ◌∷◌, ◌++◌, [], if◌then◌else◌, option_and_then, Ok};
ghost use Rattle.std.specs.Prelude.{Err, Some, IfOk, MatchResult};
ghost use Rattle.std.specs.Option.{option_map};
ghost use Rattle.hac_model.specs.Query.Grammar as grammar;
ghost use Rattle.hac_model.specs.Query.QueryReading as reading;
ghost use Rattle.hac_model.specs.Query.Words as words;

use crate::joining::{after_and, after_or, empty_level, enter, finish, leave, negate, receive};
use crate::kinds::kind_of;
use hac_model::reading::{ByteKind, Ended, Operand, Operator, Part, Reader, Stack, Wanted};
use hac_model::{Memory, Name, Pile, Query, Term, Text};
use std::alloc::Global;

/// Before the first byte.
pub(crate) fn start(alloc: Global) -> Reader
    ensures { result ≡ reading.fresh_reader }
{
    Reader::Wants(
        Operand::Nothing,
        Wanted {
            level: empty_level(),
            outer: Pile::new(alloc),
        },
    )
}

/// Behind a byte; None where no query goes on so.
pub(crate) fn step(alloc: Global, reader: Reader, byte: u8) -> Result<Option<Reader>, Memory>
    ensures { IfOk result (λ next. next ≡ reading.step byte reader) }
{
    match reader {
        Reader::Wants(operand, wanted) => {
            operand_step(alloc, kind_of(byte), byte, operand, wanted)
        }
        Reader::Ends(operator, ended) => operator_step(alloc, kind_of(byte), byte, operator, ended),
    }
}

/// The query that was read, where nothing follows.
pub(crate) fn ended(alloc: Global, reader: Reader) -> Result<Option<Part>, Memory>
    ensures { IfOk result (λ part. part ≡ reading.read_whole reader) }
{
    match reader {
        Reader::Wants(operand, wanted) => ended_wanting(alloc, operand, wanted),
        Reader::Ends(operator, ended) => end_behind_operand(alloc, operator, ended),
    }
}

fn ended_wanting(alloc: Global, operand: Operand, wanted: Wanted) -> Result<Option<Part>, Memory>
    ensures { IfOk result (λ part. part ≡ reading.read_whole (Reader.Wants operand wanted)) }
{
    match operand {
        Operand::Run(run) => ended_run(alloc, run, wanted),
        _ => Ok(None),
    }
}

fn end_behind_operand(
    alloc: Global,
    operator: Operator,
    ended: Ended,
) -> Result<Option<Part>, Memory>
    ensures { IfOk result (λ part. part ≡ reading.read_whole (Reader.Ends operator ended)) }
{
    match operator {
        Operator::Nothing => finish(alloc, ended),
        _ => {
            drop(ended);
            Ok(None)
        }
    }
}

fn ended_run(alloc: Global, run: Text, wanted: Wanted) -> Result<Option<Part>, Memory>
    ensures { IfOk result (λ part. part ≡ option_and_then reading.ended_token
        (reading.after_run run wanted)) }
{
    match after_run(alloc, run, wanted)? {
        Some(Stack::Ending(ended)) => finish(alloc, ended),
        _ => Ok(None),
    }
}

/// A byte where an operand is wanted.
fn operand_step(
    alloc: Global,
    kind: ByteKind,
    byte: u8,
    operand: Operand,
    wanted: Wanted,
) -> Result<Option<Reader>, Memory>
    ensures { IfOk result (λ next. next ≡ reading.operand_step kind byte operand wanted) }
{
    match operand {
        Operand::Nothing => operand_begins(alloc, kind, byte, wanted),
        Operand::Run(run) => run_step(alloc, kind, byte, run, wanted),
        Operand::Brace => brace_step(alloc, kind, byte, wanted),
        Operand::Path(path) => path_step(alloc, kind, byte, path, wanted),
        Operand::Escape(path) => escape_step(kind, byte, path, wanted),
    }
}

/// A byte behind a token, where an operand is wanted.
fn operand_begins(
    alloc: Global,
    kind: ByteKind,
    byte: u8,
    wanted: Wanted,
) -> Result<Option<Reader>, Memory>
    ensures { IfOk result (λ next. next ≡ reading.operand_begins kind byte wanted) }
{
    match kind {
        ByteKind::Word => wants(first_of_run(alloc, byte), wanted),
        ByteKind::Space => Ok(Some(Reader::Wants(Operand::Nothing, wanted))),
        ByteKind::Open => Ok(Some(Reader::Wants(Operand::Nothing, enter(wanted)?))),
        ByteKind::Brace => Ok(Some(Reader::Wants(Operand::Brace, wanted))),
        _ => {
            drop(wanted);
            Ok(None)
        }
    }
}

/// A byte behind a part of a run.
fn run_step(
    alloc: Global,
    kind: ByteKind,
    byte: u8,
    run: Text,
    wanted: Wanted,
) -> Result<Option<Reader>, Memory>
    ensures { IfOk result (λ next. next ≡ reading.run_step kind byte run wanted) }
{
    match kind {
        ByteKind::Word => wants(longer_run(run, byte), wanted),
        ByteKind::Star => {
            let letters = lower_case(alloc, run.as_slice())?;
            received(alloc, Query::term(Term::Prefix(letters)), wanted)
        }
        _ => run_ends(alloc, kind, byte, run, wanted),
    }
}

/// A byte behind a run that ended.
fn run_ends(
    alloc: Global,
    kind: ByteKind,
    byte: u8,
    run: Text,
    wanted: Wanted,
) -> Result<Option<Reader>, Memory>
    ensures { IfOk result (λ next. next ≡ reading.run_ends kind byte run wanted) }
{
    match after_run(alloc, run, wanted)? {
        Some(Stack::Wanting(wanted)) => operand_begins(alloc, kind, byte, wanted),
        Some(Stack::Ending(ended)) => operator_begins(alloc, kind, byte, ended),
        None => Ok(None),
    }
}

/// Behind a run that ended where an operand was wanted.
#[tactic(auto, unfolding(hac_model::specs::Query::QueryReading::after_run))]
fn after_run(alloc: Global, run: Text, wanted: Wanted) -> Result<Option<Stack>, Memory>
    ensures { IfOk result (λ stack. stack ≡ reading.after_run run wanted) }
{
    match run.as_slice() {
        b"NOT" => Ok(Some(Stack::Wanting(negate(wanted)?))),
        b"AND" | b"OR" => {
            drop(wanted);
            Ok(None)
        }
        word => Ok(Some(Stack::Ending(after_word(alloc, word, wanted)?))),
    }
}

/// Behind a word that is no operator.
fn after_word(alloc: Global, word: &[u8], wanted: Wanted) -> Result<Ended, Memory>
    ensures { IfOk result (λ ended. ended ≡ reading.receive
        (grammar.leaf_part (grammar.Word (words.lower_case word.now))) wanted) }
{
    match lower_case(alloc, word) {
        Ok(letters) => receive(alloc, leaf_part(Query::term(Term::Word(letters))), wanted),
        Err(memory) => {
            drop(wanted);
            Err(memory)
        }
    }
}

/// A byte behind an opening brace.
fn brace_step(
    alloc: Global,
    kind: ByteKind,
    byte: u8,
    wanted: Wanted,
) -> Result<Option<Reader>, Memory>
    ensures { IfOk result (λ next. next ≡ reading.brace_step kind byte wanted) }
{
    match kind {
        ByteKind::Slash => wants(first_of_path(alloc, byte), wanted),
        _ => {
            drop(wanted);
            Ok(None)
        }
    }
}

/// A byte behind a part of a path.
fn path_step(
    alloc: Global,
    kind: ByteKind,
    byte: u8,
    path: Text,
    wanted: Wanted,
) -> Result<Option<Reader>, Memory>
    ensures { IfOk result (λ next. next ≡ reading.path_step kind byte path wanted) }
{
    match kind {
        ByteKind::EndBrace => received(alloc, Query::dir(Name::new(path.into_vec())), wanted),
        ByteKind::Backslash => Ok(Some(Reader::Wants(Operand::Escape(path), wanted))),
        ByteKind::Control => {
            drop(wanted);
            Ok(None)
        }
        _ => wants(longer_path(path, byte), wanted),
    }
}

/// A byte behind a backslash in a path.
fn escape_step(
    kind: ByteKind,
    byte: u8,
    path: Text,
    wanted: Wanted,
) -> Result<Option<Reader>, Memory>
    ensures { IfOk result (λ next. next ≡ reading.escape_step kind byte path wanted) }
{
    match kind {
        ByteKind::EndBrace | ByteKind::Backslash => wants(longer_path(path, byte), wanted),
        _ => {
            drop(wanted);
            Ok(None)
        }
    }
}

/// A byte where an operand ended.
fn operator_step(
    alloc: Global,
    kind: ByteKind,
    byte: u8,
    operator: Operator,
    ended: Ended,
) -> Result<Option<Reader>, Memory>
    ensures { IfOk result (λ next. next ≡ reading.operator_step kind byte operator ended) }
{
    match operator {
        Operator::Nothing => operator_begins(alloc, kind, byte, ended),
        Operator::A => Ok(letter(b'N', byte, Operator::An, ended)),
        Operator::An => Ok(letter(b'D', byte, Operator::And, ended)),
        Operator::And => sign_ends(alloc, kind, byte, after_and(ended)),
        Operator::O => Ok(letter(b'R', byte, Operator::Or, ended)),
        Operator::Or => sign_ends(alloc, kind, byte, after_or(alloc, ended)?),
    }
}

/// A byte that is to be the next letter of an operator.
fn letter(wanted: u8, byte: u8, next: Operator, ended: Ended) -> Option<Reader>
    ensures { result ≡ (if byte == wanted then Some (Reader.Ends next ended) else None) }
{
    if byte == wanted {
        Some(Reader::Ends(next, ended))
    } else {
        drop(ended);
        None
    }
}

/// A byte behind a token, where an operand ended.
fn operator_begins(
    alloc: Global,
    kind: ByteKind,
    byte: u8,
    ended: Ended,
) -> Result<Option<Reader>, Memory>
    ensures { IfOk result (λ next. next ≡ reading.operator_begins kind byte ended) }
{
    match kind {
        ByteKind::Word => Ok(sign_begins(byte, ended)),
        ByteKind::Space => Ok(Some(Reader::Ends(Operator::Nothing, ended))),
        ByteKind::Close => closed(alloc, ended),
        _ => {
            drop(ended);
            Ok(None)
        }
    }
}

/// The first letter of an operator.
fn sign_begins(byte: u8, ended: Ended) -> Option<Reader>
    ensures { result ≡ reading.sign_begins byte ended }
{
    match byte {
        b'A' => Some(Reader::Ends(Operator::A, ended)),
        b'O' => Some(Reader::Ends(Operator::O, ended)),
        _ => {
            drop(ended);
            None
        }
    }
}

fn closed(alloc: Global, ended: Ended) -> Result<Option<Reader>, Memory>
    ensures { IfOk result (λ next. next ≡ option_map (Reader.Ends Operator.Nothing)
        (reading.leave ended)) }
{
    match leave(alloc, ended)? {
        Some(ended) => Ok(Some(Reader::Ends(Operator::Nothing, ended))),
        None => Ok(None),
    }
}

/// A byte behind an operator.
fn sign_ends(
    alloc: Global,
    kind: ByteKind,
    byte: u8,
    wanted: Wanted,
) -> Result<Option<Reader>, Memory>
    ensures { IfOk result (λ next. next ≡ reading.sign_ends kind byte wanted) }
{
    match kind {
        ByteKind::Word | ByteKind::Star => {
            drop(wanted);
            Ok(None)
        }
        _ => operand_begins(alloc, kind, byte, wanted),
    }
}

/// Behind a leaf.
fn received(alloc: Global, query: Query<Name>, wanted: Wanted) -> Result<Option<Reader>, Memory>
    ensures { IfOk result (λ next. next ≡ Some (Reader.Ends Operator.Nothing
        (reading.receive (record { query = query; nesting = 0 }) wanted))) }
{
    let ended = receive(alloc, leaf_part(query), wanted)?;
    Ok(Some(Reader::Ends(Operator::Nothing, ended)))
}

fn leaf_part(query: Query<Name>) -> Part
    ensures { result ≡ record { query = query; nesting = 0 } }
{
    Part { query, nesting: 0 }
}

/// The reader that goes on with an operand, unless memory ran out over it.
fn wants(operand: Result<Operand, Memory>, wanted: Wanted) -> Result<Option<Reader>, Memory>
    ensures { MatchResult operand (λ operand. result ≡ Ok (Some (Reader.Wants operand wanted)))
        (λ memory. result ≡ Err memory) }
{
    match operand {
        Ok(operand) => Ok(Some(Reader::Wants(operand, wanted))),
        Err(memory) => {
            drop(wanted);
            Err(memory)
        }
    }
}

fn first_of_run(alloc: Global, byte: u8) -> Result<Operand, Memory>
    ensures { IfOk result (λ operand. operand ≡ Operand.Run (byte ∷ [])) }
{
    Ok(Operand::Run(first_byte(alloc, byte)?))
}

fn longer_run(run: Text, byte: u8) -> Result<Operand, Memory>
    ensures { IfOk result (λ operand. operand ≡ Operand.Run (run ++ byte ∷ [])) }
{
    Ok(Operand::Run(with_byte(run, byte)?))
}

fn first_of_path(alloc: Global, byte: u8) -> Result<Operand, Memory>
    ensures { IfOk result (λ operand. operand ≡ Operand.Path (byte ∷ [])) }
{
    Ok(Operand::Path(first_byte(alloc, byte)?))
}

fn longer_path(path: Text, byte: u8) -> Result<Operand, Memory>
    ensures { IfOk result (λ operand. operand ≡ Operand.Path (path ++ byte ∷ [])) }
{
    Ok(Operand::Path(with_byte(path, byte)?))
}

fn first_byte(alloc: Global, byte: u8) -> Result<Text, Memory>
    ensures { IfOk result (λ text. text ≡ byte ∷ []) }
{
    Ok(Text::new(vec![in alloc; byte]?))
}

fn with_byte(text: Text, byte: u8) -> Result<Text, Memory>
    ensures { IfOk result (λ more. more ≡ text ++ byte ∷ []) }
{
    let mut bytes = text.into_vec();
    bytes.push(byte)?;
    Ok(Text::new(bytes))
}

fn lower_case(alloc: Global, run: &[u8]) -> Result<Name, Memory>
    ensures { IfOk result (λ letters. letters ≡ words.lower_case run.now) }
{
    let letters = run.iter().map(|b| b.to_ascii_lowercase()).collect(alloc)?;
    Ok(Name::new(letters))
}
