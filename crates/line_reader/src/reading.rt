//! Lines out of a stream of bytes, in whatever pieces the stream comes.
ghost use Rattle.std.specs.Prelude.{◌≡◌, ℕ, ◌+◌, ◌-◌, ◌<◌, ◌≤◌, ◌⊎◌, ◌++◌, true, false, [], length};
ghost use Rattle.std.specs.Prelude.{vec_len, take, drop, max, IfOk, OnOk, OnErr, IsErrOf, IfSome};
ghost use Rattle.std.specs.Prelude.{IfNone, MatchOption, MatchResult, slice_index, ◌==◌, position};
ghost use Rattle.std.specs.List.{list_all, position_or_len};
ghost use Rattle.std.specs.Io.KnownBytes.{Keeps};
ghost use Rattle.hac_outside.specs.Causes.{ReportsFault};
ghost use Rattle.hac_model.specs.Bytes.{is_line_end, is_space};
ghost use Rattle.hac_model.specs.Script.Lines.{is_quiet};
ghost use Rattle.hac_model.specs.declared.limits.TheConstants.{TEXT_LIMIT};
ghost use Rattle.hac_model.specs.Script.{is_first_ended};
ghost use Rattle.hac_outside.specs.Known.{Known};
ghost use Rattle.line_reader.specs.Reading.{pending, given, is_read_fault, piece_size, IsUnended};
ghost use Rattle.line_reader.specs.Reading.{IsReading, IsReaderBehind, IsReaderOf, LeavesReader};
ghost use Rattle.line_reader.specs.Reading.{ReadsOn, ReadsPiece};
ghost use Rattle.line_reader.specs.Pieces.{piece_of, GivesPiece, PieceAdvances, IsLineFound};
ghost use Rattle.line_reader.specs.Pieces.{IsPastLimit};

mod taking;

use hac_model::{LINE_LIMIT, Memory, SCRIPT_LIMIT, Text};
use hac_outside::Source;
use std::alloc::{AllocError, Global};
use std::marker::Model;
use thiserror::Error;

// How many bytes are asked of the source at a time.
const PIECE: usize = 4096;

/// What a reader gives.
#[derive(Debug, Drop)]
pub enum Piece {
    /// A blank line or a comment.
    Blank,
    /// A line without its end.
    Bytes(Text),
    /// A line of more bytes than a line may have.
    LongLine,
    /// The script has ended.
    End,
}

/// Why a reader gives nothing. It still holds all that it took, but for bytes of a `put` that are
/// more than a text may have.
#[derive(Clone, Copy, Debug, PartialEq, Eq, Error)]
pub enum LineFault {
    #[error("the script can't be read")]
    Read,
    #[error("out of memory")]
    Memory,
    /// The script is longer than a script may be, and all that lies within the limit was given but
    /// the last line.
    #[error("the script is too long")]
    TooLong,
}

impl From<AllocError> for LineFault {
    ghost use Rattle.std.specs.Prelude.{◌≡◌};
    ghost use Rattle.line_reader.specs.declared.reading.LineFault.TheVariants.{Memory};

    ghost from_gives = { λ _ fault. fault ≡ Memory };

    fn from(_error: AllocError) -> LineFault {
        LineFault::Memory
    }
}

/// Takes lines from a source. It scans no byte twice for a line's end.
#[derive(Debug, Drop)]
pub struct Reader {
    alloc: Global,
    bytes: Vec<u8>,
    // Where what is buffered begins.
    start: usize,
    // Where scanning goes on: between the two there is no line end.
    scanned: usize,
    taken: u64,
    ended: bool,
}

impl Model for Reader {
    ghost use Rattle.line_reader.specs.Reading.{Reading, reading_code};

    ghost Value = { Reading };

    ghost coded = { reading_code };

    ghost use Rattle.line_reader.specs.ReaderShape.{reading_of, IsReader};

    ghost view = { reading_of };

    ghost invariant = { IsReader };
}

/// Where the first line of what is buffered ends.
#[derive(Clone, Copy, Debug)]
enum Found {
    /// At a line end.
    Ended(usize),
    /// Where the script ends.
    Last,
    /// Beyond the limit of a script.
    Past,
}

impl Reader {
    /// A reader that has read nothing.
    pub fn new(alloc: Global) -> Result<Reader, Memory>
        ensures { IfOk result (λ reader. reader
            ≡ record { buffered = []; taken = 0; ended = false }) }
    {
        let bytes = Vec::with_capacity(alloc, PIECE)?;
        Ok(Reader {
            alloc,
            bytes,
            start: 0,
            scanned: 0,
            taken: 0,
            ended: false,
        })
    }

    /// The next line of the script, or its end. It reads only where no line is buffered, and never
    /// behind the end.
    pub fn next_line<S: Source>(&mut self, source: &mut S) -> Result<Piece, LineFault>
        // A reader is given the source that it began with.
        requires { IsReaderOf self.old (S.seen source.old) }

        ensures piece { IfOk result (λ piece. Known (GivesPiece piece self.new.ended)
            (pending self.old (S.seen source.old).left)
            (pending self.new (S.seen source.new).left)) }
        ensures advances { IfOk result (λ piece. PieceAdvances piece self.old self.new) }

        // After a fault the reader still holds what it took.
        ensures err { OnErr result (Keeps (pending self.old (S.seen source.old).left)
            (pending self.new (S.seen source.new).left)) }
        ensures past { IsErrOf result LineFault.TooLong → IsPastLimit self.new }

        // A buffered line is given without a read, so reading fails only where there is none.
        ensures unended { IsErrOf result LineFault.Read → IsUnended self.new.buffered }
        ensures unread { is_first_ended self.old.buffered ≡ true → source.new ≡ source.old }
        ensures source { MatchResult result (λ _. IsReaderBehind 0 self.new (S.seen source.new))
            (λ _. IsReaderOf self.new (S.seen source.new)) }
        ensures leaves { LeavesReader result self.old self.new (S.seen source.old)
            (S.seen source.new) }
    {
        match self.find_line(source)? {
            Found::Ended(end) => self.give(end, end + 1),
            Found::Last => self.give_last(),
            Found::Past => Err(LineFault::TooLong),
        }
    }

    /// Reads until the first line is buffered, or all that there is of it.
    fn find_line<S: Source>(&mut self, source: &mut S) -> Result<Found, LineFault>
        requires { IsReaderOf self.old (S.seen source.old) }
        ensures found { IfOk result (λ found. IsLineFound found self.new) }
        ensures sound { IsReading self.new }
        ensures reads { ReadsOn self.old self.new (S.seen source.old) (S.seen source.new) }
        ensures source { IsReaderOf self.new (S.seen source.new) }
        ensures unread { is_first_ended self.old.buffered ≡ true → source.new ≡ source.old }
        ensures unended { OnErr result
            ((self.new.ended ≡ false) × (self.new.taken ≤ SCRIPT_LIMIT)
            × IsUnended self.new.buffered) }
        ensures not_long { IsErrOf result LineFault.TooLong → ⊥ }
        ensures faults { ReportsFault (is_read_fault result) (S.seen source.old).faults
            (S.seen source.new).faults }
    {
        loop {
            if let Some(found) = self.look() {
                return Ok(found);
            }
            self.mark_scanned();
            self.fill(source)?;
        }
    }

    /// Remembers that what is buffered has no line end.
    fn mark_scanned(&mut self)
        requires { IsUnended self.old.buffered }
        ensures { self.new ≡ self.old }
    {
        self.scanned = self.bytes.len();
    }

    /// Where the first line ends by what is buffered. None where more is to be read.
    fn look(&self) -> Option<Found>
        ensures sound { IsReading self.now }
        ensures found { IfSome result (λ found. IsLineFound found self.now) }
        ensures none { IfNone result
            ((self.now.ended ≡ false) × (self.now.taken ≤ SCRIPT_LIMIT)
            × IsUnended self.now.buffered) }
    {
        match line_end(self.buffered(), self.scanned - self.start) {
            Some(end) => Some(self.found_at(end)),
            None if self.ended => Some(Found::Last),
            None if self.taken > SCRIPT_LIMIT => Some(Found::Past),
            None => None,
        }
    }

    /// Whether the line end at `end` is within the limit of a script.
    fn found_at(&self, end: usize) -> Found
        requires place { end ≡ position_or_len is_line_end self.now.buffered }
        requires inside { end < length self.now.buffered }
        ensures { IsLineFound result self.now }
    {
        let given = self.taken - self.buffered().len() as u64;
        if given + (end as u64) < SCRIPT_LIMIT {
            Found::Ended(end)
        } else {
            Found::Past
        }
    }

    fn buffered(&self) -> &[u8]
        ensures buffered { result.now ≡ self.now.buffered }
        ensures sound { IsReading self.now }
    {
        &self.bytes[self.start..]
    }

    /// Takes one more piece of the source.
    fn fill<S: Source>(&mut self, source: &mut S) -> Result<(), LineFault>
        requires source { (S.seen source.old).ended ≡ false }
        requires open { self.old.ended ≡ false }
        requires room { self.old.taken ≤ SCRIPT_LIMIT }
        requires few { length self.old.buffered ≤ max
            (position_or_len is_line_end self.old.buffered)
            TEXT_LIMIT }
        ensures reads { ReadsOn self.old self.new (S.seen source.old) (S.seen source.new) }
        ensures ok { OnOk result ((self.new.ended ≡ true) ⊎ (self.old.taken < self.new.taken)) }
        ensures err { OnErr result (self.new ≡ self.old) }
        ensures not_long { IsErrOf result LineFault.TooLong → ⊥ }
        ensures sound { IsReading self.new }
        ensures near { length self.new.buffered ≤ length self.old.buffered + piece_size }
        ensures end { self.new.ended ≡ true → self.new.buffered ≡ self.old.buffered }
        ensures faults { ReportsFault (is_read_fault result) (S.seen source.old).faults
            (S.seen source.new).faults }
    {
        drop_front(&mut self.bytes, self.start);
        self.scanned -= self.start;
        self.start = 0;
        let room = SCRIPT_LIMIT + 1 - self.taken;
        let most = if room < PIECE as u64 {
            room as usize
        } else {
            PIECE
        };
        let count = read_onto(&mut self.bytes, source, most)?;
        self.ended = count == 0;
        self.taken += count as u64;
        Ok(())
    }

    /// Gives the first `count` bytes as a line, and drops the first `end`.
    fn give(&mut self, count: usize, end: usize) -> Result<Piece, LineFault>
        requires order { count ≤ end }
        requires inside { end ≤ length self.old.buffered }
        requires limit { given self.old + end ≤ SCRIPT_LIMIT }
        ensures piece { IfOk result (λ piece. piece ≡ piece_of (take count self.old.buffered)) }
        ensures ok { OnOk result (self.new
            ≡ record self.old { buffered = drop end self.old.buffered }) }
        ensures err { OnErr result (self.new ≡ self.old) }
        ensures memory { OnErr result (IsErrOf result LineFault.Memory) }
        ensures sound { IsReading self.new }
    {
        let piece = piece_of(self.alloc, &self.buffered()[..count])?;
        self.start += end;
        self.scanned = self.start;
        Ok(piece)
    }

    /// Gives all that is buffered as the last line.
    fn give_last(&mut self) -> Result<Piece, LineFault>
        requires { self.old.ended ≡ true }
        ensures none { self.old.buffered ≡ [] → (result ≡ Ok Piece.End) × (self.new ≡ self.old) }
        ensures piece { 0 < length self.old.buffered →
            IfOk result (λ piece. piece ≡ piece_of self.old.buffered) }
        ensures ok { OnOk result (self.new ≡ record self.old { buffered = [] }) }
        ensures err { OnErr result (self.new ≡ self.old) }
        ensures memory { OnErr result (IsErrOf result LineFault.Memory) }
        ensures sound { IsReading self.new }
    {
        let all = self.buffered().len();
        if all == 0 {
            return Ok(Piece::End);
        }
        self.give(all, all)
    }
}

/// Drops the first `count` bytes.
fn drop_front(bytes: &mut Vec<u8>, count: usize)
    requires { count ≤ vec_len bytes.old }
    ensures { bytes.new.items ≡ drop count bytes.old.items }
{
    bytes.rotate_left(count);
    bytes.truncate(bytes.len() - count);
}

/// Reads at most `most` bytes to the end of `bytes`, and says how many. What can want memory is
/// done before the read, so that nothing that was read is lost.
fn read_onto<S: Source>(
    bytes: &mut Vec<u8>,
    source: &mut S,
    most: usize,
) -> Result<usize, LineFault>
    requires open { (S.seen source.old).ended ≡ false }
    requires some { 0 < most }
    requires most { most ≤ piece_size }
    ensures ok { IfOk result (λ count. ReadsPiece bytes.old.items bytes.new.items
        (S.seen source.old) (S.seen source.new) count most) }
    ensures err { OnErr result ((bytes.new.items ≡ bytes.old.items)
        × Keeps (S.seen source.old).left (S.seen source.new).left) }
    ensures open { OnErr result ((S.seen source.new).ended ≡ false) }
    ensures not_long { IsErrOf result LineFault.TooLong → ⊥ }
    ensures faults { ReportsFault (is_read_fault result) (S.seen source.old).faults
        (S.seen source.new).faults }
{
    bytes.reserve(PIECE)?;
    let mut piece = [0u8; PIECE];
    let Ok(count) = source.read(&mut piece[..most]) else {
        return Err(LineFault::Read);
    };
    bytes.extend_from_slice(&piece[..count]).unwrap();
    Ok(count)
}

/// The place of the first line end, which is at `from` or behind it.
fn line_end(bytes: &[u8], from: usize) -> Option<usize>
    requires { from ≤ position_or_len is_line_end bytes.now }
    ensures { result ≡ position is_line_end bytes.now }
{
    match first_end(&bytes[from..]) {
        Some(place) => Some(from + place),
        None => None,
    }
}

fn first_end(bytes: &[u8]) -> Option<usize>
    ensures { result ≡ position is_line_end bytes.now }
{
    bytes.iter().position(|byte| *byte == b'\n')
}

fn is_comment(line: &[u8]) -> bool
    ensures { result ≡ (slice_index line.now 0 == 35) }
{
    match line.first() {
        Some(first) => *first == b'#',
        None => false,
    }
}

/// Whether there are only spaces.
pub fn is_blank(bytes: &[u8]) -> bool
    ensures { result ≡ list_all is_space bytes.now }
{
    bytes.iter().all(|byte| *byte == b' ')
}

/// A blank line or a comment has no reply.
fn is_quiet(line: &[u8]) -> bool
    ensures { result ≡ is_quiet line.now }
{
    is_comment(line) || is_blank(line)
}

/// The piece that a line is given as.
fn piece_of(alloc: Global, line: &[u8]) -> Result<Piece, AllocError>
    ensures { IfOk result (λ piece. piece ≡ piece_of line.now) }
{
    if is_quiet(line) {
        return Ok(Piece::Blank);
    }
    if line.len() > LINE_LIMIT {
        return Ok(Piece::LongLine);
    }
    Ok(Piece::Bytes(Text::new(Vec::from_slice(alloc, line)?)))
}
