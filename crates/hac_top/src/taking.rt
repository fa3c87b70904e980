//! Taking the next line of the script, with the bytes that belong to it.
ghost use Rattle.std.specs.Prelude.{◌≡◌, ◌≤◌, IfOk, IfErr};
ghost use Rattle.std.specs.Option.{unwrap_or};
ghost use Rattle.line_reader.specs.Reading.{given, IsReading, IsReaderBehind, IsReaderOf};
ghost use Rattle.line_reader.specs.Reading.{LeavesReader};
ghost use Rattle.line_reader.specs.Takes.{FallsShort};
ghost use Rattle.hac_top.specs.TakenLines.{GivesDue, StopsTaking, TakesLine, due_of_piece};

use crate::status::Status;
use hac_model::{SCRIPT_LIMIT, Taken};
use hac_outside::Source;
use line_reader::{LineFault, Piece, Reader};
use shell_lang::put_length;

/// A line that was taken, and what came of the bytes that it asks for, where it asks for any.
#[derive(Debug, Drop)]
pub struct TakenLine {
    pub piece: Piece,
    pub taken: Option<Taken>,
}

/// Takes the next line, with the bytes that belong to it. None at the end of the script.
pub fn take_line<S: Source>(reader: &mut Reader, input: &mut S) -> Result<Option<TakenLine>, Status>
    requires { IsReaderOf reader.old (S.seen input.old) }
    ensures line { IfOk result (TakesLine reader.old reader.new (S.seen input.old)
        (S.seen input.new)) }
    ensures stops { IfErr result (StopsTaking reader.old reader.new (S.seen input.old)
        (S.seen input.new)) }
{
    match reader.next_line(input)? {
        Piece::End => Ok(None),
        piece => match take_due(reader, input, due_of(&piece)) {
            Ok(taken) => Ok(Some(TakenLine { piece, taken })),
            Err(fault) => {
                drop(piece);
                Err(Status::from(fault))
            }
        },
    }
}

/// Takes the bytes that a line asks for, and says what came of them. None where it asks for none.
fn take_due<S: Source>(
    reader: &mut Reader,
    input: &mut S,
    due: Option<u64>,
) -> Result<Option<Taken>, LineFault>
    requires source { IsReaderBehind 0 reader.old (S.seen input.old) }
    requires sound { IsReading reader.old }
    requires limit { given reader.old ≤ SCRIPT_LIMIT }
    ensures given { IfOk result (λ taken. GivesDue due taken reader.old reader.new
        (S.seen input.old) (S.seen input.new)) }
    ensures fault { IfErr result (λ fault. FallsShort fault (unwrap_or due 0) reader.old reader.new
        (S.seen input.old) (S.seen input.new)) }
    ensures leaves { LeavesReader result reader.old reader.new (S.seen input.old)
        (S.seen input.new) }
{
    match due {
        Some(length) => Ok(Some(reader.take_put(input, length)?)),
        None => Ok(None),
    }
}

/// How many bytes a piece asks for, where it is a line that takes bytes.
fn due_of(piece: &Piece) -> Option<u64>
    ensures { result ≡ due_of_piece piece.now }
{
    match piece {
        Piece::Bytes(line) => put_length(line.as_slice()),
        Piece::Blank | Piece::LongLine | Piece::End => None,
    }
}
