//! Theorems on records alone. Each is the contract of a function that does nothing.
ghost use Rattle.hac_journal.specs.Laws.{ClosedIsFound, FoundAlong, FoundIsClosed, FoundIsWhole};
ghost use Rattle.hac_journal.specs.Laws.{LogsAreRead, LogsEndClosed, LogsGoOn, NoneIsClosed};
ghost use Rattle.hac_journal.specs.Laws.{RecordsAreFound};

/// Records of a file are found one by one, up to the closed gate behind them.
pub fn records_are_found()
    ensures records { RecordsAreFound }
    ensures none { NoneIsClosed }
{}

/// A log ends at a gate that isn't open, and nowhere else.
pub fn closed_gates_end_a_log()
    ensures found { ClosedIsFound }
    ensures only { FoundIsClosed }
{}

/// A record that is found is whole before the next gate, and is found in each file that agrees up
/// to there.
pub fn found_records_are_whole()
    ensures whole { FoundIsWhole }
    ensures along { FoundAlong }
{}

/// Payloads that were written are the records of a log, and it ends behind them.
pub fn logs_are_read()
    ensures { LogsAreRead }
{}

/// A log that ends at a gate is read in each file that agrees up to there, and goes on from there.
pub fn logs_go_on()
    ensures on { LogsGoOn }
    ensures closed { LogsEndClosed }
{}
