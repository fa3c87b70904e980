//! Theorems over the definitions alone. Each is the contract of a function that does nothing.
ghost use Rattle.query_text.specs.Laws.{AtMostOneReading, ParenthesesAreNeeded, PrintedQueryIsRead};
ghost use Rattle.query_text.specs.Laws.{PrintedQueryIsReadBack, QueriesAreFound, QueriesAreRead};
ghost use Rattle.query_text.specs.Laws.{ReadQueriesAreSpelled};

/// No bytes are two queries.
pub fn at_most_one_reading()
    ensures { AtMostOneReading }
{}

/// What reading finds is the query that the bytes are, or their first fault.
pub fn queries_are_read()
    ensures { QueriesAreRead }
{}

/// Reading finds each query.
pub fn queries_are_found()
    ensures { QueriesAreFound }
{}

/// A query as it is printed is read as that query.
pub fn printed_query_is_read()
    ensures { PrintedQueryIsRead }
{}

/// Reading a query as it is printed gives that query, or names a limit that its text exceeds.
pub fn printed_query_is_read_back()
    ensures { PrintedQueryIsReadBack }
{}

/// No spelling of a query has fewer parentheses than its text.
pub fn parentheses_are_needed()
    ensures { ParenthesesAreNeeded }
{}

/// A query that is read is as a line spells it.
pub fn read_queries_are_spelled()
    ensures { ReadQueriesAreSpelled }
{}
