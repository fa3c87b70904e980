//! How far a query was read, byte by byte: what comes before the next byte. `step` of the specs
//! says what a byte makes of it.
use crate::bytes::{Name, Pile, Text};
use crate::queries::Query;

/// A query as its bytes spell it, which names each directory by the bytes of its path.
#[derive(Debug, Drop)]
pub struct Part {
    /// What it says.
    pub query: Query<Name>,
    /// The most parentheses and `NOT`s around any one of its terms.
    pub nesting: u64,
}

/// Before the operand that is wanted: what stands there from the last open parenthesis on.
#[derive(Debug, Drop)]
pub struct Level {
    /// What an `OR` joins to what follows.
    pub ors: Option<Part>,
    /// What an `AND` joins to what follows.
    pub ands: Option<Part>,
    /// How many `NOT`s come directly before it.
    pub nots: u64,
}

/// What comes before the operand that is wanted.
#[derive(Debug, Drop)]
pub struct Wanted {
    /// What follows the last open parenthesis.
    pub level: Level,
    /// What comes before each open parenthesis, the last one first.
    pub outer: Pile<Level>,
}

/// After an operand: that operand, and what stands before it.
#[derive(Debug, Drop)]
pub struct Ended {
    /// What an `OR` joins to the part, from the last open parenthesis on.
    pub ors: Option<Part>,
    /// The operand, with its `AND`s and `NOT`s before it.
    pub part: Part,
    /// What comes before each open parenthesis, the last one first.
    pub outer: Pile<Level>,
}

/// How much was read of an operand that is wanted.
#[derive(Debug, Drop)]
pub enum Operand {
    /// Nothing.
    Nothing,
    /// A run of word bytes.
    Run(Text),
    /// The opening brace of a directory.
    Brace,
    /// The opening brace and some of the path, which is here without escapes.
    Path(Text),
    /// The same and a backslash.
    Escape(Text),
}

/// How much was read of an operator that is due.
#[derive(Clone, Copy, Debug, PartialEq, Eq)]
pub enum Operator {
    /// Nothing.
    Nothing,
    /// `A`.
    A,
    /// `AN`.
    An,
    /// `AND`, behind which a byte decides whether the run ends.
    And,
    /// `O`.
    O,
    /// `OR`, behind which a byte decides whether the run ends.
    Or,
}

/// What comes before the next token.
#[derive(Debug, Drop)]
pub enum Stack {
    /// An operand is wanted.
    Wanting(Wanted),
    /// An operand ended.
    Ending(Ended),
}

/// How far a query was read.
#[derive(Debug, Drop)]
pub enum Reader {
    /// An operand is wanted.
    Wants(Operand, Wanted),
    /// An operand ended, so that an operator, a closing parenthesis or the end may follow.
    Ends(Operator, Ended),
}

/// What a byte is in a query.
#[derive(Clone, Copy, Debug, PartialEq, Eq)]
pub enum ByteKind {
    /// A letter, a digit or a byte from 128 on.
    Word,
    /// A space.
    Space,
    /// `(`.
    Open,
    /// `)`.
    Close,
    /// `*`.
    Star,
    /// `{`.
    Brace,
    /// `}`.
    EndBrace,
    /// `\`.
    Backslash,
    /// `/`.
    Slash,
    /// A byte below 32, or 127.
    Control,
    /// Any other byte, which only a path may hold.
    Foreign,
}
