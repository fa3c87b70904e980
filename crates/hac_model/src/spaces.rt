//! What spaces are asked, and what they answer.
use crate::bytes::{Name, Seq, Text};
use crate::terms::Term;

/// A question whether the documents of a space have a term.
#[derive(Debug, Drop)]
pub struct Search {
    /// The space.
    pub space: Name,
    /// The term.
    pub term: Term,
}

/// A question for a document's text.
#[derive(Debug, Drop)]
pub struct Fetch {
    /// The space.
    pub space: Name,
    /// The document's name.
    pub document: Name,
}

/// What a command asks spaces, in this order.
#[derive(Debug, Drop)]
pub struct Asks {
    /// The space whose documents are listed, where one is.
    pub list: Option<Name>,
    /// The terms that are asked for.
    pub searches: Seq<Search>,
    /// The document whose text is wanted, where one is.
    pub fetch: Option<Fetch>,
}

/// The answers of spaces, one to each question.
#[derive(Debug, Drop)]
pub struct Answers {
    /// The names of the documents, rising, or none where no list was asked for.
    pub list: Seq<Name>,
    /// For each term the names of the documents that have it.
    pub found: Seq<Seq<Name>>,
    /// The text of the document, where it was asked for and is there.
    pub fetched: Option<Text>,
}
