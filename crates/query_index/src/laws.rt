//! Theorems over the definitions alone. Each is the contract of a function that does nothing.
ghost use Rattle.query_index.specs.Laws.{UnaskedTermsStay, UnfitQueriesFail};

/// Where a query asks for no word that is gone or new, the text has of its terms those that it had.
pub fn unasked_terms_stay()
    ensures { UnaskedTermsStay }
{}

/// A query that can't hold of an item with these words doesn't.
pub fn unfit_queries_fail()
    ensures { UnfitQueriesFail }
{}
