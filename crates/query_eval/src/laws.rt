//! A theorem over the definitions alone, as the contract of a function that does nothing.
ghost use Rattle.query_eval.specs.Laws.{UnindexedIsLinkedNowhere};

/// A file that was never indexed is linked in no directory, whatever its query, also one that
/// begins with `NOT`.
pub fn unindexed_is_linked_nowhere()
    ensures { UnindexedIsLinkedNowhere }
{}
