//! Theorems over the definitions alone. Each is the contract of a function that does nothing.
ghost use Rattle.reeval.specs.Laws.{EventsLeaveAlike, LinksAreJudged, ToldLinksAreKept};
ghost use Rattle.reeval.specs.Laws.{TiesLeaveAlike, TouchedLeaveAlike, VerdictsAreOnly};

/// The links of a state are its judgements by these links, item by item.
pub fn links_are_judged()
    ensures { LinksAreJudged }
{}

/// What is its own judgement on an item is what the links say of it.
pub fn verdicts_are_only()
    ensures { VerdictsAreOnly }
{}

/// Links whose lists rise are those of a state if they say of each item what its links do.
pub fn told_links_are_kept()
    ensures { ToldLinksAreKept }
{}

/// What is semantic neither before nor after says nothing of any item.
pub fn touched_leave_alike()
    ensures { TouchedLeaveAlike }
{}

/// An event changes what a directory says of an item only where it touches the item, where judging
/// begins, or where a directory on which that one depends provides another item.
pub fn events_leave_alike()
    ensures { EventsLeaveAlike }
{}

/// The directory to which an event adds another, or from which it takes one, is judged without its
/// query: what it finds changes only where what it depends on does.
pub fn ties_leave_alike()
    ensures { TiesLeaveAlike }
{}
