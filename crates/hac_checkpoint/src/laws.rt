//! Theorems on roots and areas alone. Each is the contract of a function that does nothing.
ghost use Rattle.hac_checkpoint.specs.Laws.{AreasAreFound, ClosedGatesAreKept, NewAreasLieApart};
ghost use Rattle.hac_checkpoint.specs.Laws.{LogsAreKept, RecordsAreKept, RootsAgree};
ghost use Rattle.hac_checkpoint.specs.Laws.{RootsStartBehind, WritesLeaveAreas, WritesLeaveRoots};

/// The head of a store alone decides its root, and the root's area begins behind the head.
pub fn roots_agree()
    ensures agree { RootsAgree }
    ensures behind { RootsStartBehind }
{}

/// A new area lies apart from the live one. So whatever its write leaves has the root and the live
/// area that were there.
pub fn new_areas_lie_apart()
    ensures apart { NewAreasLieApart }
    ensures root { WritesLeaveRoots }
    ensures area { WritesLeaveAreas }
{}

/// What a reader finds in an area depends on the bytes of the area alone.
pub fn areas_are_read_alone()
    ensures records { RecordsAreKept }
    ensures gates { ClosedGatesAreKept }
    ensures logs { LogsAreKept }
{}

/// An area that was written is found.
pub fn areas_are_found()
    ensures { AreasAreFound }
{}
