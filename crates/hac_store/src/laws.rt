//! Theorems over the definitions alone. Each is the contract of a function that does nothing.
ghost use Rattle.hac_store.specs.Laws.{AppendsExtend, FilesHoldNoSession, StepsHaveRoom};

/// A store that an event's record is put behind holds what the event leads to.
pub fn appends_extend()
    ensures { AppendsExtend }
{}

/// There is room for index steps just where as many records of two bytes fit.
pub fn steps_have_room()
    ensures { StepsHaveRoom }
{}

/// A store is opened with no session.
pub fn files_hold_no_session()
    ensures { FilesHoldNoSession }
{}
