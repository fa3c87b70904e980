//! Theorems over the definitions alone. Each is the contract of a function that does nothing.
ghost use Rattle.hac_model.specs.Laws.{MarksAreSet, MarksStay, QueriesLeaveMarks, MarksGo};
ghost use Rattle.hac_model.specs.Laws.{LinksAreUnmarked, FoundAreIndexed, AddedAreProvided};
ghost use Rattle.hac_model.specs.Laws.{LentAreProvided, RemovedAreNotProvided, ScriptsJoin};
ghost use Rattle.hac_model.specs.Laws.{WholeIsLines};
ghost use Rattle.hac_model.specs.Laws.{WholeIsFront, WholeIsLongest, EmptyIsValid, EventsKeepValid};
ghost use Rattle.hac_model.specs.Laws.{BareCommutes, FactsFollow, SessionsFollow, PartsTellState};
ghost use Rattle.hac_model.specs.Laws.{LinesSpell};
ghost use Rattle.hac_model.specs.Laws.{CommandsHappen, StepsAreDue, StepsClean, IndexCleans};
ghost use Rattle.hac_model.specs.Laws.{ScriptsKeepValid, EventsLead, EventsEnd, AcceptedAreSpelled};
ghost use Rattle.hac_model.specs.Laws.{ValidAreSpelled, SessionsAreNotStored, StoredEventsHappen, FullStore};
ghost use Rattle.hac_model.specs.Laws.{FirstAreas};
ghost use Rattle.hac_model.specs.Laws.{FirstCommandLines, NoCommandLines, LinksStay, LinksAreOnly};
ghost use Rattle.hac_model.specs.Laws.{ValidIsAcyclic, PlainTellsState, LooksFind, LooksFollow};
ghost use Rattle.hac_model.specs.Laws.{LooksTell};
ghost use Rattle.hac_model.specs.Laws.{MovesRename, PrintedTextIsRead, PrintedTextIsOneLine};
ghost use Rattle.hac_model.specs.Laws.{QuotedWordIsRead, QuotesAreOneSpelling, FirstListings};
ghost use Rattle.hac_model.specs.FirstMounts.{AttachedMounts, FalseIsNotTold, FirstMounts};
ghost use Rattle.hac_model.specs.FirstMounts.{LibraryIsValid};
ghost use Rattle.hac_model.specs.FirstMounts.{MountsCome, MountsGo, MountsRefuse, SyncsKeepNumbers};
ghost use Rattle.hac_model.specs.Laws.{FirstDrawn, FirstMade, MovedListings, LentListings};
ghost use Rattle.hac_model.specs.Laws.{FirstLinks, FirstSteps};
ghost use Rattle.hac_model.specs.Laws.{FirstEnd, LastNumbers, NoRoot, ValidityIsTested};
ghost use Rattle.hac_model.specs.Laws.{EventsAreShort, RaisedIsValid, RaisedLinks};
ghost use Rattle.hac_model.specs.Laws.{StatesAreShort};
ghost use Rattle.hac_model.specs.Run.History.{HistoriesGoOn, ReplayingIsNoDearer};
ghost use Rattle.hac_model.specs.Tree.Costs.{FirstCosts};

/// Two joined scripts are played one after the other, where the first one consists of whole lines,
/// each with its end and the bytes that belong to it. No line looks further ahead, and none looks
/// back except at the state that the lines before it left.
pub fn scripts_join()
    ensures { ScriptsJoin }
{}

/// The whole part of a script is its longest prefix of whole lines.
pub fn whole_is_longest()
    ensures lines { WholeIsLines }
    ensures front { WholeIsFront }
    ensures longest { WholeIsLongest }
{}

/// The empty state is valid.
pub fn empty_is_valid()
    ensures { EmptyIsValid }
{}

/// Whether a state is valid can be computed, of any state: also of one in which a directory depends
/// on itself.
pub fn validity_is_tested()
    ensures { ValidityIsTested }
{}

/// Events lead from valid states to valid states.
pub fn events_keep_valid()
    ensures { EventsKeepValid }
{}

/// What an event does to the tree depends on the tree alone.
pub fn bare_commutes()
    ensures { BareCommutes }
{}

/// What an event does to the facts of each number depends on these facts and on the tree. So a
/// state is known by both.
pub fn facts_follow()
    ensures follow { FactsFollow }
    ensures sessions { SessionsFollow }
    ensures tell { PartsTellState }
{}

/// A line spells a session's name and a command only with words that these may have.
pub fn lines_spell()
    ensures { LinesSpell }
{}

/// The events of a command that isn't refused can happen, one after the other.
pub fn commands_happen()
    ensures { CommandsHappen }
{}

/// Steps can happen until no file is dirty, one for each that is.
pub fn steps_clean()
    ensures due { StepsAreDue }
    ensures clean { StepsClean }
    ensures all { IndexCleans }
{}

/// Scripts lead from valid states to valid states.
pub fn scripts_keep_valid()
    ensures { ScriptsKeepValid }
{}

/// The state after a run is what its events make of the state before it. So the number of events
/// that happened identifies each tree of a run.
pub fn events_lead()
    ensures state { EventsLead }
    ensures end { EventsEnd }
{}

/// An event that can happen has a spelling, if it is one that is stored.
pub fn accepted_events_are_spelled()
    ensures { AcceptedAreSpelled }
{}

/// What is stored of a valid state has a spelling.
pub fn valid_states_are_spelled()
    ensures { ValidAreSpelled }
{}

/// Where sessions stand is never stored, and what happens to a store of version 1 can happen to one
/// of version 2.
pub fn sessions_are_not_stored()
    ensures same { SessionsAreNotStored }
    ensures raised { StoredEventsHappen }
{}

/// Four bytes can say how long each payload is that is ever written: that of an event that can
/// happen, which has at most `PAYLOAD_LIMIT` bytes, and that of a whole valid state.
pub fn payloads_are_short()
    ensures events { EventsAreShort }
    ensures states { StatesAreShort }
{}

/// What a store of version 1 may hold, one of version 2 may hold too, and it shows the same links.
pub fn raised_states_are_valid()
    ensures valid { RaisedIsValid }
    ensures links { RaisedLinks }
{}

/// Where no directory depends on itself, as in every valid state, the links are the only ones that
/// one more round leaves as they are.
pub fn links_are_fixed()
    ensures stay { LinksStay }
    ensures only { LinksAreOnly }
    ensures valid { ValidIsAcyclic }
{}

/// An item has the mark that it was given last. Marks stay when a directory gets another query, and
/// go with its query.
pub fn marks_are_kept()
    ensures set { MarksAreSet }
    ensures stay { MarksStay }
    ensures queries { QueriesLeaveMarks }
    ensures go { MarksGo }
{}

/// What is found was indexed, and the user said nothing of it. A directory provides the items
/// that the user added to it, and all that the directories provide that the user added; and what
/// the user removed from it only if it is stored below it or lent to it.
pub fn links_respect_marks()
    ensures unmarked { LinksAreUnmarked }
    ensures found { FoundAreIndexed }
    ensures added { AddedAreProvided }
    ensures lent { LentAreProvided }
    ensures removed { RemovedAreNotProvided }
{}

/// A valid state is determined by its version, its plain tree and its next number.
pub fn plain_tells_state()
    ensures { PlainTellsState }
{}

/// A look-up by the path of an entry finds that entry, and what is found where no symbolic link is
/// followed has the path that was looked up. Where all links are followed, no link is found.
pub fn looks_find()
    ensures find { LooksFind }
    ensures tell { LooksTell }
    ensures follow { LooksFollow }
{}

/// A move replaces the old path by the new one for the entry and everything below it, and leaves
/// each other path.
pub fn moves_rename()
    ensures { MovesRename }
{}

/// A printed text is one line, and is read back as that text.
pub fn printed_text_is_read()
    ensures read { PrintedTextIsRead }
    ensures line { PrintedTextIsOneLine }
{}

/// Each word has exactly one spelling in quotes, and is read back from it.
pub fn quoted_words_are_read()
    ensures read { QuotedWordIsRead }
    ensures only { QuotesAreOneSpelling }
{}

/// A small run, from script bytes to reply bytes: files with the word are listed, and no directory
/// is overwritten.
pub fn first_listings()
    ensures { FirstListings }
{}

/// A run with nested semantic directories, in which moves add links and remove them.
pub fn moved_listings()
    ensures { MovedListings }
{}

/// A run with a directory that a user adds to a semantic one, and removes from it again.
pub fn lent_listings()
    ensures { LentListings }
{}

/// A run with symbolic links: relative ones, one that is moved, one that leads nowhere, and a loop.
pub fn first_links()
    ensures { FirstLinks }
{}

/// A valid state with a mount, and runs from it: documents are found, linked and moved with their
/// mount, nothing is put into it, and what has to ask its space is refused. And a run with a space
/// attached, which is mounted, synced and asked.
pub fn first_mounts()
    ensures valid { LibraryIsValid }
    ensures run { FirstMounts }
    ensures attached { AttachedMounts }
    ensures refuse { MountsRefuse }
    ensures come { MountsCome }
    ensures sync { SyncsKeepNumbers }
    ensures go { MountsGo }
    ensures told { FalseIsNotTold }
{}

/// A run with an index step behind each command.
pub fn first_steps()
    ensures { FirstSteps }
{}

/// What five events cost in a small state: a file that gets another text, the step that indexes it,
/// a new semantic directory, and the removal of a file and of a symbolic link.
pub fn first_costs()
    ensures { FirstCosts }
{}

/// A run over a full store, where the store of a small run ends, where checkpoints write, and the
/// last numbers.
pub fn stores_end()
    ensures full { FullStore }
    ensures root { NoRoot }
    ensures first { FirstEnd }
    ensures areas { FirstAreas }
    ensures numbers { LastNumbers }
{}

/// What some command lines of the program ask for, and some that are faulty.
pub fn first_command_lines()
    ensures some { FirstCommandLines }
    ensures none { NoCommandLines }
{}

/// Worked examples of scripts that are drawn from a number.
pub fn first_drawn_lines()
    ensures made { FirstMade }
    ensures drawn { FirstDrawn }
{}

/// Payloads that all make events happen lead to a state from which the payloads behind them go on.
pub fn histories_go_on()
    ensures { HistoriesGoOn }
{}

/// To replay an event that can happen costs no more than it may have cost when it was stored.
pub fn replaying_is_no_dearer()
    ensures { ReplayingIsNoDearer }
{}
