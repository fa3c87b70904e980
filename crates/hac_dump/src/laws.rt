//! Laws of dumps. Each theorem is the contract of a function that does nothing.
ghost use Rattle.hac_dump.specs.Laws.{DumpsMake, EmptyDump, FirstDump, SecondDump};

/// Played on an empty tree, a dump is answered by `ok` alone, and makes the same tree.
pub fn dumps_make()
    ensures { DumpsMake }
{}

/// The dump of a file that was indexed and written again, beside a semantic directory that it was
/// removed from; that of a new store; and one where paths stand in the order of their bytes, new
/// files among those that were written again, and links of all kinds.
pub fn first_dumps()
    ensures first { FirstDump }
    ensures empty { EmptyDump }
    ensures second { SecondDump }
{}
