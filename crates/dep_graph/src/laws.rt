//! Theorems over edges alone. Each is the contract of a function that does nothing.
ghost use Rattle.dep_graph.specs.Laws.{NewEdgesKeepOff, NewEdgesReturn};

/// Where the edges of one directory are replaced, no number is reached from itself after that, if
/// none was before and no new edge reaches the directory over the old edges.
pub fn new_edges_keep_off()
    ensures { NewEdgesKeepOff }
{}

/// If a new edge does reach the directory, the directory then reaches itself.
pub fn new_edges_return()
    ensures { NewEdgesReturn }
{}
