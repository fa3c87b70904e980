//! A kept state from a state that was read: its tree, and what is kept beside that.
ghost use Rattle.std.specs.Prelude.{◌≡◌, ◌∷◌, ◌++◌, ◌||◌, ◌==◌, ◌≤◌, ◌+◌, ℕ, List, [], IfOk};
ghost use Rattle.std.specs.Prelude.{IsTrue, OnOk, Some, if◌then◌else◌, length};
ghost use Rattle.hac_model.specs.Tree as tree;
ghost use Rattle.hac_model.specs.Tree.{entry_at};
ghost use Rattle.hac_model.specs.Tree.Facts.{edges_to};
ghost use Rattle.hac_model.specs.Tree.Valid.{IsValid};
ghost use Rattle.hac_model.specs.declared.marks.Kind.TheVariants.{Permanent, Prohibited};
ghost use Rattle.hac_model.specs.declared.states.Entry.{Entry};
ghost use Rattle.dep_graph.specs.Graphs.{edges_of, replaced};
ghost use Rattle.kept_facts.specs.AnswersKept.{list_at};
ghost use Rattle.layout_check.specs.Rising.{DoRise};
ghost use Rattle.link_kinds.specs.Seen.{ChangesDir, SameLinks, has_sets, lists_in};
ghost use Rattle.snapshots.specs.Loading.{AreBeside, AreSoundMarks, IsNew, marked_all};

use dep_graph::Graph;
use file_tree::Tree;
use hac_model::{Answer, Body, Entry, Kind, Memory, Number, Query, Seq, State};
use indexmap::IndexMap;
use kept_facts::{Lists, edges_of};
use kept_state::KeptState;
use layout_check::counts_of;
use link_kinds::Links;
use state_check::directories_among;
use std::alloc::Global;

/// What is kept of a state beside its tree.
#[derive(Drop)]
pub(crate) struct Beside {
    // The marks of semantic directories.
    pub(crate) marks: Links,
    // The answers that mounts keep.
    pub(crate) answers: Lists,
    // What each semantic directory depends on.
    pub(crate) graph: Graph,
}

/// The state as a machine keeps it, for one that is valid and has no sessions. It wants memory for
/// what is kept, and moves the texts.
pub(crate) fn load(alloc: Global, state: State) -> Result<KeptState, Memory>
    requires valid { IsValid state }
    requires sessions { state.sessions ≡ [] }
    ensures { IfOk result (λ kept. kept ≡ record { state = state; ready = [] }) }
{
    let beside = kept_beside(alloc, state.entries.as_slice())?;
    let counts = counts_of(&state);
    match Tree::load(alloc, state, counts) {
        Ok(tree) => Ok(KeptState::of_parts(
            alloc,
            tree,
            beside.marks,
            beside.answers,
            beside.graph,
        )),
        Err(memory) => {
            drop(beside);
            Err(memory)
        }
    }
}

/// What is kept beside the tree of these entries.
fn kept_beside(alloc: Global, entries: &[Entry]) -> Result<Beside, Memory>
    requires rise { DoRise entries.now }
    requires sound { AreSoundMarks entries.now }
    ensures { IfOk result (AreBeside (tree.is_directory_at entries.now) entries.now) }
{
    let mut beside = Beside {
        marks: Links::new(alloc),
        answers: IndexMap::new(alloc),
        graph: Graph::new(alloc),
    };
    match beside.keep_all(alloc, entries) {
        Ok(()) => Ok(beside),
        Err(memory) => {
            drop(beside);
            Err(memory)
        }
    }
}

impl Beside {
    /// Keeps what each of the entries tells. Nothing is kept before.
    fn keep_all(&mut self, alloc: Global, entries: &[Entry]) -> Result<(), Memory>
        requires rise { DoRise entries.now }
        requires sound { AreSoundMarks entries.now }
        requires none { AreBeside (tree.is_directory_at entries.now) [] self.old }
        ensures { OnOk result
            (AreBeside (tree.is_directory_at entries.now) entries.now self.new) }
    {
        for entry in entries {
            self.keep(alloc, entries, entry)?;
        }
        Ok(())
    }

    /// Keeps what an entry tells, of which nothing is kept yet.
    fn keep(&mut self, alloc: Global, entries: &[Entry], entry: &Entry) -> Result<(), Memory>
        requires rise { DoRise entries.now }
        ensures { (before : List Entry) → IsNew before entry.now →
            AreBeside (tree.is_directory_at entries.now) before self.old →
            OnOk result (AreBeside (tree.is_directory_at entries.now)
            (before ++ entry.now ∷ []) self.new) }
    {
        match &entry.body {
            Body::Semantic {
                query,
                permanent,
                prohibited,
            } => {
                let edges = edges(alloc, entries, entry.parent, query, permanent.as_slice())?;
                keep_edges(&mut self.graph, entry.number, edges)?;
                keep_marks(
                    &mut self.marks,
                    entry.number,
                    permanent.as_slice(),
                    prohibited.as_slice(),
                )
            }
            Body::Mount { answers, .. } => {
                keep_answers(alloc, &mut self.answers, entry.number, answers.as_slice())
            }
            Body::File { .. } | Body::Dir | Body::Symlink { .. } | Body::Document => Ok(()),
        }
    }
}

/// Lets a mount keep its answers.
fn keep_answers(
    alloc: Global,
    lists: &mut Lists,
    mount: Number,
    answers: &[Answer],
) -> Result<(), Memory>
    ensures { OnOk result ((number : ℕ) → list_at lists.new number ≡
        (if number == mount then answers.now else list_at lists.old number)) }
{
    let answers = copies(alloc, answers)?;
    lists.insert(mount.get(), Seq::new(answers))?;
    Ok(())
}

/// The same answers once more.
pub(crate) fn copies(alloc: Global, answers: &[Answer]) -> Result<Vec<Answer>, Memory>
    ensures { IfOk result (λ copies. copies.items ≡ answers.now) }
{
    let mut copies = Vec::new(alloc);
    'answers: for answer in answers {
        copies.push(copy(answer)?)?;
    }
    Ok(copies)
}

fn copy(answer: &Answer) -> Result<Answer, Memory>
    ensures { IfOk result (λ copy. copy ≡ answer.now) }
{
    let term = answer.term.clone()?;
    let documents = answer.documents.clone()?;
    Ok(Answer { term, documents })
}

/// What a directory depends on that is in another one, asks a query and has these marks.
fn edges(
    alloc: Global,
    entries: &[Entry],
    parent: Number,
    query: &Query<Number>,
    permanent: &[Number],
) -> Result<Vec<Number>, Memory>
    requires { DoRise entries.now }
    ensures { IfOk result (λ edges. edges.items ≡ edges_to (tree.is_directory_at entries.now)
        parent (Some query.now) permanent.now) }
{
    let lenders = directories_among(alloc, entries, permanent)?;
    edges_of(alloc, parent, query, lenders.as_slice())
}

/// Gives a directory its edges.
fn keep_edges(graph: &mut Graph, dir: Number, edges: Vec<Number>) -> Result<(), Memory>
    ensures { OnOk result ((q : ℕ) →
        edges_of graph.new q ≡ replaced (edges_of graph.old) dir edges.items q) }
{
    let new = graph.prepare_edges(dir, edges)?;
    graph.set_edges(new);
    Ok(())
}

/// Gives a directory its marks.
fn keep_marks(
    marks: &mut Links,
    dir: Number,
    permanent: &[Number],
    prohibited: &[Number],
) -> Result<(), Memory>
    ensures lists { OnOk result (ChangesDir marks.old marks.new dir
        (marked_all Prohibited prohibited.now
        (marked_all Permanent permanent.now (lists_in marks.old dir)))) }
    ensures sets { OnOk result
        ((d : ℕ) → has_sets marks.new d ≡ (has_sets marks.old d || d == dir)) }
{
    marks.prepare(dir, (permanent.len() + prohibited.len()) as u64)?;
    mark_all(marks, dir, permanent, Kind::Permanent);
    mark_all(marks, dir, prohibited, Kind::Prohibited);
    Ok(())
}

/// Marks items and directories in a directory, for which there is room.
fn mark_all(marks: &mut Links, dir: Number, numbers: &[Number], kind: Kind)
    requires sets { IsTrue (has_sets marks.old dir) }
    requires room { length numbers.now ≤ marks.old.spare }
    ensures lists { ChangesDir marks.old marks.new dir
        (marked_all kind numbers.now (lists_in marks.old dir)) }
    ensures sets { SameLinks marks.old marks.new }
    ensures room { marks.old.spare ≤ marks.new.spare + length numbers.now }
{
    for number in numbers {
        marks.set_kind(dir, *number, kind);
    }
}
