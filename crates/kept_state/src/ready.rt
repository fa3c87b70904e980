//! What a machine is ready for: memory is taken first, and the change then made without any.
ghost use Rattle.std.specs.Prelude.{◌≡◌, ◌<◌, ◌≤◌, [], IfOk, IfSome, IsTrue, List, None, Some};
ghost use Rattle.std.specs.Prelude.{length, replicate, ℕ};
ghost use Rattle.hac_model.specs.Laws.{AllHappen};
ghost use Rattle.hac_model.specs.Script.PathWords.{is_target, untested_word};
ghost use Rattle.hac_model.specs.Tree.Asking.{are_all_told};
ghost use Rattle.hac_model.specs.Tree.Events.{accepted, apply_all};
ghost use Rattle.hac_model.specs.Tree.Links.{is_semantic, parent_of, query_at};
ghost use Rattle.hac_model.specs.Tree.Mounting.{are_documents};
ghost use Rattle.hac_model.specs.Tree.Mounts.{terms_to_ask};
ghost use Rattle.hac_model.specs.Tree.Sessions.{is_stored, sessions_with};
ghost use Rattle.hac_model.specs.Tree.{is_directory_at, is_mount_at};
ghost use Rattle.dep_graph.specs.Graphs.{edges_of, replaced};
ghost use Rattle.file_tree.specs.Documents.{numbers_for};
ghost use Rattle.file_tree.specs.declared.ready.Ready.TheVariants as tree;
ghost use Rattle.link_kinds.specs.Seen.{has_sets};
ghost use Rattle.kept_state.specs.Parts.{AreAlike, IsLinked, WillHave, edges_marked, edges_then};
ghost use Rattle.kept_state.specs.Parts.{state_of};
ghost use Rattle.kept_state.specs.Ready.{AnswersReady, CanCommit, GainsReady, IsCommitted, IsReady};
ghost use Rattle.kept_state.specs.Ready.{IsPreparedFor, ready_events};

use crate::forgetting::{forget_gone, forget_mount};
use crate::parts::Parts;
use dep_graph::{Graph, NewEdges};
use file_tree::NewBody;
use hac_model::{
    Counts, DOCS_LIMIT, EntryKind, Event, Mark, Memory, Name, Number, Query, Seq, Session, Text,
};
use std::alloc::Global;
use std::mem;

/// What was prepared last.
#[derive(Debug, Drop)]
pub enum Ready {
    /// Nothing was prepared, or the state has changed since.
    Nothing,
    /// An event is to be applied.
    Change {
        /// The event.
        event: Event,
        /// What a semantic directory will depend on, if that changes.
        edges: Option<NewEdges>,
        /// How much the state will hold.
        counts: Counts,
    },
    /// A session is to stand in another directory.
    Session {
        /// The session's name.
        session: Name,
        /// The directory.
        dir: Number,
        /// The sessions then.
        sessions: Seq<Session>,
    },
    /// This many files are to be indexed.
    Steps(u64),
}

impl Ready {
    /// Prepares something else, or nothing, in place of this.
    pub fn set(&mut self, next: Ready)
        ensures { self.new ≡ next }
    {
        drop(mem::replace(self, next));
    }
}

/// Takes the memory that an event wants that is stored. The state doesn't change, whatever the
/// answer.
pub fn prepare(alloc: Global, kept: &mut Parts, event: &Event) -> Result<Option<NewEdges>, Memory>
    requires linked { IsLinked kept.old }
    requires accepted { IsTrue (accepted (state_of kept.old) event.now) }
    requires stored { IsTrue (is_stored event.now) }
    ensures alike { AreAlike kept.old kept.new }
    ensures suits { IfOk result (λ edges. IsPreparedFor event.now edges kept.new) }
{
    match event {
        Event::Mkdir { dir, .. } => prepare_entry(kept, *dir, EntryKind::Dir),
        Event::NewFile { dir, .. } => prepare_entry(kept, *dir, EntryKind::File),
        Event::Ln { dir, target, .. } => prepare_link(kept, *dir, target),
        Event::Smkdir {
            dir,
            query,
            told,
            ..
        } => prepare_semantic(alloc, kept, *dir, query, told),
        Event::Setq { dir, query, told } => prepare_query(alloc, kept, *dir, query, told),
        Event::Mark(mark) => prepare_mark(alloc, kept, mark),
        Event::Rewrite { file, .. } => prepare_text(kept, *file),
        Event::Mv { entry, dir, .. } => prepare_move(alloc, kept, *entry, *dir),
        Event::Smount {
            dir,
            docs,
            told,
            ..
        } => prepare_mount(alloc, kept, *dir, docs, told),
        Event::Ssync { mount, docs, told } => prepare_sync(alloc, kept, *mount, docs, told),
        _ => Ok(None),
    }
}

/// Prepares a new file or plain directory.
fn prepare_entry(kept: &mut Parts, dir: Number, kind: EntryKind) -> Result<Option<NewEdges>, Memory>
    requires { IsTrue (is_directory_at kept.old.tree.state.entries dir) }
    ensures alike { AreAlike kept.old kept.new }
    ensures ready { IfOk result (λ edges. kept.new.tree.ready ≡ tree.Add dir kind) }
{
    kept.tree.prepare_add(dir, kind)?;
    Ok(None)
}

/// Prepares a new symbolic link.
fn prepare_link(kept: &mut Parts, dir: Number, target: &Text) -> Result<Option<NewEdges>, Memory>
    requires dir { IsTrue (is_directory_at kept.old.tree.state.entries dir) }
    requires target { IsTrue (is_target target.now) }
    ensures alike { AreAlike kept.old kept.new }
    ensures ready { IfOk result (λ edges. kept.new.tree.ready
        ≡ tree.Link dir (untested_word target.now)) }
{
    kept.tree.prepare_link(dir, target)?;
    Ok(None)
}

/// Prepares a new semantic directory, and what mounts were told for its query.
fn prepare_semantic(
    alloc: Global,
    kept: &mut Parts,
    dir: Number,
    query: &Query<Number>,
    told: &Seq<Seq<Number>>,
) -> Result<Option<NewEdges>, Memory>
    requires linked { IsLinked kept.old }
    requires told { IsTrue (are_all_told (state_of kept.old) query.now told.now
        (state_of kept.old).entries) }
    requires dir { IsTrue (is_directory_at kept.old.tree.state.entries dir) }
    ensures alike { AreAlike kept.old kept.new }
    ensures ready { IfOk result (λ edges. kept.new.tree.ready ≡ tree.Add dir EntryKind.Semantic) }
    ensures edges { IfOk result (WillHave kept.new.graph kept.new.tree.state.next
        (edges_then kept.new kept.new.tree.state.next dir (Some query.now))) }
    ensures gains { IfOk result (λ edges. GainsReady kept.new query.now told.now) }
{
    kept.prepare_gains(alloc, query, told.as_slice())?;
    let number = kept.tree.next_number();
    let edges = kept.prepare_edges(alloc, number, dir, query)?;
    kept.tree.prepare_add(dir, EntryKind::Semantic)?;
    Ok(Some(edges))
}

/// Prepares a new query of a directory, and what mounts were told for it.
fn prepare_query(
    alloc: Global,
    kept: &mut Parts,
    dir: Number,
    query: &Query<Number>,
    told: &Seq<Seq<Number>>,
) -> Result<Option<NewEdges>, Memory>
    requires linked { IsLinked kept.old }
    requires told { IsTrue (are_all_told (state_of kept.old) query.now told.now
        (state_of kept.old).entries) }
    ensures alike { AreAlike kept.old kept.new }
    ensures edges { IfOk result (WillHave kept.new.graph dir
        (edges_then kept.new dir (parent_of kept.new.tree.state dir) (Some query.now))) }
    ensures gains { IfOk result (λ edges. GainsReady kept.new query.now told.now) }
{
    kept.prepare_gains(alloc, query, told.as_slice())?;
    let parent = kept.tree.parent(dir);
    let edges = kept.prepare_edges(alloc, dir, parent, query)?;
    Ok(Some(edges))
}

/// Prepares a mark, and what its directory depends on then.
fn prepare_mark(alloc: Global, kept: &mut Parts, mark: &Mark) -> Result<Option<NewEdges>, Memory>
    requires linked { IsLinked kept.old }
    requires semantic { IsTrue (is_semantic kept.old.tree.state mark.now.dir) }
    ensures alike { AreAlike kept.old kept.new }
    ensures sets { IfOk result (λ edges. IsTrue (has_sets kept.new.marks mark.now.dir)) }
    ensures room { IfOk result (λ edges. 0 < kept.new.marks.spare) }
    ensures edges { IfOk result (WillHave kept.new.graph mark.now.dir
        (edges_marked kept.new mark.now)) }
{
    let edges = kept.prepare_marked_edges(alloc, mark)?;
    kept.marks.prepare(mark.dir, 1)?;
    Ok(edges)
}

/// Prepares a new text of a file.
fn prepare_text(kept: &mut Parts, file: Number) -> Result<Option<NewEdges>, Memory>
    ensures alike { AreAlike kept.old kept.new }
    ensures ready { IfOk result (λ edges. kept.new.tree.ready ≡ tree.Text file) }
{
    kept.tree.prepare_text(file)?;
    Ok(None)
}

/// Prepares to move an entry.
fn prepare_move(
    alloc: Global,
    kept: &mut Parts,
    entry: Number,
    dir: Number,
) -> Result<Option<NewEdges>, Memory>
    requires linked { IsLinked kept.old }
    requires dir { IsTrue (is_directory_at kept.old.tree.state.entries dir) }
    ensures alike { AreAlike kept.old kept.new }
    ensures ready { IfOk result (λ edges. kept.new.tree.ready ≡ tree.Move dir) }
    ensures edges { IfOk result (WillHave kept.new.graph entry
        (edges_then kept.new entry dir (query_at kept.new.tree.state entry))) }
{
    let edges = kept.prepare_moved_edges(alloc, entry, dir)?;
    kept.tree.prepare_move(dir)?;
    Ok(edges)
}

/// Prepares a mount of a space with these documents, and what it is to keep of what the space told.
fn prepare_mount(
    alloc: Global,
    kept: &mut Parts,
    dir: Number,
    documents: &Seq<Name>,
    told: &Seq<Seq<Number>>,
) -> Result<Option<NewEdges>, Memory>
    requires dir { IsTrue (is_directory_at kept.old.tree.state.entries dir) }
    requires few { length documents.now ≤ DOCS_LIMIT }
    requires even { length told.now ≡ length (terms_to_ask kept.old.tree.state.entries) }
    ensures alike { AreAlike kept.old kept.new }
    ensures ready { IfOk result (λ edges. kept.new.tree.ready
        ≡ tree.Mount dir (length documents.now)) }
    ensures answers { IfOk result (λ edges. AnswersReady kept.new kept.new.tree.state.next
        told.now) }
{
    let mount = kept.tree.next_number();
    kept.prepare_answers(alloc, mount, told.as_slice())?;
    kept.tree
        .prepare_mount(dir, documents.as_slice().len() as u64)?;
    Ok(None)
}

/// Prepares that a mount has these documents, and what it is to keep of what its space told.
fn prepare_sync(
    alloc: Global,
    kept: &mut Parts,
    mount: Number,
    documents: &Seq<Name>,
    told: &Seq<Seq<Number>>,
) -> Result<Option<NewEdges>, Memory>
    requires mount { IsTrue (is_mount_at kept.old.tree.state.entries mount) }
    requires documents { IsTrue (are_documents documents.now) }
    requires even { length told.now ≡ length (terms_to_ask kept.old.tree.state.entries) }
    ensures alike { AreAlike kept.old kept.new }
    ensures ready { IfOk result (λ edges. kept.new.tree.ready
        ≡ tree.Sync mount (numbers_for kept.new.tree.state mount documents.now)) }
    ensures answers { IfOk result (λ edges. AnswersReady kept.new mount told.now) }
{
    kept.prepare_answers(alloc, mount, told.as_slice())?;
    kept.tree.prepare_sync(mount, documents)?;
    Ok(None)
}

/// Makes the prepared change.
pub fn put(kept: &mut Parts, ready: Ready)
    requires linked { IsLinked kept.old }
    requires ready { IsReady ready kept.old }
    requires happen { AllHappen (state_of kept.old) (ready_events ready) }
    ensures state { state_of kept.new ≡ apply_all (state_of kept.old) (ready_events ready) }
    ensures linked { IsLinked kept.new }
{
    match ready {
        Ready::Nothing => {}
        Ready::Change {
            event,
            edges,
            counts,
        } => apply(kept, event, edges, counts),
        Ready::Session {
            session,
            dir,
            sessions,
        } => put_session(kept, session, dir, sessions),
        Ready::Steps(count) => put_steps(kept, count),
    }
}

/// Applies the event that was prepared.
fn apply(kept: &mut Parts, event: Event, edges: Option<NewEdges>, counts: Counts)
    requires may { CanCommit event counts kept.old }
    requires suits { IsPreparedFor event edges kept.old }
    requires stored { IsTrue (is_stored event) }
    ensures { IsCommitted event kept.old kept.new }
{
    match event {
        Event::Mkdir { dir, name } => put_directory(kept, dir, name, counts),
        Event::NewFile { dir, name, text } => put_file(kept, dir, name, text, counts),
        Event::Ln { dir, name, target } => put_link(kept, dir, name, target, counts),
        Event::Smkdir {
            dir,
            name,
            query,
            told,
        } => put_semantic(kept, dir, name, query, told, edges, counts),
        Event::Setq { dir, query, told } => put_query(kept, dir, query, told, edges, counts),
        Event::Unq { dir } => drop_query(kept, dir, counts),
        Event::Mark(mark) => put_mark(kept, mark, edges),
        Event::Rewrite { file, text } => put_text(kept, file, text, counts),
        Event::Mv { entry, dir, name } => put_moved(kept, entry, dir, name, edges, counts),
        Event::Rm { entry } => drop_leaf(kept, entry, counts),
        Event::Rmdir { dir } => drop_directory(kept, dir, counts),
        Event::Smount {
            dir,
            name,
            space,
            docs,
            told,
        } => put_mount(kept, dir, name, space, docs, told, counts),
        Event::Ssync { mount, docs, told } => put_synced(kept, mount, docs, told, counts),
        Event::Sumount { mount } => drop_mount(kept, mount, counts),
        Event::Step => put_step(kept),
        _ => unreachable!(),
    }
}

/// Adds the plain directory that was prepared.
fn put_directory(kept: &mut Parts, dir: Number, name: Name, counts: Counts)
    requires may { CanCommit (Event.Mkdir dir name) counts kept.old }
    requires suits { IsPreparedFor (Event.Mkdir dir name) None kept.old }
    ensures { IsCommitted (Event.Mkdir dir name) kept.old kept.new }
{
    kept.tree.add(dir, name, NewBody::Dir, counts);
}

/// Adds the file that was prepared.
fn put_file(kept: &mut Parts, dir: Number, name: Name, text: Text, counts: Counts)
    requires may { CanCommit (Event.NewFile dir name text) counts kept.old }
    requires suits { IsPreparedFor (Event.NewFile dir name text) None kept.old }
    ensures { IsCommitted (Event.NewFile dir name text) kept.old kept.new }
{
    kept.tree.add(dir, name, NewBody::File(text), counts);
}

/// Adds the symbolic link that was prepared.
fn put_link(kept: &mut Parts, dir: Number, name: Name, target: Text, counts: Counts)
    requires may { CanCommit (Event.Ln dir name target) counts kept.old }
    requires suits { IsPreparedFor (Event.Ln dir name target) None kept.old }
    ensures { IsCommitted (Event.Ln dir name target) kept.old kept.new }
{
    kept.tree.add(dir, name, NewBody::Symlink(target), counts);
}

/// Adds the semantic directory that was prepared, with its edges, and what mounts were told for its
/// query.
fn put_semantic(
    kept: &mut Parts,
    dir: Number,
    name: Name,
    query: Query<Number>,
    told: Seq<Seq<Number>>,
    edges: Option<NewEdges>,
    counts: Counts,
)
    requires may { CanCommit (Event.Smkdir dir name query told) counts kept.old }
    requires suits { IsPreparedFor (Event.Smkdir dir name query told) edges kept.old }
    ensures { IsCommitted (Event.Smkdir dir name query told) kept.old kept.new }
{
    drop(told);
    kept.tree.add(dir, name, NewBody::Semantic(query), counts);
    put_edges(&mut kept.graph, edges);
    kept.answers.put();
}

/// Gives a directory a query, and the edges that were prepared, and mounts what they were told for
/// it.
fn put_query(
    kept: &mut Parts,
    dir: Number,
    query: Query<Number>,
    told: Seq<Seq<Number>>,
    edges: Option<NewEdges>,
    counts: Counts,
)
    requires may { CanCommit (Event.Setq dir query told) counts kept.old }
    requires suits { IsPreparedFor (Event.Setq dir query told) edges kept.old }
    ensures { IsCommitted (Event.Setq dir query told) kept.old kept.new }
{
    drop(told);
    kept.tree.set_query(dir, query, counts);
    put_edges(&mut kept.graph, edges);
    kept.answers.put();
}

/// Removes a directory's query, with its edges and all its marks.
fn drop_query(kept: &mut Parts, dir: Number, counts: Counts)
    requires { CanCommit (Event.Unq dir) counts kept.old }
    ensures { IsCommitted (Event.Unq dir) kept.old kept.new }
{
    kept.tree.clear_query(dir, counts);
    kept.graph.drop_node(dir);
    kept.marks.drop_dir(dir);
}

/// Sets the edges that were prepared, if any were.
fn put_edges(graph: &mut Graph, edges: Option<NewEdges>)
    requires { IfSome edges (λ new. graph.old.ready ≡ Some new.dir) }
    ensures { (dir : ℕ) (wanted : List ℕ) → WillHave graph.old dir wanted edges
        → (q : ℕ) → edges_of graph.new q ≡ replaced (edges_of graph.old) dir wanted q }
{
    if let Some(edges) = edges {
        graph.set_edges(edges);
    }
}

/// Sets or removes a mark. Where it is on a directory, the edges are set too.
fn put_mark(kept: &mut Parts, mark: Mark, edges: Option<NewEdges>)
    requires linked { IsLinked kept.old }
    requires happens { IsTrue (accepted (state_of kept.old) (Event.Mark mark)) }
    requires suits { IsPreparedFor (Event.Mark mark) edges kept.old }
    ensures { IsCommitted (Event.Mark mark) kept.old kept.new }
{
    kept.marks.know_lists();
    kept.marks.set_kind(mark.dir, mark.item, mark.kind);
    put_edges(&mut kept.graph, edges);
}

/// Gives a file the text that was prepared.
fn put_text(kept: &mut Parts, file: Number, text: Text, counts: Counts)
    requires may { CanCommit (Event.Rewrite file text) counts kept.old }
    requires suits { IsPreparedFor (Event.Rewrite file text) None kept.old }
    ensures { IsCommitted (Event.Rewrite file text) kept.old kept.new }
{
    kept.tree.set_text(file, text, counts);
}

/// Moves an entry to the prepared directory. Where it is semantic, its edges are set too.
fn put_moved(
    kept: &mut Parts,
    entry: Number,
    dir: Number,
    name: Name,
    edges: Option<NewEdges>,
    counts: Counts,
)
    requires may { CanCommit (Event.Mv entry dir name) counts kept.old }
    requires suits { IsPreparedFor (Event.Mv entry dir name) edges kept.old }
    ensures { IsCommitted (Event.Mv entry dir name) kept.old kept.new }
{
    kept.tree.move_to(entry, dir, name, counts);
    put_edges(&mut kept.graph, edges);
}

/// Removes a file or a symbolic link, with all marks on it.
fn drop_leaf(kept: &mut Parts, entry: Number, counts: Counts)
    requires { CanCommit (Event.Rm entry) counts kept.old }
    ensures { IsCommitted (Event.Rm entry) kept.old kept.new }
{
    kept.tree.remove(entry, counts);
    kept.marks.drop_item(entry);
}

/// Removes a directory, with its edges and all its marks.
fn drop_directory(kept: &mut Parts, dir: Number, counts: Counts)
    requires { CanCommit (Event.Rmdir dir) counts kept.old }
    ensures { IsCommitted (Event.Rmdir dir) kept.old kept.new }
{
    kept.tree.remove(dir, counts);
    kept.graph.drop_node(dir);
    kept.marks.drop_dir(dir);
}

/// Adds the mount that was prepared, with its documents and answers.
fn put_mount(
    kept: &mut Parts,
    dir: Number,
    name: Name,
    space: Name,
    documents: Seq<Name>,
    told: Seq<Seq<Number>>,
    counts: Counts,
)
    requires may { CanCommit (Event.Smount dir name space documents told) counts kept.old }
    requires suits { IsPreparedFor (Event.Smount dir name space documents told) None kept.old }
    ensures { IsCommitted (Event.Smount dir name space documents told) kept.old kept.new }
{
    drop(told);
    kept.tree.mount(dir, name, space, documents, counts);
    kept.answers.put();
}

/// Lets a mount take over the documents and answers that were prepared. All marks go on documents
/// that it has no more.
fn put_synced(
    kept: &mut Parts,
    mount: Number,
    documents: Seq<Name>,
    told: Seq<Seq<Number>>,
    counts: Counts,
)
    requires may { CanCommit (Event.Ssync mount documents told) counts kept.old }
    requires suits { IsPreparedFor (Event.Ssync mount documents told) None kept.old }
    ensures { IsCommitted (Event.Ssync mount documents told) kept.old kept.new }
{
    drop(told);
    forget_gone(&mut kept.marks, &kept.tree, mount, documents.as_slice());
    kept.tree.sync(mount, documents, counts);
    kept.answers.put();
}

/// Removes a mount with its documents, all marks on these and its answers.
fn drop_mount(kept: &mut Parts, mount: Number, counts: Counts)
    requires { CanCommit (Event.Sumount mount) counts kept.old }
    ensures { IsCommitted (Event.Sumount mount) kept.old kept.new }
{
    forget_mount(&mut kept.marks, &kept.tree, mount);
    kept.tree.unmount(mount, counts);
    kept.answers.drop_mount(mount);
}

/// Lets a session stand in another directory.
fn put_session(kept: &mut Parts, session: Name, dir: Number, sessions: Seq<Session>)
    requires linked { IsLinked kept.old }
    requires happens { IsTrue (accepted (state_of kept.old) (Event.Cd session dir)) }
    requires sessions { sessions ≡ sessions_with session dir kept.old.sessions }
    ensures { IsCommitted (Event.Cd session dir) kept.old kept.new }
{
    drop(session);
    kept.sessions = sessions;
}

/// Indexes a file.
fn put_step(kept: &mut Parts)
    requires linked { IsLinked kept.old }
    requires happens { IsTrue (accepted (state_of kept.old) Event.Step) }
    ensures { IsCommitted Event.Step kept.old kept.new }
{
    kept.tree.step();
}

/// Indexes `count` files.
fn put_steps(kept: &mut Parts, count: u64)
    requires linked { IsLinked kept.old }
    requires happen { AllHappen (state_of kept.old) (replicate count Event.Step) }
    ensures state { state_of kept.new ≡ apply_all (state_of kept.old) (replicate count Event.Step) }
    ensures linked { IsLinked kept.new }
{
    'steps: for _ in 0..count {
        put_step(kept);
    }
}
