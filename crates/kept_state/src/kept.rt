//! The state as it is kept, and the events that it is ready for.
ghost use Rattle.std.specs.Prelude.{◌≡◌, ◌∷◌, [], IfOk, IsTrue, OnErr, OnOk, replicate};
ghost use Rattle.hac_model.specs.Tree.Depends.{cycle_of_mark, cycle_of_move, cycle_over};
ghost use Rattle.hac_model.specs.Tree.Events.{accepted, apply, apply_all};
ghost use Rattle.hac_model.specs.Laws.{AllHappen};
ghost use Rattle.hac_model.specs.Tree.Limits as limits;
ghost use Rattle.hac_model.specs.Tree.Limits.{are_answers_few, counts};
ghost use Rattle.hac_model.specs.Tree.Links.{answers_at, has, kept_at, lenders, parent_of};
ghost use Rattle.hac_model.specs.Tree.Mounts.{is_kept, terms_to_ask};
ghost use Rattle.hac_model.specs.Tree.{path_of, raised, root_alone};
ghost use Rattle.hac_model.specs.Tree.Sessions.{are_few, is_busy, is_stored, least_name};
ghost use Rattle.hac_model.specs.Tree.Sessions.{sessions_with, stands_in, visitors};
ghost use Rattle.hac_model.specs.Tree.Valid.{IsValid};
ghost use Rattle.hac_model.specs.Tree.Events.{is_placed};
ghost use Rattle.file_tree.specs.Answers.{numbers_of};
ghost use Rattle.kept_facts.specs.AnswersKept.{list_at};
ghost use Rattle.hac_model.specs.declared.states.State.{State};
ghost use Rattle.kept_state.specs.Readers.{AreEdgesOf, AreMarksOf, ArePartsOf, IsTreeOf};
ghost use Rattle.kept_state.specs.Readers.{mark_at};

use crate::parts::Parts;
use crate::ready::{Ready, prepare, put};
use crate::terms::terms_to_ask;
use crate::{edges, lenders, room};
use dep_graph::Graph;
use file_tree::Tree;
use hac_model::{
    Answer, Counts, Event, Kind, Mark, Memory, Name, Number, Path, Query, Seq, Term, Version,
};
use kept_facts::{Answers, Lists, sessions};
use link_kinds::Links;
use std::alloc::Global;
use std::marker::Model;
use std::mem;

/// A state, seen as that state and as the events for which memory was taken.
#[derive(Drop)]
pub struct KeptState {
    pub(crate) parts: Parts,
    pub(crate) ready: Ready,
}

impl Model for KeptState {
    ghost use Rattle.kept_state.specs.Seen.{Seen, seen_code};

    ghost Value = { Seen };

    ghost coded = { seen_code };

    ghost use Rattle.kept_state.specs.Kept.{seen_of, IsKept};

    ghost view = { seen_of };

    ghost invariant = { IsKept };
}

impl KeptState {
    /// The root alone, in a store of a version.
    pub fn new(alloc: Global, version: Version) -> Result<KeptState, Memory>
        ensures { IfOk result (λ kept. kept
            ≡ record { state = root_alone version; ready = [] }) }
    {
        Ok(KeptState {
            parts: Parts::new(alloc, version)?,
            ready: Ready::Nothing,
        })
    }

    /// The state of which these are the parts, as they are made of one that was read. It has no
    /// sessions: each begins in the root.
    pub fn of_parts(
        alloc: Global,
        tree: Tree,
        marks: Links,
        answers: Lists,
        graph: Graph,
    ) -> KeptState
        requires { (s : State) × ArePartsOf s tree.state marks (list_at answers) graph }
        ensures { (s : State) → ArePartsOf s tree.state marks (list_at answers) graph →
            result ≡ record { state = s; ready = [] } }
    {
        KeptState {
            parts: Parts {
                tree,
                marks,
                answers: Answers::of_lists(alloc, answers),
                graph,
                sessions: Seq::new(Vec::new(alloc)),
            },
            ready: Ready::Nothing,
        }
    }

    /// The tree, without marks and answers.
    pub fn tree(&self) -> &Tree
        ensures tree { IsTreeOf self.now.state result.now.state }
        ensures valid { IsValid self.now.state }
    {
        &self.parts.tree
    }

    /// The numbers of the entries, in order. It takes time that goes with how many there are, and
    /// not with the number that is next.
    pub fn numbers(&self, alloc: Global) -> Result<Vec<Number>, Memory>
        ensures { IfOk result (λ numbers. numbers.items ≡ numbers_of self.now.state.entries) }
    {
        self.tree().numbers(alloc)
    }

    /// The path of an entry.
    pub fn path_of(&self, entry: Number) -> Result<Path, Memory>
        ensures { IfOk result (λ path. path ≡ path_of self.now.state entry) }
    {
        self.tree().path_of(entry)
    }

    /// The state is valid. This does nothing: it is called where a proof has to know so.
    pub fn know_valid(&self)
        ensures { IsValid self.now.state }
    {
        let _parts = &self.parts;
    }

    /// Whether a mount keeps an answer for a term.
    pub fn keeps(&self, mount: Number, term: &Term) -> bool
        ensures { result ≡ is_kept (answers_at self.now.state mount) term.now }
    {
        self.parts.answers.keeps(mount, term)
    }

    /// Whether a document of a mount had a term when the mount's space was asked for it.
    pub fn has_answer(&self, mount: Number, term: &Term, document: Number) -> bool
        ensures { result ≡ has (kept_at self.now.state mount term.now) document }
    {
        self.parts.answers.has(mount, term, document)
    }

    /// The answers that a mount keeps, in order of their terms.
    pub fn answers_of(&self, mount: Number) -> &[Answer]
        ensures { result.now ≡ answers_at self.now.state mount }
    {
        self.parts.answers.kept_by(mount)
    }

    /// The terms that a space is asked for as it is mounted, and as its mount is synced: those in
    /// use, in order.
    pub fn terms_to_ask(&self, alloc: Global) -> Result<Seq<Term>, Memory>
        ensures { IfOk result (λ terms. terms ≡ terms_to_ask self.now.state.entries) }
    {
        let terms = terms_to_ask(alloc, self.tree())?;
        Ok(Seq::new(terms))
    }

    /// How much the state holds.
    pub fn counts(&self) -> Counts
        ensures counts { result ≡ counts self.now.state }
        ensures valid { IsValid self.now.state }
    {
        self.parts.tree.counts()
    }

    /// The marks of all directories.
    pub fn marks(&self) -> &Links
        ensures marks { AreMarksOf self.now.state result.now }
        ensures valid { IsValid self.now.state }
    {
        &self.parts.marks
    }

    /// The mark of an item or a directory in a directory.
    pub fn mark(&self, dir: Number, item: Number) -> Kind
        ensures { result ≡ mark_at self.now.state dir item }
    {
        self.parts.marks.kind(dir, item)
    }

    /// What depends on what.
    pub fn graph(&self) -> &Graph
        ensures edges { AreEdgesOf self.now.state result.now }
        ensures valid { IsValid self.now.state }
    {
        &self.parts.graph
    }

    /// If a directory got this query: the first directory on which it would then depend that
    /// depends on it, if any.
    pub fn cycle_of_query(
        &self,
        alloc: Global,
        dir: Number,
        query: &Query<Number>,
    ) -> Result<Option<Number>, Memory>
        ensures { IfOk result (λ way. way ≡ cycle_over self.now.state dir
            (parent_of self.now.state dir) query.now) }
    {
        edges::cycle_of_query(alloc, &self.parts, dir, query)
    }

    /// As `cycle_of_query`, for an entry that goes to a directory.
    pub fn cycle_of_move(
        &self,
        alloc: Global,
        entry: Number,
        dir: Number,
    ) -> Result<Option<Number>, Memory>
        ensures { IfOk result (λ way. way ≡ cycle_of_move self.now.state entry dir) }
    {
        edges::cycle_of_move(alloc, &self.parts, entry, dir)
    }

    /// The directory to be added to another, if it is that one or depends on it. Of an item there
    /// is none.
    pub fn cycle_of_mark(&self, alloc: Global, mark: &Mark) -> Result<Option<Number>, Memory>
        ensures { IfOk result (λ way. way
            ≡ cycle_of_mark self.now.state mark.now.dir mark.now.item mark.now.kind) }
    {
        edges::cycle_of_mark(alloc, &self.parts, mark)
    }

    /// The directories that users added to a directory, in order of number: they lend it all that
    /// they provide.
    pub fn lenders(&self, dir: Number) -> &[Number]
        ensures { result.now ≡ lenders self.now.state dir }
    {
        lenders::lenders(&self.parts, dir)
    }

    /// The directory in which a session stands.
    pub fn stands_in(&self, session: &Name) -> Number
        ensures { result ≡ stands_in self.now.state.sessions session.now }
    {
        sessions::stands_in(self.parts.sessions.as_slice(), session)
    }

    /// Whether a session stands in a directory.
    pub fn is_busy(&self, dir: Number) -> bool
        ensures { result ≡ is_busy self.now.state.sessions dir }
    {
        sessions::is_busy(self.parts.sessions.as_slice(), dir)
    }

    /// The least of the names of the sessions that stand in a directory, if any do.
    pub fn least_visitor(&self, dir: Number) -> Result<Option<Name>, Memory>
        ensures { IfOk result (λ least. least
            ≡ least_name (visitors self.now.state.sessions dir)) }
    {
        sessions::least_visitor(self.parts.sessions.as_slice(), dir)
    }

    /// Whether a session may stand in a directory: no more sessions than may then stand elsewhere
    /// than in the root.
    pub fn has_place_for(&self, session: &Name, dir: Number) -> bool
        ensures { result ≡ are_few self.now.state.version
            (sessions_with session.now dir self.now.state.sessions) }
    {
        let version = self.parts.tree.version();
        sessions::has_place_for(version, self.parts.sessions.as_slice(), session, dir)
    }

    /// Whether mounts would keep no more answers than they may after an event. What it refers to is
    /// in the state. Where something was told, this goes over all answers that are kept.
    pub fn keeps_few_after(&self, alloc: Global, event: &Event) -> Result<bool, Memory>
        requires { IsTrue (is_placed self.now.state event.now) }
        ensures { IfOk result (λ few. few
            ≡ are_answers_few (apply self.now.state event.now).entries) }
    {
        room::keeps_few_after(alloc, &self.parts, event)
    }

    /// Takes the memory that an event wants that is stored, so that `commit` can apply it. How much
    /// the state then holds is given. The state doesn't change, whatever the answer, and what was
    /// prepared before is dropped.
    pub fn prepare(&mut self, alloc: Global, event: Event, counts: Counts) -> Result<(), Memory>
        requires accepted { IsTrue (accepted self.old.state event) }
        requires stored { IsTrue (is_stored event) }
        requires counts { counts ≡ limits.counts (apply self.old.state event) }
        ensures ok { OnOk result (self.new
            ≡ record { state = self.old.state; ready = event ∷ [] }) }
        ensures err { OnErr result (self.new ≡ record { state = self.old.state; ready = [] }) }
    {
        self.ready.set(Ready::Nothing);
        match prepare(alloc, &mut self.parts, &event) {
            Ok(edges) => {
                self.ready.set(Ready::Change {
                    event,
                    edges,
                    counts,
                });
                Ok(())
            }
            Err(memory) => {
                drop(event);
                Err(memory)
            }
        }
    }

    /// The same for a session that is to stand in another directory.
    pub fn prepare_session(
        &mut self,
        alloc: Global,
        session: Name,
        dir: Number,
    ) -> Result<(), Memory>
        requires { IsTrue (accepted self.old.state (Event.Cd session dir)) }
        ensures ok { OnOk result (self.new
            ≡ record { state = self.old.state; ready = Event.Cd session dir ∷ [] }) }
        ensures err { OnErr result (self.new ≡ record { state = self.old.state; ready = [] }) }
    {
        self.ready.set(Ready::Nothing);
        let kept = self.parts.sessions.as_slice();
        let sessions = Seq::new(sessions::sessions_with(alloc, kept, &session, dir)?);
        self.ready.set(Ready::Session {
            session,
            dir,
            sessions,
        });
        Ok(())
    }

    /// Gets ready for steps, which want no memory.
    pub fn prepare_steps(&mut self, count: u64)
        requires { AllHappen self.old.state (replicate count Event.Step) }
        ensures { self.new ≡ record { state = self.old.state; ready = replicate count Event.Step } }
    {
        self.ready.set(Ready::Steps(count));
    }

    /// The state in a store of version 2. A change that was prepared is dropped.
    pub fn raise(&mut self)
        ensures { self.new ≡ record { state = raised self.old.state; ready = [] } }
    {
        self.ready.set(Ready::Nothing);
        self.parts.tree.raise();
    }

    /// Applies the prepared events. This takes no memory, and can't fail.
    pub fn commit(&mut self)
        ensures { self.new ≡ record {
          state = apply_all self.old.state self.old.ready;
          ready = [];
        } }
    {
        let ready = mem::replace(&mut self.ready, Ready::Nothing);
        put(&mut self.parts, ready);
    }
}
