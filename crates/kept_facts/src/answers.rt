//! The answers of spaces, by the mounts that keep them. It knows no tree and no query.
ghost use Rattle.std.specs.Prelude.{◌≡◌, ◌==◌, ◌≤◌, ℕ, [], None, IsTrue, OnErr, OnOk};
ghost use Rattle.std.specs.Prelude.{if◌then◌else◌, length, unwrap_or};
ghost use Rattle.std.specs.List.{prefix_len};
ghost use Rattle.std.specs.Option.{option_copied};
ghost use Rattle.hac_model.specs.Query.Terms.{is_term_before};
ghost use Rattle.hac_model.specs.Tree.Links.{has};
ghost use Rattle.hac_model.specs.Tree.Mounts.{is_kept, kept_for};
ghost use Rattle.hac_model.specs.Tree.Valid.{TermsRise};
ghost use Rattle.kept_facts.specs.Answers.{AreInOrder, KeepsOn, Replaces, SameAnswers, Takes};
ghost use Rattle.kept_facts.specs.Answers.{WillReplace, answers_kept, answers_next, answers_with};
ghost use Rattle.kept_facts.specs.AnswersKept.{has_list, list_at, told_of};

use hac_model::{Answer, Memory, Number, Seq, Term};
use indexmap::IndexMap;
use sorted_lists::has_number;
use std::alloc::Global;
use std::marker::Model;
use std::mem;

/// The answers by the numbers of their mounts.
pub type Lists = IndexMap<u64, Seq<Answer>>;

/// The answers that each mount keeps, and those that it is to keep. A mount that isn't there keeps
/// none.
#[derive(Drop)]
pub struct Answers {
    alloc: Global,
    lists: Lists,
    ready: Ready,
}

/// What mounts are to keep.
#[derive(Drop)]
enum Ready {
    /// What they keep.
    Nothing,
    /// One mount other answers, and the others what they keep.
    One(NewAnswers),
    /// What was told for a query: all of them these lists.
    All(Lists),
}

/// The answers that a mount is to keep.
#[derive(Drop)]
struct NewAnswers {
    mount: Number,
    answers: Seq<Answer>,
}

impl Model for Answers {
    ghost use Rattle.kept_facts.specs.Answers.{Answered};

    ghost Value = { Answered };

    ghost use Rattle.kept_facts.specs.AnswersKept.{answered_of, HasPlace};

    ghost view = { answered_of };

    ghost invariant = { HasPlace };
}

impl Answers {
    /// No mount keeps any.
    pub fn new(alloc: Global) -> Answers
        ensures { result ≡ record { mounts = []; next = [] } }
    {
        Answers {
            alloc,
            lists: IndexMap::new(alloc),
            ready: Ready::Nothing,
        }
    }

    /// Each mount keeps the answers that it has here.
    pub fn of_lists(alloc: Global, lists: Lists) -> Answers
        ensures { result ≡ record { mounts = lists.entries; next = lists.entries } }
    {
        Answers {
            alloc,
            lists,
            ready: Ready::Nothing,
        }
    }

    /// Whether a mount keeps an answer for a term.
    pub fn keeps(&self, mount: Number, term: &Term) -> bool
        requires { AreInOrder (answers_kept self.now mount) }
        ensures { result ≡ is_kept (answers_kept self.now mount) term.now }
    {
        documents_for(self.kept_by(mount), term).is_some()
    }

    /// Whether a document of a mount had a term, by the answer that is kept for it.
    pub fn has(&self, mount: Number, term: &Term, document: Number) -> bool
        requires { AreInOrder (answers_kept self.now mount) }
        ensures { result ≡
            has (unwrap_or (kept_for (answers_kept self.now mount) term.now) []) document }
    {
        had(self.kept_by(mount), term, document)
    }

    /// The answers that a mount keeps.
    pub fn kept_by(&self, mount: Number) -> &[Answer]
        ensures { result.now ≡ answers_kept self.now mount }
    {
        list_of(&self.lists, mount)
    }

    /// Prepares answers that a mount is to keep in place of those that it keeps. No answers change,
    /// whatever the answer, and what was prepared before is dropped.
    pub fn prepare(&mut self, mount: Number, answers: Seq<Answer>) -> Result<(), Memory>
        ensures ok { OnOk result (WillReplace self.new mount answers) }
        ensures err { OnErr result (KeepsOn self.new) }
        ensures same { SameAnswers self.old self.new }
    {
        forget(&mut self.lists, &mut self.ready);
        make_place(self.alloc, &mut self.lists, mount)?;
        self.ready = Ready::One(NewAnswers { mount, answers });
        Ok(())
    }

    /// Prepares what all mounts are to keep: these lists, or what they keep where there are none.
    /// No answers change, and what was prepared before is dropped.
    pub fn prepare_told(&mut self, lists: Option<Lists>)
        ensures told { (mount : ℕ) → answers_next self.new mount
            ≡ answers_with (answers_kept self.new) (told_of lists) mount }
        ensures same { SameAnswers self.old self.new }
    {
        forget(&mut self.lists, &mut self.ready);
        if let Some(lists) = lists {
            self.ready = Ready::All(lists);
        }
    }

    /// The mounts keep what was prepared, and nothing else is ready.
    pub fn put(&mut self)
        ensures { Takes self.old self.new }
    {
        match mem::replace(&mut self.ready, Ready::Nothing) {
            Ready::Nothing => {}
            Ready::One(new) => replace(&mut self.lists, new.mount, new.answers),
            Ready::All(lists) => self.lists = lists,
        }
    }

    /// The answers that a mount will keep once those are put that were prepared.
    pub fn next_of(&self, mount: Number) -> &[Answer]
        ensures { result.now ≡ answers_next self.now mount }
    {
        match &self.ready {
            Ready::Nothing => self.kept_by(mount),
            Ready::One(new) => {
                if new.mount == mount {
                    new.answers.as_slice()
                } else {
                    self.kept_by(mount)
                }
            }
            Ready::All(lists) => list_of(lists, mount),
        }
    }

    /// The mount keeps no answers any more. What was prepared is dropped.
    pub fn drop_mount(&mut self, mount: Number)
        ensures kept { Replaces self.old self.new mount [] }
        ensures next { KeepsOn self.new }
    {
        forget(&mut self.lists, &mut self.ready);
        take_out(&mut self.lists, mount);
    }
}

/// Whether a document had a term, by these answers.
pub fn had(answers: &[Answer], term: &Term, document: Number) -> bool
    ensures { AreInOrder answers.now → result
        ≡ has (unwrap_or (kept_for answers.now term.now) []) document }
{
    match documents_for(answers, term) {
        Some(documents) => has_number(documents, document),
        None => false,
    }
}

/// Whether an answer for a term is among these.
pub fn is_answered(answers: &[Answer], term: &Term) -> bool
    ensures { TermsRise None answers.now → result ≡ is_kept answers.now term.now }
{
    documents_for(answers, term).is_some()
}

/// The documents that had a term, if an answer for it is kept.
fn documents_for<'a>(answers: &'a [Answer], term: &Term) -> Option<&'a [Number]>
    ensures { TermsRise None answers.now →
        option_copied result ≡ kept_for answers.now term.now }
{
    let answer = answers.get(rank(answers, term))?;
    if term.is_before(&answer.term) {
        None
    } else {
        Some(answer.documents.as_slice())
    }
}

/// How many of the answers are for terms before this one.
fn rank(answers: &[Answer], term: &Term) -> usize
    ensures within { result ≤ length answers.now }
    ensures rank { TermsRise None answers.now → result ≡
        prefix_len (λ answer. is_term_before answer.term term.now) answers.now }
{
    answers.partition_point(|answer| answer.term.is_before(term))
}

/// The answers under a number.
fn list_of(lists: &Lists, mount: Number) -> &[Answer]
    ensures { result.now ≡ list_at lists.now mount }
{
    match lists.get(&mount.get()) {
        Some(answers) => answers.as_slice(),
        None => &[],
    }
}

/// Forgets what was prepared.
fn forget(lists: &mut Lists, ready: &mut Ready)
    ensures ready { ready.new ≡ Ready.Nothing }
    ensures same { (number : ℕ) → list_at lists.new number ≡ list_at lists.old number }
{
    match mem::replace(ready, Ready::Nothing) {
        Ready::One(new) => take_out_bare(lists, new.mount),
        Ready::Nothing | Ready::All(_) => {}
    }
}

/// Puts an empty list under a number that has none.
fn make_place(alloc: Global, lists: &mut Lists, mount: Number) -> Result<(), Memory>
    ensures there { OnOk result (IsTrue (has_list lists.new mount)) }
    ensures same { (number : ℕ) → list_at lists.new number ≡ list_at lists.old number }
{
    if !lists.contains_key(&mount.get()) {
        lists.insert(mount.get(), Seq::new(Vec::new(alloc)))?;
    }
    Ok(())
}

/// Puts answers under a number, in place of those there.
pub fn put_list(lists: &mut Lists, mount: Number, answers: Seq<Answer>) -> Result<(), Memory>
    ensures { OnOk result ((number : ℕ) → list_at lists.new number ≡
        (if number == mount then answers else list_at lists.old number)) }
{
    lists.insert(mount.get(), answers)?;
    Ok(())
}

/// Puts other answers under a number.
fn replace(lists: &mut Lists, mount: Number, answers: Seq<Answer>)
    requires { IsTrue (has_list lists.old mount) }
    ensures { (number : ℕ) → list_at lists.new number ≡
        (if number == mount then answers else list_at lists.old number) }
{
    if let Some(place) = lists.get_mut(&mount.get()) {
        *place = answers;
    }
}

/// Takes the list from a number, whatever it holds.
fn take_out(lists: &mut Lists, mount: Number)
    ensures { (number : ℕ) → list_at lists.new number ≡
        (if number == mount then [] else list_at lists.old number) }
{
    lists.swap_remove(&mount.get());
}

/// Takes the list from a number, if it is empty.
fn take_out_bare(lists: &mut Lists, mount: Number)
    ensures { (number : ℕ) → list_at lists.new number ≡ list_at lists.old number }
{
    if list_of(lists, mount).is_empty() {
        take_out(lists, mount);
    }
}
