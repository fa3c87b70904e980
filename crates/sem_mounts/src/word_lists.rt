//! For each word the documents whose texts have it. The documents are known by their numbers alone,
//! from 0 in the order of their names.
ghost use Rattle.std.specs.Prelude.{◌≡◌, ◌<◌, ◌+◌, ◌||◌, ℕ, All, IfOk, false, length, nat_eq, true};
ghost use Rattle.std.specs.Cmp.Lexicographic.{slice_cmp};
ghost use Rattle.std.specs.List.{list_any};
ghost use Rattle.std.specs.Ordering.{is_le, nat_cmp};
ghost use Rattle.hac_model.specs.Query.Terms.{letters_in};
ghost use Rattle.hac_model.specs.Query.Words.{is_asked};
ghost use Rattle.hac_model.specs.declared.terms.Term.{Term};
ghost use Rattle.sem_mounts.specs.WordLists.{AreInOrder, AreListed, AreMarked, is_listed};
ghost use Rattle.sem_mounts.specs.WordLists.{is_marked};

use crate::gathered::Gathered;
use crate::numbers::Numbers;
use hac_model::{Memory, Name, Term, Text};
use std::alloc::Global;
use std::collections::BTreeMap;
use std::marker::Model;

/// Words in their order, each with the numbers of the documents that have it.
#[derive(Drop)]
pub(crate) struct WordLists(Vec<(Name, Numbers)>);

impl Model for WordLists {
    ghost use Rattle.sem_mounts.specs.WordLists.{AreInOrder, Lists};

    ghost Value = { Lists };

    ghost view = { λ lists. lists.0.items };

    ghost invariant = { λ lists. AreInOrder lists.0.items };
}

impl WordLists {
    /// The lists of the words of these texts. Of more texts than there are numbers of 32 bits it
    /// says that memory ran out.
    pub(crate) fn of(alloc: Global, texts: &BTreeMap<Name, Text>) -> Result<WordLists, Memory>
        ensures { IfOk result (AreListed texts.now.entries) }
    {
        let mut gathered = Gathered::new(alloc);
        let mut number = 0;
        for (_, text) in texts.iter() {
            gathered.put_text(text.as_slice(), number)?;
            number = next(number)?;
        }
        Ok(WordLists::in_order(gathered.into_lists()))
    }

    // These lists, in the order of their words.
    fn in_order(mut lists: Vec<(Name, Numbers)>) -> WordLists
        ensures { (n : ℕ) (term : Term) → is_listed result n term ≡ is_listed lists.items n term }
    {
        lists.sort_unstable_by(|a, b| a.0.cmp(&b.0));
        WordLists(lists)
    }

    /// Of so many documents which ones have what the term asks for.
    pub(crate) fn marks(
        &self,
        alloc: Global,
        count: usize,
        term: &Term,
    ) -> Result<Vec<bool>, Memory>
        ensures { IfOk result (λ marks.
            AreMarked (λ n. is_listed self.now n term.now) count marks.items) }
    {
        let mut marks = unmarked(alloc, count)?;
        for (word, numbers) in self.lists_from(term) {
            if !is_asked(word, term) {
                break;
            }
            mark(&mut marks, numbers.as_slice());
        }
        Ok(marks)
    }

    // The lists of the words that aren't before the letters of a term.
    fn lists_from(&self, term: &Term) -> &[(Name, Numbers)]
        ensures order { AreInOrder result.now }
        ensures from { All (λ list. is_le (slice_cmp nat_cmp (letters_in term.now) list.0) ≡ true)
            result.now }
        ensures asked { (n : ℕ) →
            is_listed result.now n term.now ≡ is_listed self.now n term.now }
    {
        let letters = letters(term);
        let first = self.0.partition_point(|list| list.0 < *letters);
        &self.0[first..]
    }
}

fn next(number: u32) -> Result<u32, Memory>
    ensures { IfOk result (λ next. next ≡ number + 1) }
{
    number.checked_add(1).ok_or(Memory)
}

// So many documents, none of them marked.
fn unmarked(alloc: Global, count: usize) -> Result<Vec<bool>, Memory>
    ensures { IfOk result (λ marks. AreMarked (λ _. false) count marks.items) }
{
    let mut marks = Vec::new(alloc);
    marks.resize(count, false)?;
    Ok(marks)
}

// The letters of a term. No word that it asks for is before them.
fn letters(term: &Term) -> &Name
    ensures { result.now ≡ letters_in term.now }
{
    match term {
        Term::Word(letters) | Term::Prefix(letters) => letters,
    }
}

// Whether a word is what a term asks for.
fn is_asked(word: &Name, term: &Term) -> bool
    ensures { result ≡ is_asked term.now word.now }
{
    match term {
        Term::Word(letters) => letters == word,
        Term::Prefix(letters) => word.as_bytes().starts_with(letters.as_bytes()),
    }
}

// Marks the documents of these numbers.
fn mark(marks: &mut Vec<bool>, numbers: &[u32])
    ensures len { length marks.new.items ≡ length marks.old.items }
    ensures marks { (n : ℕ) → n < length marks.old.items → is_marked marks.new.items n
        ≡ (list_any (nat_eq n) numbers.now || is_marked marks.old.items n) }
{
    for number in numbers {
        mark_one(marks, *number as usize);
    }
}

fn mark_one(marks: &mut Vec<bool>, number: usize)
    ensures len { length marks.new.items ≡ length marks.old.items }
    ensures marks { (n : ℕ) → n < length marks.old.items → is_marked marks.new.items n
        ≡ (nat_eq n number || is_marked marks.old.items n) }
{
    if number < marks.len() {
        marks[number] = true;
    }
}
