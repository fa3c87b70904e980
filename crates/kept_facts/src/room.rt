//! How much more mounts may keep. It changes nothing.
ghost use Rattle.std.specs.Prelude.{◌≡◌, ◌≤◌, ◌<◌, ◌+◌, ◌^◌, length, nat_le};
ghost use Rattle.hac_model.specs.declared.limits.TheConstants as limits;
ghost use Rattle.kept_facts.specs.Room.{IsLess, documents_in, fits, numbers_in};

use hac_model::{Answer, Number, Seq};

/// How many more documents kept answers may name, and how many more answers may be kept.
#[derive(Clone, Copy)]
pub struct Room {
    /// The documents, each counted once for each answer that names it.
    pub documents: u64,
    /// The answers.
    pub answers: u64,
}

impl Room {
    /// What these answers leave of it.
    pub fn without(self, answers: &[Answer]) -> Room
        requires documents { documents_in answers.now ≤ self.documents }
        requires answers { length answers.now ≤ self.answers }
        ensures { IsLess answers.now self result }
    {
        Room {
            documents: self.documents - documents_in(answers),
            answers: self.answers - answers.len() as u64,
        }
    }

    /// What there is once these answers are gone.
    pub fn with(self, answers: &[Answer]) -> Room
        requires documents { self.documents + documents_in answers.now ≤ limits.ANSWERS_LIMIT }
        requires answers { self.answers + length answers.now ≤ limits.PAIRS_LIMIT }
        ensures { IsLess answers.now result self }
    {
        Room {
            documents: self.documents + documents_in(answers),
            answers: self.answers + answers.len() as u64,
        }
    }

    /// Whether an answer for each of these lists can be kept.
    pub fn fits(self, told: &[Seq<Number>]) -> bool
        ensures { result ≡ fits self told.now }
    {
        told.len() as u64 <= self.answers && hold_few(told, self.documents)
    }
}

/// How many documents answers name.
fn documents_in(answers: &[Answer]) -> u64
    requires { documents_in answers.now < 2 ^ 64 }
    ensures { result ≡ documents_in answers.now }
{
    let mut count = 0;
    'answers: for answer in answers {
        count += answer.documents.as_slice().len() as u64;
    }
    count
}

/// Whether there are no more numbers in lists than this.
fn hold_few(lists: &[Seq<Number>], most: u64) -> bool
    ensures { result ≡ nat_le (numbers_in lists.now) most }
{
    let mut left = most;
    'lists: for list in lists {
        let count = list.as_slice().len() as u64;
        if left < count {
            return false;
        }
        left -= count;
    }
    true
}
