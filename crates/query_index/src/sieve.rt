//! A quick look whether letters may be in an index. Most words of a text are in none.
ghost use Rattle.std.specs.Prelude.{◌≡◌, ◌<◌, ◌≤◌, ◌⊎◌, ℕ, [], IsTrue, List, OnOk, length};
ghost use Rattle.query_index.specs.Sieve.{has_number, next, number_of, passes};

use hac_model::Memory;
use std::alloc::Global;
use std::marker::Model;

/// How many numbers there are for letters.
pub(crate) const NUMBERS: usize = 32768;

/// The number of no letters.
pub(crate) const NO_LETTERS: usize = 0;

/// The numbers of some letters. Letters with another number aren't among them.
#[derive(Drop)]
pub(crate) struct Sieve {
    // Whether letters have it, for each number. There are none before the first letters come.
    marks: Vec<bool>,
}

impl Model for Sieve {
    ghost use Rattle.std.specs.Prelude.{Bool, List};

    ghost Value = { List Bool };

    ghost view = { λ sieve. sieve.marks.items };
}

impl Sieve {
    /// No letters pass.
    pub(crate) fn new(alloc: Global) -> Sieve
        ensures { result ≡ [] }
    {
        Sieve {
            marks: Vec::new(alloc),
        }
    }

    /// Lets letters pass, and all that passed before. Where memory runs out, these still do.
    pub(crate) fn admit(&mut self, letters: &[u8]) -> Result<(), Memory>
        ensures admitted { OnOk result (IsTrue (passes self.new letters.now)) }
        ensures others { (others : List ℕ) → IsTrue (passes self.old others)
            → IsTrue (passes self.new others) }
        ensures only { (number : ℕ) → IsTrue (has_number self.new number)
            → number ≡ number_of letters.now ⊎ IsTrue (has_number self.old number) }
    {
        make_marks(&mut self.marks)?;
        self.marks[number_of(letters)] = true;
        Ok(())
    }

    /// Whether letters pass.
    pub(crate) fn passes(&self, letters: &[u8]) -> bool
        ensures { result ≡ passes self.now letters.now }
    {
        self.has_number(number_of(letters))
    }

    /// Whether letters of this number do.
    pub(crate) fn has_number(&self, number: usize) -> bool
        ensures { result ≡ has_number self.now number }
    {
        match self.marks.get(number) {
            Some(mark) => *mark,
            None => false,
        }
    }
}

/// Makes a mark for each number that has none. It says that no letters have the number.
fn make_marks(marks: &mut Vec<bool>) -> Result<(), Memory>
    ensures all { OnOk result (NUMBERS ≤ length marks.new.items) }
    ensures same { (number : ℕ) → has_number marks.new.items number
        ≡ has_number marks.old.items number }
{
    if marks.len() < NUMBERS {
        marks.resize(NUMBERS, false)?;
    }
    Ok(())
}

/// The number of letters.
fn number_of(letters: &[u8]) -> usize
    ensures number { result ≡ number_of letters.now }
    ensures below { result < NUMBERS }
{
    let mut number = NO_LETTERS;
    for byte in letters {
        number = next(number, *byte);
    }
    number
}

/// The number of letters and a byte behind them, by that of the letters.
pub(crate) fn next(number: usize, byte: u8) -> usize
    requires { number < NUMBERS }
    ensures next { result ≡ next number byte }
    ensures below { result < NUMBERS }
{
    (number * 251 + usize::from(byte)) % NUMBERS
}
