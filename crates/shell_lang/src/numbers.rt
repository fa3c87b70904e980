//! The numbers of lines: how many bytes a `put` asks for, and how many steps a `tick` takes. And
//! that from which a script is drawn.
ghost use Rattle.std.specs.Prelude.{◌≡◌, ◌^◌, true, if◌then◌else◌, nat_lt, Some, None};
ghost use Rattle.std.specs.Char.{is_ascii_digit};
ghost use Rattle.std.specs.List.{list_all};
ghost use Rattle.std.specs.Str.Parse.{digits_value};
ghost use Rattle.hac_model.specs.Run.Answers.{Answers};
ghost use Rattle.hac_model.specs.Script.Lines.{tick_of};
ghost use Rattle.hac_model.specs.Script.Numbers.{is_number, is_number_within, is_seed, is_tick};

use crate::words::only_word;
use hac_model::{Command, Deny, Refusal, TICK_LIMIT};
use std::alloc::Global;

// How many digits the numbers of lines have at most, and those from which scripts are drawn.
const NUMBER_DIGITS: usize = 10;

const SEED_DIGITS: usize = 20;

/// `tick N`, from what follows `tick`.
#[tactic(auto, unfolding(hac_model::specs::Script::Lines::tick_of))]
pub fn parse_tick(alloc: Global, arguments: &[u8]) -> Result<Command, Deny>
    ensures { Answers result (tick_of arguments.now) }
{
    let word = only_word(alloc, arguments)?;
    match steps_of(&word) {
        Some(steps) => Ok(Command::Tick { steps }),
        None => Err(Deny::Refused(Refusal::BadLine)),
    }
}

/// The steps that a word asks for, if a `tick` may take as many.
pub fn steps_of(word: &[u8]) -> Option<u64>
    ensures { result ≡ (if is_tick word.now then Some (digits_value 10 word.now) else None) }
{
    let steps = number_of(word)?;
    if steps > TICK_LIMIT {
        return None;
    }
    Some(steps)
}

/// The number from which a script is to be drawn, if the word is one that eight bytes hold.
pub fn seed_of(word: &[u8]) -> Option<u64>
    ensures { result ≡ (if is_seed word.now then Some (digits_value 10 word.now) else None) }
{
    if !is_number_within(word, SEED_DIGITS) {
        return None;
    }
    number(word)
}

/// The number that a word is, if it is one.
pub fn number_of(word: &[u8]) -> Option<u64>
    ensures { result ≡ (if is_number word.now then Some (digits_value 10 word.now) else None) }
{
    if !is_number(word) {
        return None;
    }
    number(word)
}

/// Whether the word is `0`, or 1 to 10 digits of which the first is no zero.
pub fn is_number(word: &[u8]) -> bool
    ensures { result ≡ is_number word.now }
{
    is_number_within(word, NUMBER_DIGITS)
}

/// Whether the word is `0`, or so many digits at most, of which the first is no zero.
fn is_number_within(word: &[u8], most: usize) -> bool
    ensures { result ≡ is_number_within most word.now }
{
    match word {
        b"0" => true,
        [b'0', ..] => false,
        _ => (1..=most).contains(&word.len()) && are_digits(word),
    }
}

fn are_digits(word: &[u8]) -> bool
    ensures { result ≡ list_all is_ascii_digit word.now }
{
    word.iter().all(|byte| byte.is_ascii_digit())
}

/// The number that digits write, if eight bytes hold it.
fn number(digits: &[u8]) -> Option<u64>
    requires { list_all is_ascii_digit digits.now ≡ true }
    ensures { result ≡ (if nat_lt (digits_value 10 digits.now) (2 ^ 64)
        then Some (digits_value 10 digits.now) else None) }
{
    let mut number = 0_u64;
    'digits: for digit in digits {
        number = number
            .checked_mul(10)?
            .checked_add(u64::from(*digit - b'0'))?;
    }
    Some(number)
}
