//! Lists that rise.
ghost use Rattle.std.specs.Prelude.{◌≡◌, ◌+◌, None, nat_le, true};
ghost use Rattle.std.specs.Option.{option_copied, option_map_or};
ghost use Rattle.hac_model.specs.Query.Terms.{is_term_before};
ghost use Rattle.hac_model.specs.Tree.ValidTest.{do_rise_from, do_terms_rise};

use hac_model::{Answer, Number, Term};

/// Whether numbers rise.
pub(crate) fn do_rise(numbers: &[Number]) -> bool
    ensures { result ≡ do_rise_from 0 numbers.now }
{
    let mut last = None;
    for number in numbers {
        if !is_above(last, *number) {
            return false;
        }
        last = Some(*number);
    }
    true
}

/// Whether a number is above the last one, if there is one.
fn is_above(last: Option<Number>, number: Number) -> bool
    ensures { result ≡ nat_le (option_map_or (λ last. last + 1) last 0) number }
{
    match last {
        Some(last) => last < number,
        None => true,
    }
}

/// Whether the terms of answers rise.
pub(crate) fn do_terms_rise(answers: &[Answer]) -> bool
    ensures { result ≡ do_terms_rise None answers.now }
{
    let mut last = None;
    for answer in answers {
        if !is_behind(last, &answer.term) {
            return false;
        }
        last = Some(&answer.term);
    }
    true
}

/// Whether a term comes behind the last one, if there is one.
fn is_behind(last: Option<&Term>, term: &Term) -> bool
    ensures { result ≡
        option_map_or (λ last. is_term_before last term.now) (option_copied last.entry) true }
{
    match last {
        Some(last) => last.is_before(term),
        None => true,
    }
}
