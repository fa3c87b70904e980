//! How much mounts keep. It is counted in words of 64 bits, up to the greatest that there is.
ghost use Rattle.std.specs.Prelude.{◌≡◌, length, sum_by};
ghost use Rattle.hac_model.specs.Tree.{answers_in};
ghost use Rattle.hac_model.specs.Tree.Limits as limits;
ghost use Rattle.layout_check.specs.Bounded.{bounded};

use hac_model::{ANSWERS_LIMIT, Answer, Body, Entry, PAIRS_LIMIT};

/// Whether mounts keep no more answers than they may.
pub(crate) fn are_answers_few(entries: &[Entry]) -> bool
    ensures { result ≡ limits.are_answers_few entries.now }
{
    documents_kept(entries) <= ANSWERS_LIMIT && answers_kept(entries) <= PAIRS_LIMIT
}

/// How many documents the answers of all mounts name.
fn documents_kept(entries: &[Entry]) -> u64
    ensures { result ≡ bounded (sum_by (λ entry. limits.documents_kept entry.body) entries.now) }
{
    let mut count = 0_u64;
    for entry in entries {
        count = count.saturating_add(documents_in(answers_of(&entry.body)));
    }
    count
}

/// How many answers all mounts keep.
fn answers_kept(entries: &[Entry]) -> u64
    ensures { result ≡ bounded (sum_by (λ entry. limits.answers_kept entry.body) entries.now) }
{
    let mut count = 0_u64;
    for entry in entries {
        count = count.saturating_add(answers_of(&entry.body).len() as u64);
    }
    count
}

/// How many documents answers name.
fn documents_in(answers: &[Answer]) -> u64
    ensures { result ≡ bounded (sum_by (λ answer. length answer.documents) answers.now) }
{
    let mut count = 0_u64;
    for answer in answers {
        count = count.saturating_add(answer.documents.as_slice().len() as u64);
    }
    count
}

/// The answers that are kept in it, none where it is no mount.
fn answers_of(body: &Body) -> &[Answer]
    ensures { result.now ≡ answers_in body.now }
{
    match body {
        Body::Mount { answers, .. } => answers.as_slice(),
        _ => &[],
    }
}
