//! The line of counts.
ghost use Rattle.std.specs.Prelude.{◌≡◌, ◌<◌, ◌≤◌, ◌∷◌, ◌++◌, ◌+◌, ◌-◌, ◌^◌, [], IfOk, OnOk};
ghost use Rattle.hac_model.specs.Tree.Links.{permanent_count, prohibited_count, transient_count};
ghost use Rattle.hac_model.specs.Run.Play.{count_text, counts_line};
ghost use Rattle.hac_model.specs.Run.Showing.{line_of_counts};
ghost use Rattle.tree_answers.specs.Counting.{link_count};

use hac_model::{Counts, Kind, Memory, Name};
use kept_links::LinkedState;
use kept_state::KeptState;
use link_kinds::Links;
use std::alloc::Global;

/// How much there is of each kind, on one line.
pub fn counts_lines(alloc: Global, linked: &LinkedState) -> Result<Vec<Name>, Memory>
    ensures { IfOk result (λ lines. lines.items ≡ counts_line linked.now.state ∷ []) }
{
    let kept = linked.kept();
    let transient = transient_count(alloc, linked)?;
    let permanent = permanent_count(alloc, kept)?;
    let prohibited = prohibited_count(alloc, kept)?;
    let mut lines = Vec::new(alloc);
    lines.push(line_of_counts(alloc, kept.counts(), transient, permanent, prohibited)?)?;
    Ok(lines)
}

/// How many items directories found.
fn transient_count(alloc: Global, linked: &LinkedState) -> Result<u64, Memory>
    ensures { IfOk result (λ count. count ≡ transient_count linked.now.state) }
{
    let kept = linked.kept();
    kept.know_valid();
    link_count(alloc, kept, linked.links(), Kind::Transient)
}

/// How many items users added to directories.
fn permanent_count(alloc: Global, kept: &KeptState) -> Result<u64, Memory>
    ensures { IfOk result (λ count. count ≡ permanent_count kept.now.state) }
{
    link_count(alloc, kept, kept.marks(), Kind::Permanent)
}

/// How many items they removed from directories.
fn prohibited_count(alloc: Global, kept: &KeptState) -> Result<u64, Memory>
    ensures { IfOk result (λ count. count ≡ prohibited_count kept.now.state) }
{
    link_count(alloc, kept, kept.marks(), Kind::Prohibited)
}

/// The line, given the counts of a tree, and how many links of each kind there are.
fn line_of_counts(
    alloc: Global,
    counts: Counts,
    transient: u64,
    permanent: u64,
    prohibited: u64,
) -> Result<Name, Memory>
    requires plain { 1 + counts.semantics + counts.mounts ≤ counts.directories }
    requires items { counts.files ≤ counts.items }
    ensures { IfOk result (λ line. line ≡ line_of_counts counts
        (counts.directories - 1 - counts.semantics - counts.mounts) transient permanent
        prohibited) }
{
    let plain = counts.directories - 1 - counts.semantics - counts.mounts;
    let mut line = Vec::from_slice(alloc, b"=")?;
    push_count(alloc, &mut line, b"files", counts.files)?;
    push_count(alloc, &mut line, b"documents", counts.items - counts.files)?;
    push_count(alloc, &mut line, b"directories", plain)?;
    push_count(alloc, &mut line, b"semantic", counts.semantics)?;
    push_count(alloc, &mut line, b"mounts", counts.mounts)?;
    push_count(alloc, &mut line, b"symbolic", counts.symlinks)?;
    push_count(alloc, &mut line, b"transient", transient)?;
    push_count(alloc, &mut line, b"permanent", permanent)?;
    push_count(alloc, &mut line, b"prohibited", prohibited)?;
    push_count(alloc, &mut line, b"dirty", counts.dirty)?;
    push_count(alloc, &mut line, b"next", counts.next)?;
    Ok(Name::new(line))
}

/// Adds how much there is of one thing.
fn push_count(alloc: Global, line: &mut Vec<u8>, word: &[u8], count: u64) -> Result<(), Memory>
    ensures { OnOk result (line.new.items ≡ line.old.items ++ count_text word.now count) }
{
    line.push(b' ')?;
    line.extend_from_slice(word)?;
    line.push(b' ')?;
    line.extend_from_slice(count.to_string(alloc)?.as_bytes())?;
    Ok(())
}

/// How many links of a kind there are, over all entries.
fn link_count(alloc: Global, kept: &KeptState, links: &Links, kind: Kind) -> Result<u64, Memory>
    requires { link_count kind kept.now.state links.now < 2 ^ 63 }
    ensures { IfOk result (λ count. count ≡ link_count kind kept.now.state links.now) }
{
    let mut sum: u64 = 0;
    for number in kept.numbers(alloc)? {
        sum += links.count(number, kind);
    }
    Ok(sum)
}
