//! What entries count for, and sums of counts.
ghost use Rattle.std.specs.Prelude.{◌≡◌, ◌+◌, ◌-◌, ◌<◌, ◌≤◌, ◌^◌, ℕ, List, length, max, IsTrue};
ghost use Rattle.std.specs.Option.{option_copied, option_map_or};
ghost use Rattle.hac_model.specs.Tree.Limits.{counts, file_bytes};
ghost use Rattle.hac_model.specs.Tree.{empty, is_dirty, is_file};
ghost use Rattle.hac_model.specs.Query.Formula.{Formula};
ghost use Rattle.hac_model.specs.declared.states.Answer.{Answer};
ghost use Rattle.hac_model.specs.declared.states.Body.{Body};
ghost use Rattle.entry_counts.specs.Counting.{AreSmall, one_if, plus, share_of};

use hac_model::{Counts, DOCS_LIMIT};

const NOTHING: Counts = Counts {
    bytes: 0,
    directories: 0,
    semantics: 0,
    mounts: 0,
    symlinks: 0,
    files: 0,
    items: 0,
    dirty: 0,
    long_paths: 0,
    next: 0,
};

/// The counts of the root alone, which is a directory. The number 1 is next.
pub fn of_root() -> Counts
    ensures { result ≡ counts empty }
{
    Counts {
        directories: 1,
        next: 1,
        ..NOTHING
    }
}

/// What a plain directory counts for.
pub fn of_directory() -> Counts
    ensures share { result ≡ share_of Body.Dir }
    ensures small { AreSmall result }
{
    Counts {
        directories: 1,
        ..NOTHING
    }
}

/// What a semantic directory counts for, which is a directory too. Neither its query nor its marks
/// count.
pub fn of_semantic() -> Counts
    ensures share { (query : Formula ℕ) (permanent prohibited : List ℕ) →
        result ≡ share_of (Body.Semantic query permanent prohibited) }
    ensures small { AreSmall result }
{
    Counts {
        directories: 1,
        semantics: 1,
        ..NOTHING
    }
}

/// What a mount counts for, which is a directory too. Its documents count for themselves, and the
/// answers that it keeps for nothing.
pub fn of_mount() -> Counts
    ensures share { (space : List ℕ) (answers : List Answer) →
        result ≡ share_of (Body.Mount space answers) }
    ensures small { AreSmall result }
{
    Counts {
        directories: 1,
        mounts: 1,
        ..NOTHING
    }
}

/// What a new mount and its documents count for, which take numbers. The mount's path may be too
/// long.
pub fn of_mount_with(count: u64, is_long: bool) -> Counts
    requires { count ≤ DOCS_LIMIT }
    ensures counts { (space : List ℕ) (answers : List Answer) →
        result ≡ record (share_of (Body.Mount space answers)) {
          items = count;
          long_paths = one_if is_long;
          next = 1 + count;
        } }
    ensures small { AreSmall result }
{
    Counts {
        items: count,
        next: 1 + count,
        ..as_new(of_mount(), is_long)
    }
}

/// What a document counts for: an item without a text.
pub fn of_document() -> Counts
    ensures share { result ≡ share_of Body.Document }
    ensures small { AreSmall result }
{
    Counts {
        items: 1,
        ..NOTHING
    }
}

/// What a symbolic link counts for, which is no item.
pub fn of_symlink() -> Counts
    ensures share { (target : List ℕ) → result ≡ share_of (Body.Symlink target) }
    ensures small { AreSmall result }
{
    Counts {
        symlinks: 1,
        ..NOTHING
    }
}

/// The bytes that a file keeps whose text has so many: those of the text that is shown, where that
/// is longer.
pub fn kept_bytes(bytes: u64, shown: Option<&[u8]>) -> u64
    requires { bytes < 2 ^ 63 }
    ensures file_bytes { result ≡ max bytes (option_map_or (λ shown. length shown)
        (option_copied shown.entry) 0) }
    ensures small { result < 2 ^ 63 }
{
    match shown {
        Some(text) => bytes.max(text.len() as u64),
        None => bytes,
    }
}

/// What a file counts for, which is an item, given the bytes that it keeps.
pub fn of_file(bytes: u64, dirty: bool) -> Counts
    requires { bytes < 2 ^ 63 }
    ensures share { (body : Body) → IsTrue (is_file body) → file_bytes body ≡ bytes →
        is_dirty body ≡ dirty → result ≡ share_of body }
    ensures small { AreSmall result }
{
    Counts {
        bytes,
        files: 1,
        items: 1,
        dirty: u64::from(dirty),
        ..NOTHING
    }
}

/// What a new entry counts for, which takes a number. Its path may be too long: `long_paths` tells
/// whether any is, not how many are.
pub fn as_new(share: Counts, is_long: bool) -> Counts
    requires { AreSmall share }
    ensures counts { result ≡ record share { long_paths = one_if is_long; next = 1 } }
    ensures small { AreSmall result }
{
    Counts {
        long_paths: u64::from(is_long),
        next: 1,
        ..share
    }
}

/// The counts once a mount has `new` documents in place of `old` ones, of which `fresh` take
/// numbers. The others keep theirs.
pub fn synced(counts: Counts, old: u64, new: u64, fresh: u64) -> Counts
    requires small { AreSmall counts }
    requires new_few { new ≤ DOCS_LIMIT }
    requires fresh_few { fresh ≤ new }
    requires there { old ≤ counts.items }
    ensures { result ≡ record counts {
      items = counts.items - old + new;
      next = counts.next + fresh;
    } }
{
    Counts {
        items: counts.items - old + new,
        next: counts.next + fresh,
        ..counts
    }
}

/// The counts, given whether some path is too long.
pub fn with_long_paths(counts: Counts, is_long: bool) -> Counts
    ensures { result ≡ record counts { long_paths = one_if is_long } }
{
    Counts {
        long_paths: u64::from(is_long),
        ..counts
    }
}

/// Both together, as when an entry comes.
pub fn plus(counts: Counts, more: Counts) -> Counts
    requires small { AreSmall counts }
    requires more_small { AreSmall more }
    ensures { result ≡ plus counts more }
{
    Counts {
        bytes: counts.bytes + more.bytes,
        directories: counts.directories + more.directories,
        semantics: counts.semantics + more.semantics,
        mounts: counts.mounts + more.mounts,
        symlinks: counts.symlinks + more.symlinks,
        files: counts.files + more.files,
        items: counts.items + more.items,
        dirty: counts.dirty + more.dirty,
        long_paths: counts.long_paths + more.long_paths,
        next: counts.next + more.next,
    }
}

/// What is left when a part goes, as when an entry is removed.
pub fn minus(counts: Counts, part: Counts) -> Counts
    requires { (rest : Counts) × (counts ≡ plus rest part) }
    ensures { plus result part ≡ counts }
{
    Counts {
        bytes: counts.bytes - part.bytes,
        directories: counts.directories - part.directories,
        semantics: counts.semantics - part.semantics,
        mounts: counts.mounts - part.mounts,
        symlinks: counts.symlinks - part.symlinks,
        files: counts.files - part.files,
        items: counts.items - part.items,
        dirty: counts.dirty - part.dirty,
        long_paths: counts.long_paths - part.long_paths,
        next: counts.next - part.next,
    }
}

/// The counts with one part replaced, as when a file gets another text.
pub fn replaced(counts: Counts, old: Counts, new: Counts) -> Counts
    requires small { AreSmall counts }
    requires new_small { AreSmall new }
    requires part { (rest : Counts) × (counts ≡ plus rest old) }
    ensures { plus result old ≡ plus counts new }
{
    minus(plus(counts, new), old)
}
