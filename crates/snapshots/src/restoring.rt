//! The state that a snapshot tells: the documents are among the entries again, all in order.
ghost use Rattle.std.specs.Prelude.{◌≡◌, ◌++◌, IfOk, OnOk, flat_map};
ghost use Rattle.hac_model.specs.Payload.States.{by_number, entries_in, restored};

use hac_model::{Body, Entry, Memory, Seq, Snapshot, State, StoredEntry};
use std::alloc::Global;

/// The state that a snapshot tells, which may be one that can't be. The texts are moved, not
/// copied.
pub(crate) fn restored(alloc: Global, snapshot: Snapshot) -> Result<State, Memory>
    ensures { IfOk result (λ state. state ≡ restored snapshot) }
{
    let Snapshot {
        version,
        next,
        entries,
    } = snapshot;
    let entries = in_order(all_entries(alloc, entries)?)?;
    Ok(State {
        version,
        next,
        entries: Seq::new(entries),
        sessions: Seq::new(Vec::new(alloc)),
    })
}

/// The entries, each with the documents that are listed with it behind it.
fn all_entries(alloc: Global, stored: Seq<StoredEntry>) -> Result<Vec<Entry>, Memory>
    ensures { IfOk result (λ entries. entries.items ≡ flat_map entries_in stored) }
{
    let mut entries = Vec::new(alloc);
    for entry in stored.into_vec() {
        push_entries(&mut entries, entry)?;
    }
    Ok(entries)
}

/// Puts an entry and the documents that are listed with it behind the others.
fn push_entries(entries: &mut Vec<Entry>, stored: StoredEntry) -> Result<(), Memory>
    ensures { OnOk result (entries.new.items ≡ entries.old.items ++ entries_in stored) }
{
    let StoredEntry { entry, documents } = stored;
    let parent = entry.number;
    entries.push(entry)?;
    for document in documents.into_vec() {
        entries.push(Entry {
            number: document.number,
            parent,
            name: document.name,
            body: Body::Document,
        })?;
    }
    Ok(())
}

/// The entries in order of their numbers. Those that have one number stay as they stand.
fn in_order(mut entries: Vec<Entry>) -> Result<Vec<Entry>, Memory>
    ensures { IfOk result (λ ordered. ordered.items ≡ by_number entries.items) }
{
    entries.sort_by_key(|entry| entry.number)?;
    Ok(entries)
}
