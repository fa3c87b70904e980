//! Whether mounts keep no more than they may after an event. It changes nothing.
ghost use Rattle.std.specs.Prelude.{◌≡◌, IfOk, IsTrue};
ghost use Rattle.hac_model.specs.Tree.Events.{apply, is_placed};
ghost use Rattle.hac_model.specs.Tree.Limits.{are_answers_few};
ghost use Rattle.kept_facts.specs.Room.{AreKept, IsRoom, are_few_then};
ghost use Rattle.kept_state.specs.Parts.{IsLinked, state_of};

use crate::parts::Parts;
use hac_model::{ANSWERS_LIMIT, Answer, Event, Memory, Number, PAIRS_LIMIT, Seq};
use kept_facts::Room;
use std::alloc::Global;

/// Whether mounts keep no more answers after an event than they may. What is kept is looked at only
/// where something was told.
pub fn keeps_few_after(alloc: Global, kept: &Parts, event: &Event) -> Result<bool, Memory>
    requires linked { IsLinked kept.now }
    requires placed { IsTrue (is_placed (state_of kept.now) event.now) }
    ensures { IfOk result (λ few. few
        ≡ are_answers_few (apply (state_of kept.now) event.now).entries) }
{
    match event {
        Event::Smkdir { told, .. } => has_room(alloc, kept, &[], told.as_slice()),
        Event::Setq { told, .. } => has_room(alloc, kept, &[], told.as_slice()),
        Event::Smount { told, .. } => has_room(alloc, kept, &[], told.as_slice()),
        Event::Ssync { mount, told, .. } => {
            has_room(alloc, kept, kept.answers.kept_by(*mount), told.as_slice())
        }
        _ => Ok(true),
    }
}

/// Whether mounts keep no more than they may once these answers are gone and what was told is kept.
fn has_room(
    alloc: Global,
    kept: &Parts,
    gone: &[Answer],
    told: &[Seq<Number>],
) -> Result<bool, Memory>
    requires linked { IsLinked kept.now }
    requires kept { AreKept (state_of kept.now).entries gone.now }
    ensures { IfOk result (λ has. has
        ≡ are_few_then (state_of kept.now).entries gone.now told.now) }
{
    if told.is_empty() {
        return Ok(true);
    }
    let room = room_in(alloc, kept)?;
    Ok(room.with(gone).fits(told))
}

/// How much more mounts may keep.
fn room_in(alloc: Global, kept: &Parts) -> Result<Room, Memory>
    requires { IsLinked kept.now }
    ensures { IfOk result (IsRoom (state_of kept.now).entries) }
{
    let mut room = Room {
        documents: ANSWERS_LIMIT,
        answers: PAIRS_LIMIT,
    };
    'entries: for number in kept.tree.numbers(alloc)? {
        room = room.without(kept.answers.kept_by(number));
    }
    Ok(room)
}
