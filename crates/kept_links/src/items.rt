//! The items that are judged again after an event: those that it touches, and the others, of which
//! it may change the links at one directory and at what depends on that one.
ghost use Rattle.std.specs.Prelude.{◌≡◌, ◌==◌, ◌&&◌, ◌||◌, ◌++◌, ◌∷◌, [], ℕ, None, Some, false};
ghost use Rattle.std.specs.Prelude.{IfOk, IsTrue, OnOk, if◌then◌else◌};
ghost use Rattle.std.specs.Option.{option_map_or};
ghost use Rattle.hac_model.specs.Tree.{is_directory_at, is_live};
ghost use Rattle.hac_model.specs.Tree.Events.{apply, is_inside, next_dirty};
ghost use Rattle.hac_model.specs.Tree.Links.{is_item, is_semantic};
ghost use Rattle.hac_model.specs.Tree.Mounting.{is_document_of};
ghost use Rattle.hac_model.specs.Tree.Touched.{begins, is_the, touched, touches};
ghost use Rattle.kept_links.specs.Items.{is_other, is_passed_over, numbers_around, others};
ghost use Rattle.kept_links.specs.Items.{reach_of};
ghost use Rattle.kept_links.specs.Transition.{IsTransition, before, event_of};

use crate::transition::Transition;
use hac_model::{Event, Mark, Memory, Number};
use kept_lookups::{
    is_directory, is_document, is_inside, is_item, is_semantic, next_dirty, next_number, parent_of,
};
use kept_state::KeptState;
use reeval::Layout;
use std::alloc::Global;

/// The items that an event may touch.
pub(crate) enum Reach {
    /// It touches none.
    Nothing,
    /// It touches none but this one.
    One(Number),
    /// It may touch any.
    Any,
}

/// The items that the event may touch.
fn reach_of(kept: &KeptState, event: &Event) -> Reach
    ensures { result ≡ reach_of kept.now.state event.now }
{
    match event {
        Event::NewFile { .. } => Reach::One(next_number(kept)),
        Event::Rm { entry } => Reach::One(*entry),
        Event::Mv { entry, .. } => reach_of_move(kept, *entry),
        Event::Mark(mark) => Reach::One(mark.item),
        Event::Step => reach_of_step(kept),
        Event::Smount { .. } | Event::Ssync { .. } | Event::Sumount { .. } => Reach::Any,
        _ => Reach::Nothing,
    }
}

/// The items that may move with an entry: all that are below a directory.
fn reach_of_move(kept: &KeptState, entry: Number) -> Reach
    ensures { result ≡
        if is_directory_at kept.now.state.entries entry then Reach.Any else Reach.One entry }
{
    if is_directory(kept, entry) {
        Reach::Any
    } else {
        Reach::One(entry)
    }
}

/// The file that the next step indexes.
fn reach_of_step(kept: &KeptState) -> Reach
    ensures { result ≡ option_map_or (λ file. Reach.One file)
        (next_dirty kept.now.state.entries) Reach.Nothing }
{
    match next_dirty(kept) {
        Some(file) => Reach::One(file),
        None => Reach::Nothing,
    }
}

impl Transition<'_> {
    /// The items that the event touches, in order of number.
    pub(crate) fn touched_items(&self, alloc: Global) -> Result<Vec<Number>, Memory>
        requires { IsTransition self.now }
        ensures { IfOk result
            (λ items. items.items ≡ touched (before self.now) (event_of self.now)) }
    {
        self.before.know_valid();
        match reach_of(self.before, self.event) {
            Reach::Nothing => Ok(Vec::new(alloc)),
            Reach::One(item) => self.touched_of_one(alloc, item),
            Reach::Any => self.touched_of_all(alloc),
        }
    }

    /// The same of an event that touches no more than one item. It goes over no others.
    fn touched_of_one(&self, alloc: Global, item: Number) -> Result<Vec<Number>, Memory>
        requires transition { IsTransition self.now }
        requires reach { reach_of (before self.now) (event_of self.now) ≡ Reach.One item }
        ensures { IfOk result
            (λ items. items.items ≡ touched (before self.now) (event_of self.now)) }
    {
        self.before.know_valid();
        let mut items = Vec::new(alloc);
        if self.after.next_number() <= item {
            return Ok(items);
        }
        self.push_touched(&mut items, item)?;
        Ok(items)
    }

    /// The same of an event that may touch any item.
    fn touched_of_all(&self, alloc: Global) -> Result<Vec<Number>, Memory>
        requires transition { IsTransition self.now }
        requires reach { reach_of (before self.now) (event_of self.now) ≡ Reach.Any }
        ensures { IfOk result
            (λ items. items.items ≡ touched (before self.now) (event_of self.now)) }
    {
        self.before.know_valid();
        let mut items = Vec::new(alloc);
        for number in self.numbers_around(alloc)? {
            self.push_touched(&mut items, number)?;
        }
        Ok(items)
    }

    /// The numbers of the entries, and those that the event gives, in order.
    fn numbers_around(&self, alloc: Global) -> Result<Vec<Number>, Memory>
        requires { IsTransition self.now }
        ensures { IfOk result (λ numbers. numbers.items
            ≡ numbers_around (before self.now) (apply (before self.now) (event_of self.now))) }
    {
        let mut numbers = self.before.numbers(alloc)?;
        for number in next_number(self.before).get()..self.after.next_number().get() {
            numbers.push(Number::new(number))?;
        }
        Ok(numbers)
    }

    /// Adds an item to others, if the event touches it.
    fn push_touched(&self, items: &mut Vec<Number>, item: Number) -> Result<(), Memory>
        requires { IsTransition self.now }
        ensures { OnOk result (items.new.items ≡ items.old.items
            ++ (if touches (before self.now) (event_of self.now) item then item ∷ [] else [])) }
    {
        if self.touches(item) {
            items.push(item)?;
        }
        Ok(())
    }

    /// The items that the event neither touches nor passes over, in order of number.
    pub(crate) fn other_items(&self, alloc: Global) -> Result<Vec<Number>, Memory>
        requires { IsTransition self.now }
        ensures { IfOk result
            (λ items. items.items ≡ others (before self.now) (event_of self.now)) }
    {
        self.before.know_valid();
        let mut items = Vec::new(alloc);
        for number in self.numbers_around(alloc)? {
            self.push_other(&mut items, number)?;
        }
        Ok(items)
    }

    /// Adds an item to others, if the event neither touches it nor passes it over.
    fn push_other(&self, items: &mut Vec<Number>, item: Number) -> Result<(), Memory>
        requires { IsTransition self.now }
        ensures { OnOk result (items.new.items ≡ items.old.items
            ++ (if is_other (before self.now) (event_of self.now) item then item ∷ [] else [])) }
    {
        if self.is_other(item) {
            items.push(item)?;
        }
        Ok(())
    }

    /// Whether the number is that of an item that the event neither touches nor passes over.
    fn is_other(&self, item: Number) -> bool
        requires { IsTransition self.now }
        ensures { result ≡ is_other (before self.now) (event_of self.now) item }
    {
        self.after.is_item(item) && !self.touches(item) && !self.is_passed_over(item)
    }

    /// Whether the event makes a directory, and no query judges the item.
    fn is_passed_over(&self, item: Number) -> bool
        requires { IsTransition self.now }
        ensures { result ≡ is_passed_over (before self.now) (event_of self.now) item }
    {
        match self.event {
            Event::Smkdir { .. } => !self.after.is_judged(item),
            _ => false,
        }
    }

    /// Whether the event touches the item of a number.
    fn touches(&self, item: Number) -> bool
        requires { IsTransition self.now }
        ensures { result ≡ touches (before self.now) (event_of self.now) item }
    {
        match self.event {
            Event::NewFile { .. } => item == next_number(self.before),
            Event::Rm { entry } => is_removed(self.before, *entry, item),
            Event::Mv { entry, .. } => is_moved(self.before, *entry, item),
            Event::Mark(mark) => is_marked(self.before, mark, item),
            Event::Step => is_stepped(self.before, item),
            Event::Smount { .. } => self.is_mounted(item),
            Event::Ssync { mount, .. } => self.is_synced(*mount, item),
            Event::Sumount { mount } => is_document_of(self.before, *mount, item),
            _ => false,
        }
    }

    /// Whether the number will be that of a document of a mount that comes.
    fn is_mounted(&self, item: Number) -> bool
        ensures { result ≡ is_document_of self.now.after.now (before self.now).next item }
    {
        self.after.is_document_of(next_number(self.before), item)
    }

    /// Whether a document of a mount has the number, or will have it.
    fn is_synced(&self, mount: Number, item: Number) -> bool
        ensures { result ≡
            (is_document_of (before self.now) mount item
            || is_document_of self.now.after.now mount item) }
    {
        is_document_of(self.before, mount, item) || self.after.is_document_of(mount, item)
    }
}

/// Whether an item is an entry that moves, or below it.
fn is_moved(kept: &KeptState, entry: Number, item: Number) -> bool
    requires { IsTrue (is_live kept.now.state.entries entry) }
    ensures { result ≡ (is_item kept.now.state item && is_inside kept.now.state item entry) }
{
    is_item(kept, item) && is_inside(kept, item, entry)
}

/// Whether an item has the number of an entry that is removed. A symbolic link is none.
fn is_removed(kept: &KeptState, entry: Number, item: Number) -> bool
    ensures { result ≡ (item == entry && is_item kept.now.state item) }
{
    item == entry && is_item(kept, item)
}

/// Whether the mark is one of an item, which has the number.
fn is_marked(kept: &KeptState, mark: &Mark, item: Number) -> bool
    ensures { result ≡ (item == mark.now.item && is_item kept.now.state item) }
{
    item == mark.item && is_item(kept, item)
}

/// Whether the next step indexes the file of the number.
fn is_stepped(kept: &KeptState, item: Number) -> bool
    ensures { result ≡
        option_map_or (λ file. item == file) (next_dirty kept.now.state.entries) false }
{
    match next_dirty(kept) {
        Some(file) => item == file,
        None => false,
    }
}

/// Whether a document of a mount has the number.
fn is_document_of(kept: &KeptState, mount: Number, item: Number) -> bool
    ensures { result ≡ is_document_of kept.now.state mount item }
{
    is_document(kept, item) && parent_of(kept, item) == mount
}

/// The directory at which judging begins of the items that the event doesn't touch, if it changes
/// their links anywhere.
pub(crate) fn begin(kept: &KeptState, event: &Event) -> Option<Number>
    ensures { (dir : ℕ) → begins kept.now.state event.now dir ≡ is_the result dir }
{
    match event {
        Event::Smkdir { .. } => Some(next_number(kept)),
        Event::Setq { dir, .. } => Some(*dir),
        Event::Unq { dir } => Some(*dir),
        Event::Mv { entry, .. } => begin_of_move(kept, *entry),
        Event::Mark(mark) => begin_of_mark(kept, mark),
        Event::Rmdir { dir } => Some(*dir),
        _ => None,
    }
}

/// The directory that moves, if it has a query.
fn begin_of_move(kept: &KeptState, entry: Number) -> Option<Number>
    ensures { result ≡ if is_semantic kept.now.state entry then Some entry else None }
{
    if is_semantic(kept, entry) {
        Some(entry)
    } else {
        None
    }
}

/// The directory to which another is added, or from which it is taken.
fn begin_of_mark(kept: &KeptState, mark: &Mark) -> Option<Number>
    ensures { result ≡
        if is_item kept.now.state mark.now.item then None else Some mark.now.dir }
{
    if is_item(kept, mark.item) {
        None
    } else {
        Some(mark.dir)
    }
}
