//! The tree as it will be after an event, told by the tree before it. Nothing changes, and no
//! memory is taken.
ghost use Rattle.std.specs.Prelude.{◌≡◌, ◌==◌, ◌&&◌, nat_le, nat_lt, IsTrue};
ghost use Rattle.std.specs.List.{list_any};
ghost use Rattle.std.specs.Option.{option_copied};
ghost use Rattle.hac_model.specs.Tree.Events.{apply};
ghost use Rattle.hac_model.specs.Tree.Links.{is_below, is_item, is_judged, parent_of, query_at};
ghost use Rattle.hac_model.specs.Tree.Links.{shown_of};
ghost use Rattle.hac_model.specs.Tree.{ancestors, is_directory_at, is_document_at, is_live};
ghost use Rattle.hac_model.specs.Tree.{is_made_directory};
ghost use Rattle.hac_model.specs.declared.states.State.{State};
ghost use Rattle.scope_rules.specs.After.{IsBefore, Tells};

use crate::arrivals::{
    is_new_directory, is_new_document, is_new_item, new_parent, new_query, next_after,
};
use crate::fates::{goes, left_parent, left_query, left_shown};
use file_tree::Tree;
use hac_model::{Event, Number, PATH_LIMIT, Query};

/// What the tree will be after an event. It tells so while the tree is still the one before it.
#[derive(Clone, Copy)]
pub struct Scope<'a> {
    /// The tree before the event.
    pub tree: &'a Tree,
    /// The event.
    pub event: &'a Event,
    // The number that the next entry will take.
    next: Number,
}

impl<'a> Scope<'a> {
    /// The tree after an event that a state with this tree accepts.
    pub fn new(tree: &'a Tree, event: &'a Event) -> Scope<'a>
        ensures tree { result.tree.now ≡ tree.now }
        ensures event { result.event.now ≡ event.now }
        ensures tells { (s : State) → IsBefore s tree.now.state event.now →
            Tells result (apply s event.now) }
    {
        Scope {
            tree,
            event,
            next: next_after(tree, event),
        }
    }

    /// The number that the next entry takes after the event.
    pub fn next_number(&self) -> Number
        ensures { (after : State) → Tells self.now after → result ≡ after.next }
    {
        self.next
    }

    /// Whether what can be linked will have the number: a file or a document.
    pub fn is_item(&self, number: Number) -> bool
        ensures { (after : State) → Tells self.now after → result ≡ is_item after number }
    {
        if self.is_new(number) {
            is_new_item(self.tree, self.event, number)
        } else {
            self.tree.is_item(number) && !goes(self.tree, self.event, number)
        }
    }

    /// Whether a document will have the number.
    pub fn is_document(&self, number: Number) -> bool
        ensures { (after : State) → Tells self.now after →
            result ≡ is_document_at after.entries number }
    {
        if self.is_new(number) {
            is_new_document(self.tree, self.event, number)
        } else {
            self.tree.is_document(number) && !goes(self.tree, self.event, number)
        }
    }

    /// The text of a file as it will have been indexed last: the one by which queries judge it. A
    /// new file has none.
    pub fn shown(&self, number: Number) -> Option<&'a [u8]>
        ensures { (after : State) → Tells self.now after →
            option_copied result ≡ shown_of after number }
    {
        if self.is_new(number) || goes(self.tree, self.event, number) {
            None
        } else {
            left_shown(self.tree, self.event, number)
        }
    }

    /// Whether queries will judge what has the number: a document, or a file that was indexed.
    pub fn is_judged(&self, number: Number) -> bool
        ensures { (after : State) → Tells self.now after → result ≡ is_judged after number }
    {
        self.is_document(number) || self.shown(number).is_some()
    }

    /// Whether a directory will have the number.
    pub fn is_directory(&self, number: Number) -> bool
        ensures { (after : State) → Tells self.now after →
            result ≡ is_directory_at after.entries number }
    {
        number == Number::ROOT || self.is_made_directory(number)
    }

    /// Whether an entry of the number will be a directory.
    fn is_made_directory(&self, number: Number) -> bool
        ensures { (after : State) → Tells self.now after →
            result ≡ is_made_directory after.entries number }
    {
        if self.is_new(number) {
            is_new_directory(self.tree, self.event, number)
        } else {
            self.tree.is_made_directory(number) && !goes(self.tree, self.event, number)
        }
    }

    /// The directory that an entry will be in. The root is in itself.
    pub fn parent(&self, number: Number) -> Number
        ensures { (after : State) → Tells self.now after → result ≡ parent_of after number }
    {
        if self.is_new(number) {
            new_parent(self.tree, self.event, number)
        } else if goes(self.tree, self.event, number) {
            Number::ROOT
        } else {
            left_parent(self.tree, self.event, number)
        }
    }

    /// The query that a directory will have.
    pub fn query(&self, number: Number) -> Option<&'a Query<Number>>
        ensures { (after : State) → Tells self.now after →
            option_copied result ≡ query_at after number }
    {
        if self.is_new(number) {
            new_query(self.event)
        } else if goes(self.tree, self.event, number) {
            None
        } else {
            left_query(self.tree, self.event, number)
        }
    }

    /// Whether an item will be stored below a directory, at any depth.
    pub fn is_below(&self, item: Number, dir: Number) -> bool
        ensures { (after : State) → Tells self.now after → result ≡ is_below after dir item }
    {
        self.is_item(item) && self.is_directory(dir) && self.leads_up(PATH_LIMIT + 1, item, dir)
    }

    /// Whether at most `steps` steps over parents will lead from an entry to a directory.
    fn leads_up(&self, steps: u64, entry: Number, dir: Number) -> bool
        ensures { (after : State) → Tells self.now after →
            IsTrue (is_live after.entries entry) → result ≡
            list_any (λ entry. entry.parent == dir) (ancestors steps after.entries entry) }
    {
        if steps == 0 || entry == Number::ROOT {
            return false;
        }
        let parent = self.parent(entry);
        parent == dir || self.leads_up(steps - 1, parent, dir)
    }

    /// Whether the event brings the entry of a number.
    fn is_new(&self, number: Number) -> bool
        ensures { result ≡
            (nat_le self.now.tree.now.state.next number && nat_lt number self.now.next) }
    {
        self.tree.next_number() <= number && number < self.next
    }
}
