//! Changes of the tree. Those that may want memory are prepared, and no change itself takes any.
ghost use Rattle.std.specs.Prelude.{◌≡◌, ◌&&◌, ◌||◌, not, ℕ, Some, OnOk, OnErr, IsSome, IsTrue};
ghost use Rattle.std.specs.BTreeSet.{contains};
ghost use Rattle.std.specs.Ordering.{nat_cmp};
ghost use Rattle.hac_model.specs.Tree.Events.{added, apply, asking, changed_at, edited, indexed};
ghost use Rattle.hac_model.specs.Tree.Events.{plain_body, removed, reseated, rewritten};
ghost use Rattle.hac_model.specs.Tree.Limits.{counts};
ghost use Rattle.hac_model.specs.Tree.{entry_at, is_directory_at, is_file_at};
ghost use Rattle.hac_model.specs.Script.PathWords.{is_target, untested_word};
ghost use Rattle.file_tree.specs.Answers.{is_dirty_at};
ghost use Rattle.file_tree.specs.Bodies.{body_from};
ghost use Rattle.file_tree.specs.Changes.{GotReady, HasBecome, MayBecome};
ghost use Rattle.file_tree.specs.Ready.{is_number, is_to_index, ready_for};

use crate::bodies::{NewBody, new_content};
use crate::ready::{Ready, awaited, word_in};
use crate::tree::Tree;
use entry_counts::{kept_bytes, of_file, replaced};
use hac_model::{Counts, EntryKind, Event, Memory, Name, Number, Query, Text};
use std::collections::BTreeSet;
use std::mem;
use tree_nodes::{insert_named, parent_at, place_at, read_word};

impl Tree {
    /// Prepares a new entry of this kind in a directory. The state doesn't change, whatever the
    /// answer.
    pub fn prepare_add(&mut self, dir: Number, kind: EntryKind) -> Result<(), Memory>
        requires { IsTrue (is_directory_at self.old.state.entries dir) }
        ensures ok { OnOk result (GotReady (Ready.Add dir kind) self.old self.new) }
        ensures err { OnErr result (GotReady Ready.Nothing self.old self.new) }
    {
        self.forget();
        tree_nodes::prepare(self.alloc, &mut self.nodes, self.next)?;
        tree_nodes::reserve_child(&mut self.nodes, dir)?;
        let ready = Ready::Add { dir, kind };
        add_number(&mut self.to_index, awaited(self.next, &ready))?;
        self.ready = ready;
        Ok(())
    }

    /// Prepares a new symbolic link in a directory. The state doesn't change, whatever the answer.
    pub fn prepare_link(&mut self, dir: Number, target: &Text) -> Result<(), Memory>
        requires dir { IsTrue (is_directory_at self.old.state.entries dir) }
        requires target { IsTrue (is_target target.now) }
        ensures ok { OnOk result (GotReady (Ready.Link dir (untested_word target.now))
            self.old self.new) }
        ensures err { OnErr result (GotReady Ready.Nothing self.old self.new) }
    {
        self.forget();
        let word = read_word(self.alloc, target)?;
        tree_nodes::prepare(self.alloc, &mut self.nodes, self.next)?;
        tree_nodes::reserve_child(&mut self.nodes, dir)?;
        self.ready = Ready::Link { dir, word };
        Ok(())
    }

    /// Prepares to move an entry to a directory. The state doesn't change, whatever the answer.
    pub fn prepare_move(&mut self, dir: Number) -> Result<(), Memory>
        requires { IsTrue (is_directory_at self.old.state.entries dir) }
        ensures ok { OnOk result (GotReady (Ready.Move dir) self.old self.new) }
        ensures err { OnErr result (GotReady Ready.Nothing self.old self.new) }
    {
        self.forget();
        tree_nodes::reserve_child(&mut self.nodes, dir)?;
        self.ready = Ready::Move { dir };
        Ok(())
    }

    /// Prepares a new text of a file. The state doesn't change, whatever the answer.
    pub fn prepare_text(&mut self, file: Number) -> Result<(), Memory>
        ensures ok { OnOk result (GotReady (Ready.Text file) self.old self.new) }
        ensures err { OnErr result (GotReady Ready.Nothing self.old self.new) }
    {
        self.forget();
        add_number(&mut self.to_index, Some(file))?;
        self.ready = Ready::Text { file };
        Ok(())
    }

    /// Drops what was prepared.
    pub(crate) fn forget(&mut self)
        ensures { GotReady Ready.Nothing self.old self.new }
    {
        let stale = self.stale();
        drop_number(&mut self.to_index, stale);
        self.ready = Ready::Nothing;
    }

    /// The file that the prepared change would make dirty, where it isn't dirty yet.
    fn stale(&self) -> Option<Number>
        ensures { (n : ℕ) → (is_to_index self.now.state self.now.ready n &&
            not (is_number result n)) ≡ is_dirty_at self.now.state.entries n }
    {
        let file = awaited(self.next, &self.ready)?;
        if self.dirty(file) { None } else { Some(file) }
    }

    /// Adds the entry that was prepared to its directory, under a name. How much the state then
    /// holds is given.
    pub fn add(&mut self, dir: Number, name: Name, body: NewBody, counts: Counts)
        requires ready { self.old.ready ≡ ready_for dir body }
        requires may { MayBecome (added self.old.state dir name (body_from body)) counts }
        ensures { HasBecome (added self.old.state dir name (body_from body)) self.new }
    {
        let word = word_in(mem::replace(&mut self.ready, Ready::Nothing));
        let number = self.next;
        insert_named(&mut self.nodes, dir, name.as_bytes(), number);
        tree_nodes::put(&mut self.nodes, number, dir, name, new_content(body, word));
        self.next = Number::new(number.get() + 1);
        self.counts = counts;
    }

    /// Moves an entry to the directory that was prepared, with everything below it.
    pub fn move_to(&mut self, entry: Number, dir: Number, name: Name, counts: Counts)
        requires ready { self.old.ready ≡ Ready.Move dir }
        requires there { IsSome (entry_at self.old.state.entries entry) }
        requires may { MayBecome (changed_at self.old.state entry (reseated dir name)) counts }
        ensures { HasBecome (changed_at self.old.state entry (reseated dir name)) self.new }
    {
        self.ready = Ready::Nothing;
        let parent = parent_at(&self.nodes, entry);
        let place = place_at(&self.nodes, parent, entry);
        tree_nodes::drop_child(&mut self.nodes, parent, place);
        insert_named(&mut self.nodes, dir, name.as_bytes(), entry);
        tree_nodes::reseat(&mut self.nodes, entry, dir, name);
        self.counts = counts;
    }

    /// Removes an entry.
    pub fn remove(&mut self, entry: Number, counts: Counts)
        requires there { IsSome (entry_at self.old.state.entries entry) }
        requires may { MayBecome (removed self.old.state entry) counts }
        ensures { HasBecome (removed self.old.state entry) self.new }
    {
        self.forget();
        let parent = parent_at(&self.nodes, entry);
        let place = place_at(&self.nodes, parent, entry);
        tree_nodes::drop_child(&mut self.nodes, parent, place);
        tree_nodes::take_out(&mut self.nodes, entry);
        drop_number(&mut self.to_index, Some(entry));
        self.counts = counts;
    }

    /// Gives the file that was prepared another text. What was shown of the file stays shown.
    pub fn set_text(&mut self, file: Number, text: Text, counts: Counts)
        requires ready { self.old.ready ≡ Ready.Text file }
        requires file { IsTrue (is_file_at self.old.state.entries file) }
        requires may { MayBecome (changed_at self.old.state file (edited (rewritten text))) counts }
        ensures { HasBecome (changed_at self.old.state file (edited (rewritten text))) self.new }
    {
        self.ready = Ready::Nothing;
        tree_nodes::set_text(&mut self.nodes, file, text);
        self.counts = counts;
    }

    /// Gives a directory a query.
    pub fn set_query(&mut self, dir: Number, query: Query<Number>, counts: Counts)
        requires may { MayBecome (changed_at self.old.state dir (edited (asking query))) counts }
        ensures { HasBecome (changed_at self.old.state dir (edited (asking query))) self.new }
    {
        self.forget();
        tree_nodes::set_query(&mut self.nodes, dir, query);
        self.counts = counts;
    }

    /// Makes a semantic directory a plain one.
    pub fn clear_query(&mut self, dir: Number, counts: Counts)
        requires may { MayBecome (changed_at self.old.state dir (edited plain_body)) counts }
        ensures { HasBecome (changed_at self.old.state dir (edited plain_body)) self.new }
    {
        self.forget();
        tree_nodes::clear_query(&mut self.nodes, dir);
        self.counts = counts;
    }

    /// Indexes the dirty file of the least number, if a file is dirty.
    pub fn step(&mut self)
        ensures { HasBecome (apply self.old.state Event.Step) self.new }
    {
        self.forget();
        if let Some(file) = self.next_dirty() {
            let counts = self.counts_indexed(file);
            self.show(file, counts);
        }
    }

    /// How much the state will hold once a dirty file is indexed, which then keeps one text.
    pub fn counts_indexed(&self, file: Number) -> Counts
        requires { IsTrue (is_dirty_at self.now.state.entries file) }
        ensures { result ≡ counts (changed_at self.now.state file (edited indexed)) }
    {
        let bytes = self.text(file).len() as u64;
        let old = of_file(kept_bytes(bytes, self.shown(file)), true);
        replaced(self.counts(), old, of_file(bytes, false))
    }

    /// Shows the text of a file.
    fn show(&mut self, file: Number, counts: Counts)
        requires ready { self.old.ready ≡ Ready.Nothing }
        requires may { MayBecome (changed_at self.old.state file (edited indexed)) counts }
        ensures { HasBecome (changed_at self.old.state file (edited indexed)) self.new }
    {
        drop_number(&mut self.to_index, Some(file));
        tree_nodes::show_text(&mut self.nodes, file);
        self.counts = counts;
    }
}

/// Adds a number to a set, if there is one.
pub(crate) fn add_number(numbers: &mut BTreeSet<u64>, number: Option<Number>) -> Result<(), Memory>
    ensures ok { OnOk result ((n : ℕ) → contains nat_cmp numbers.new n ≡
        (contains nat_cmp numbers.old n || is_number number n)) }
    ensures err { OnErr result ((n : ℕ) → contains nat_cmp numbers.new n ≡
        contains nat_cmp numbers.old n) }
{
    if let Some(number) = number {
        numbers.insert(number.get())?;
    }
    Ok(())
}

/// Takes a number out of a set, if there is one.
fn drop_number(numbers: &mut BTreeSet<u64>, number: Option<Number>)
    ensures { (n : ℕ) → contains nat_cmp numbers.new n ≡
        (contains nat_cmp numbers.old n && not (is_number number n)) }
{
    if let Some(number) = number {
        numbers.remove(&number.get());
    }
}
