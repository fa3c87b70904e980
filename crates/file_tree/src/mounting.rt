//! Mounts with their documents: they come, take over what their spaces have now, and go. Memory is
//! taken beforehand.
ghost use Rattle.std.specs.Prelude.{◌≡◌, ◌<◌, ◌≤◌, ◌^◌, [], length, IsTrue, OnOk, OnErr};
ghost use Rattle.hac_model.specs.Tree.Mounting.{are_documents, do_names_rise, fresh, is_gone};
ghost use Rattle.hac_model.specs.Tree.Mounting.{is_of_mount, mounted, with_documents, without_such};
ghost use Rattle.hac_model.specs.Tree.{is_directory_at, is_mount_at};
ghost use Rattle.file_tree.specs.Changes.{GotReady, HasBecome, MayBecome};
ghost use Rattle.file_tree.specs.Documents.{numbers_for};

use crate::ready::{Ready, numbers_in};
use crate::tree::Tree;
use hac_model::{Counts, DOCS_LIMIT, Memory, Name, Number, Seq};
use std::mem;
use tiered_list::{Items, TieredList};
use tree_nodes::{
    Content, children_at, insert_named, list_numbers, parent_at, place_at, prepare_documents,
    prepare_nodes, put_unknown, take_dropped,
};

impl Tree {
    /// How many of the names a directory doesn't have.
    pub fn count_fresh(&self, dir: Number, names: &[Name]) -> u64
        ensures count { result ≡ length (fresh self.now.state dir names.now) }
        ensures few { result ≤ length names.now }
        ensures small { result < 2 ^ 63 }
    {
        let mut count = 0;
        for name in names {
            if self.child(dir, name).is_none() {
                count += 1;
            }
        }
        count
    }

    /// Prepares a mount with `count` documents in a directory. The state doesn't change, whatever
    /// the answer.
    pub fn prepare_mount(&mut self, dir: Number, count: u64) -> Result<(), Memory>
        requires dir { IsTrue (is_directory_at self.old.state.entries dir) }
        requires few { count ≤ DOCS_LIMIT }
        ensures ok { OnOk result (GotReady (Ready.Mount dir count) self.old self.new) }
        ensures err { OnErr result (GotReady Ready.Nothing self.old self.new) }
    {
        self.forget();
        prepare_documents(
            self.alloc,
            &mut self.nodes,
            &mut self.documents,
            self.next,
            count,
        )?;
        tree_nodes::reserve_child(&mut self.nodes, dir)?;
        self.ready = Ready::Mount { dir, count };
        Ok(())
    }

    /// Puts the mount that was prepared into its directory, under a name, with documents of these
    /// names. How much the state then holds is given.
    pub fn mount(
        &mut self,
        dir: Number,
        name: Name,
        space: Name,
        documents: Seq<Name>,
        counts: Counts,
    )
        requires ready { self.old.ready ≡ Ready.Mount dir (length documents) }
        requires rise { IsTrue (do_names_rise documents) }
        requires may { MayBecome (mounted self.old.state dir name space [] documents) counts }
        ensures { HasBecome (mounted self.old.state dir name space [] documents) self.new }
    {
        self.ready = Ready::Nothing;
        let mount = self.next;
        insert_named(&mut self.nodes, dir, name.as_bytes(), mount);
        tree_nodes::put(&mut self.nodes, mount, dir, name, Content::Mount { space });
        let first = Number::new(mount.get() + 1);
        self.next = put_unknown(
            &mut self.nodes,
            &Items::from_slice(&[]),
            mount,
            first,
            documents,
        );
        tree_nodes::put_children(&mut self.nodes, mount, &mut self.documents);
        self.counts = counts;
    }

    /// Prepares that a mount has documents of these names, and no others. The state doesn't change,
    /// whatever the answer.
    pub fn prepare_sync(&mut self, mount: Number, documents: &Seq<Name>) -> Result<(), Memory>
        requires mount { IsTrue (is_mount_at self.old.state.entries mount) }
        requires documents { IsTrue (are_documents documents.now) }
        ensures ok { OnOk result (GotReady (Ready.Sync mount
            (numbers_for self.old.state mount documents.now)) self.old self.new) }
        ensures err { OnErr result (GotReady Ready.Nothing self.old self.new) }
    {
        self.forget();
        let first = self.next.get();
        let known = children_at(&self.nodes, mount);
        let mut numbers = Vec::new(self.alloc);
        let end = list_numbers(
            &self.nodes,
            &known,
            first,
            documents.as_slice(),
            &mut numbers,
        )?;
        prepare_nodes(self.alloc, &mut self.nodes, first, end)?;
        let numbers = Seq::new(numbers);
        self.ready = Ready::Sync { mount, numbers };
        Ok(())
    }

    /// Gives a mount the documents of these names. Those that it has keep their numbers, and those
    /// whose names aren't among these go. How much the state then holds is given.
    pub fn sync(&mut self, mount: Number, documents: Seq<Name>, counts: Counts)
        requires ready { self.old.ready ≡
            Ready.Sync mount (numbers_for self.old.state mount documents) }
        requires mount { IsTrue (is_mount_at self.old.state.entries mount) }
        requires rise { IsTrue (do_names_rise documents) }
        requires may { MayBecome (with_documents (without_such (is_gone mount documents)
            self.old.state) mount (fresh self.old.state mount documents)) counts }
        ensures { HasBecome (with_documents (without_such (is_gone mount documents) self.old.state)
            mount (fresh self.old.state mount documents)) self.new }
    {
        let ready = mem::replace(&mut self.ready, Ready::Nothing);
        let mut numbers = TieredList::from_vec(self.alloc, numbers_in(self.alloc, ready));
        let mut known = TieredList::new(self.alloc);
        tree_nodes::put_children(&mut self.nodes, mount, &mut known);
        self.next = put_unknown(&mut self.nodes, &known.items(), mount, self.next, documents);
        take_dropped(&mut self.nodes, &known.items(), &numbers.items());
        tree_nodes::put_children(&mut self.nodes, mount, &mut numbers);
        self.counts = counts;
    }

    /// Removes a mount with its documents. How much the state then holds is given.
    pub fn unmount(&mut self, mount: Number, counts: Counts)
        requires mount { IsTrue (is_mount_at self.old.state.entries mount) }
        requires may { MayBecome (without_such (is_of_mount mount) self.old.state) counts }
        ensures { HasBecome (without_such (is_of_mount mount) self.old.state) self.new }
    {
        self.forget();
        let parent = parent_at(&self.nodes, mount);
        let place = place_at(&self.nodes, parent, mount);
        tree_nodes::drop_child(&mut self.nodes, parent, place);
        let mut documents = TieredList::new(self.alloc);
        tree_nodes::put_children(&mut self.nodes, mount, &mut documents);
        take_dropped(&mut self.nodes, &documents.items(), &Items::from_slice(&[]));
        tree_nodes::take_out(&mut self.nodes, mount);
        self.counts = counts;
    }
}
