//! Answering: what a line changes is stored, then its reply is written and flushed, and behind it
//! the index steps are stored that follow each command by themselves.
ghost use Rattle.std.specs.Prelude.{◌≡◌, ◌||◌, ◌+◌, ◌≤◌, ◌∷◌, [], IfErr, OnErr, OnOk};
ghost use Rattle.std.specs.Io.KnownBytes.{Appends};
ghost use Rattle.hac_outside.specs.Causes.{HasCause};
ghost use Rattle.hac_outside.specs.Seen.{WritesSome};
ghost use Rattle.hac_model.specs.Run.Play.{is_refused, steps_behind};
ghost use Rattle.hac_model.specs.Script.Lines.{item_taken};
ghost use Rattle.hac_model.specs.Script.Printed.{text};
ghost use Rattle.hac_model.specs.Tree.Costs.{costs};
ghost use Rattle.hac_top.specs.Storing.{AnswersItems, AnswersLine, IsUsable, StopsAnswer};
ghost use Rattle.hac_top.specs.TakenLines.{items_of_taken};
ghost use Rattle.hac_top.specs.Replies.{StopsWriting, WritesAll};
ghost use Rattle.hac_top.specs.Ticking.{told_turn};

use crate::status::{Status, store_status};
use crate::storing::store_line;
use crate::taking::TakenLine;
use crate::ticking::tick;
use hac_disk::Disk;
use hac_model::{LimitWord, Refusal, Reply, Taken, Text};
use hac_outside::{Failed, Sink, Steps, write_all};
use hac_store::Store;
use line_reader::Piece;
use sem_mounts::Spaces;
use shell_lang::print_reply;
use std::alloc::Global;
use std::sync::ledger::Ledger;

/// What a run knows between two lines.
#[derive(Drop)]
pub struct Player {
    pub alloc: Global,
    /// The tree that the commands so far have left, in its store.
    pub store: Store,
    /// The most index steps that follow each command by themselves.
    pub tick: u64,
    /// Some command so far was refused.
    pub refused: bool,
}

impl Player {
    /// Answers a line of the script, with the bytes that belong to it. What it changes is in the
    /// store before anything of its reply is written, and no step follows before its reply was
    /// written and flushed.
    pub fn answer<K: Sink, D: Disk, P: Spaces, L: Ledger>(
        &mut self,
        output: &mut K,
        disk: &mut D,
        spaces: &mut P,
        line: TakenLine,
        probes: &mut Steps<L>,
    ) -> Result<(), Status>
        requires { IsUsable (D.seen disk.old) self.old.store }
        ensures tick { self.new.tick ≡ self.old.tick }
        ensures answers { AnswersItems (D.seen disk.old) (D.seen disk.new)
            (P.seen spaces.old) (P.seen spaces.new) self.old.tick self.old.store self.new.store
            (K.seen output.old) (K.seen output.new)
            (items_of_taken line) self.old.refused self.new.refused probes.old probes.new result }
    {
        let TakenLine { piece, taken } = line;
        match piece {
            Piece::Bytes(line) => self.answer_line(output, disk, spaces, line, taken, probes),
            Piece::LongLine => self.tell(
                output,
                disk,
                Reply::Refused(Refusal::Limit(LimitWord::Line)),
                probes,
            ),
            Piece::Blank | Piece::End => Ok(()),
        }
    }

    // Answers a line that spells a command.
    fn answer_line<K: Sink, D: Disk, P: Spaces, L: Ledger>(
        &mut self,
        output: &mut K,
        disk: &mut D,
        spaces: &mut P,
        line: Text,
        taken: Option<Taken>,
        probes: &mut Steps<L>,
    ) -> Result<(), Status>
        requires { IsUsable (D.seen disk.old) self.old.store }
        ensures tick { self.new.tick ≡ self.old.tick }
        ensures answers { AnswersItems (D.seen disk.old) (D.seen disk.new)
            (P.seen spaces.old) (P.seen spaces.new) self.old.tick self.old.store self.new.store
            (K.seen output.old) (K.seen output.new)
            (item_taken line taken ∷ []) self.old.refused self.new.refused
            probes.old probes.new result }
    {
        let reply = store_line(
            self.alloc,
            &mut self.store,
            disk,
            spaces,
            line,
            taken,
            probes,
        )?;
        self.tell(output, disk, reply, probes)
    }

    // Gives a reply, and behind it lets the index steps follow that do so by themselves.
    fn tell<K: Sink, D: Disk, L: Ledger>(
        &mut self,
        output: &mut K,
        disk: &mut D,
        reply: Reply,
        probes: &mut Steps<L>,
    ) -> Result<(), Status>
        requires { IsUsable (D.seen disk.old) self.old.store }
        ensures tick { self.new.tick ≡ self.old.tick }
        ensures refused { OnOk result (self.new.refused ≡ (self.old.refused || is_refused reply)) }
        ensures ok { OnOk result (AnswersLine (D.seen disk.old) (D.seen disk.new)
            self.old.store self.new.store (K.seen output.old) (K.seen output.new)
            (told_turn self.old.tick self.old.store.setting reply ∷ [])) }
        ensures err { IfErr result (StopsAnswer (D.seen disk.old) (D.seen disk.new)
            self.old.store.setting (K.seen output.old) (K.seen output.new)
            (told_turn self.old.tick self.old.store.setting reply ∷ [])) }
        ensures probes { probes.new ≤ probes.old + costs self.old.store.setting.state
            (steps_behind self.old.tick self.old.store.setting) }
    {
        self.write_reply(output, reply)?;
        match tick(&mut self.store, disk, self.tick, probes) {
            Ok(()) => Ok(()),
            Err(fault) => Err(store_status(fault)),
        }
    }

    /// Writes a reply, and flushes it.
    pub(crate) fn write_reply<K: Sink>(
        &mut self,
        output: &mut K,
        reply: Reply,
    ) -> Result<(), Status>
        ensures store { self.new.store ≡ self.old.store }
        ensures tick { self.new.tick ≡ self.old.tick }
        ensures refused { OnOk result (self.new.refused ≡ (self.old.refused || is_refused reply)) }
        ensures ok { OnOk result (WritesAll (K.seen output.old) (K.seen output.new)
            (text (reply ∷ []))) }
        ensures err { IfErr result (λ status. StopsWriting status (K.seen output.old)
            (K.seen output.new) (text (reply ∷ []))) }
    {
        let bytes = print_reply(self.alloc, &reply);
        self.refused = self.refused | is_refused(&reply);
        drop(reply);
        match write_now(output, &bytes?) {
            Ok(()) => Ok(()),
            Err(Failed) => Err(Status::WriteFault),
        }
    }
}

fn is_refused(reply: &Reply) -> bool
    ensures { result ≡ is_refused reply.now }
{
    match reply {
        Reply::Lines(_) => false,
        Reply::Refused(_) => true,
    }
}

/// Writes bytes and flushes them, so that their reader has them before anything else is done.
pub fn write_now<K: Sink>(output: &mut K, bytes: &[u8]) -> Result<(), Failed>
    ensures ok { OnOk result (Appends (K.seen output.old).written
        (K.seen output.new).written bytes.now) }
    ensures passed { OnOk result ((K.seen output.new).held_back ≡ 0) }
    ensures err { OnErr result (WritesSome (K.seen output.old) (K.seen output.new) bytes.now) }
    ensures cause { HasCause (K.seen output.old).faults (K.seen output.new).faults result }
{
    write_all(output, bytes)?;
    output.flush()
}
