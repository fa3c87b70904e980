//! Making: a script that is drawn from a number is played, and then what it left is told.
ghost use Rattle.std.specs.Prelude.{◌≡◌, ◌≤◌, false, IfOk, codes};
ghost use Rattle.hac_model.specs.Run.Given.{no_answers};
ghost use Rattle.hac_model.specs.Tree.Valid.{IsValid};
ghost use Rattle.hac_model.specs.declared.commands.Command.TheVariants as command;
ghost use Rattle.hac_model.specs.declared.replies.Deny.TheVariants as denied;
ghost use Rattle.hac_top.specs.Making.{MakesStore, PlaysMade, TellsLeft, counts_reply};
ghost use Rattle.hac_top.specs.Storing.{IsUsable};

use crate::answering::Player;
use crate::devices::{ScriptSource, Unwritten};
use crate::playing::{end_status, play_script};
use crate::status::Status;
use hac_core::Machine;
use hac_disk::Disk;
use hac_model::{Answers, Command, Deny, Line, Memory, Name, Reply, Seq};
use hac_outside::{Sink, Steps};
use script_maker::make_script;
use sem_mounts::Spaces;
use std::alloc::Global;
use std::sync::ledger::Ledger;

/// Plays the script of a number on a store that was opened, and then writes the reply to `counts`.
pub fn make_store<K: Sink, D: Disk, P: Spaces, L: Ledger>(
    mut player: Player,
    number: u64,
    output: &mut K,
    disk: &mut D,
    spaces: &mut P,
    probes: &mut Steps<L>,
) -> Status
    requires begun { player.refused ≡ false }
    requires usable { IsUsable (D.seen disk.old) player.store }
    ensures { MakesStore (D.seen disk.old) (D.seen disk.new) player.tick player.store.setting number
        (K.seen output.old) (K.seen output.new) (P.seen spaces.old) (P.seen spaces.new)
        probes.old probes.new result }
{
    let played = play_made(&mut player, number, disk, spaces, probes);
    let told = tell_counts(&mut player, output, played, probes);
    drop(player);
    end_status(told)
}

// Plays the script of a number to its end. None of its replies is kept.
fn play_made<D: Disk, P: Spaces, L: Ledger>(
    player: &mut Player,
    number: u64,
    disk: &mut D,
    spaces: &mut P,
    probes: &mut Steps<L>,
) -> Result<bool, Status>
    requires begun { player.old.refused ≡ false }
    requires usable { IsUsable (D.seen disk.old) player.old.store }
    ensures { PlaysMade (D.seen disk.old) (D.seen disk.new) player.old.tick player.old.store.setting
        number (P.seen spaces.old) (P.seen spaces.new) probes.old probes.new
        result player.new.store.setting }
{
    let mut source = ScriptSource::new(make_script(player.alloc, number)?);
    let mut sink = Unwritten;
    play_script(player, &mut source, &mut sink, disk, spaces, probes)
}

// Writes the reply to `counts`, where the script was played to its end.
fn tell_counts<K: Sink, L: Ledger>(
    player: &mut Player,
    output: &mut K,
    played: Result<bool, Status>,
    probes: &mut Steps<L>,
) -> Result<bool, Status>
    ensures tells { TellsLeft played result player.old.store.setting.state (K.seen output.old)
        (K.seen output.new) }
    ensures probes { probes.new ≤ probes.old }
{
    let refused = played?;
    let reply = counts_reply(player.alloc, player.store.machine(), probes)?;
    player.write_reply(output, reply)?;
    Ok(refused)
}

// The reply to `counts`, which no valid state refuses.
fn counts_reply<L: Ledger>(
    alloc: Global,
    machine: &Machine,
    probes: &mut Steps<L>,
) -> Result<Reply, Memory>
    requires { IsValid machine.now.state }
    ensures reply { IfOk result (λ reply. reply ≡ counts_reply machine.now.state) }
    ensures probes { probes.new ≤ probes.old }
{
    match machine.check(counts_line(alloc)?) {
        Ok(draft) => match machine.ask(draft, no_answers(alloc), probes) {
            Ok(reply) => Ok(reply),
            Err(deny) => Err(only_memory(deny)),
        },
        Err(deny) => Err(only_memory(deny)),
    }
}

// The line `counts`, of the session of lines that name none.
fn counts_line(alloc: Global) -> Result<Line, Memory>
    ensures { IfOk result (λ line. line ≡ record
        { session = codes "main"; command = command.Counts }) }
{
    Ok(Line {
        session: Name::new(Vec::from_slice(alloc, b"main")?),
        command: Command::Counts,
    })
}

// What spaces answer where nothing is asked.
fn no_answers(alloc: Global) -> Answers
    ensures { result ≡ no_answers }
{
    Answers {
        list: Seq::new(Vec::new(alloc)),
        found: Seq::new(Vec::new(alloc)),
        fetched: None,
    }
}

// Where nothing refuses a command, memory ran out.
fn only_memory(deny: Deny) -> Memory
    requires { deny ≡ denied.Memory }
{
    match deny {
        Deny::Memory => Memory,
        Deny::Refused(_) => unreachable!(),
    }
}
