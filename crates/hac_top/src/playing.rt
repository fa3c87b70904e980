//! Playing: the script is taken line by line, and each line is answered before the next is taken.
ghost use Rattle.std.specs.Prelude.{◌≡◌, false};
ghost use Rattle.hac_top.specs.Ends.{end_status};
ghost use Rattle.hac_top.specs.Run.{PlaysOn, PlaysStore, outside};
ghost use Rattle.hac_top.specs.Storing.{IsUsable};

use crate::answering::Player;
use crate::status::Status;
use crate::taking::take_line;
use hac_disk::Disk;
use hac_outside::{Sink, Source, Steps};
use line_reader::Reader;
use sem_mounts::Spaces;
use std::sync::ledger::Ledger;

/// Plays the script on a store that was opened.
pub fn play_store<S: Source, K: Sink, D: Disk, P: Spaces, L: Ledger>(
    mut player: Player,
    input: &mut S,
    output: &mut K,
    disk: &mut D,
    spaces: &mut P,
    probes: &mut Steps<L>,
) -> Status
    requires source { (S.seen input.old).ended ≡ false }
    requires begun { player.refused ≡ false }
    requires usable { IsUsable (D.seen disk.old) player.store }
    ensures { PlaysStore (D.seen disk.old) (D.seen disk.new) player.tick player.store.setting
        (outside (S.seen input.old) (K.seen output.old) probes.old)
        (outside (S.seen input.new) (K.seen output.new) probes.new)
        (P.seen spaces.old) (P.seen spaces.new) result }
{
    let played = play_script(&mut player, input, output, disk, spaces, probes);
    drop(player);
    end_status(played)
}

/// Plays the script to its end, and says whether some command was refused.
pub fn play_script<S: Source, K: Sink, D: Disk, P: Spaces, L: Ledger>(
    player: &mut Player,
    input: &mut S,
    output: &mut K,
    disk: &mut D,
    spaces: &mut P,
    probes: &mut Steps<L>,
) -> Result<bool, Status>
    requires source { (S.seen input.old).ended ≡ false }
    requires begun { player.old.refused ≡ false }
    requires usable { IsUsable (D.seen disk.old) player.old.store }
    ensures { PlaysOn (D.seen disk.old) (D.seen disk.new) player.old.tick player.old.store.setting
        (outside (S.seen input.old) (K.seen output.old) probes.old)
        (outside (S.seen input.new) (K.seen output.new) probes.new)
        (P.seen spaces.old) (P.seen spaces.new) result player.new.store.setting }
{
    let mut reader = Reader::new(player.alloc)?;
    'lines: loop {
        match take_line(&mut reader, input)? {
            Some(line) => player.answer(output, disk, spaces, line, probes)?,
            None => return Ok(player.refused),
        }
    }
}

/// The status of a script that was played.
pub fn end_status(played: Result<bool, Status>) -> Status
    ensures { result ≡ end_status played }
{
    match played {
        Ok(false) => Status::Done,
        Ok(true) => Status::SomeRefused,
        Err(status) => status,
    }
}
