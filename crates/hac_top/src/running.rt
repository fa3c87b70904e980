//! The run: the spaces are attached, the store is opened, and the script that is read, or one that
//! is drawn, is played on it.
ghost use Rattle.std.specs.Prelude.{◌≡◌, ◌≤◌, ◌+◌, ◌⊎◌, ⊤, [], false, IfErr, IfSome};
ghost use Rattle.std.specs.Prelude.{None, Some};
ghost use Rattle.std.specs.Io.KnownBytes.{Appends};
ghost use Rattle.hac_disk.specs.Images.{IsQuiet};
ghost use Rattle.hac_outside.specs.Causes.{ReportsFault};
ghost use Rattle.hac_store.specs.Held.{held};
ghost use Rattle.hac_top.specs.Asking.{StayAttached};
ghost use Rattle.hac_top.specs.Attaching.{LeavesAttached};
ghost use Rattle.hac_top.specs.Crashes.{IsOfFile, opening_outcome};
ghost use Rattle.hac_top.specs.Ends.{IsStoreStatus, is_disk_fault, is_write_fault};
ghost use Rattle.hac_top.specs.Making.{IfMakes, Makes, RunsMade};
ghost use Rattle.hac_top.specs.Run.{AppendsSome, Ends, EndsSo, IfPlays, IfUnopened, RefusesWords};
ghost use Rattle.hac_top.specs.Run.{RunsFrom, options_in, outside, usage_line};
ghost use Rattle.hac_top.specs.Spaces.{CanAttach, LeavesSpaces};
ghost use Rattle.hac_top.specs.Takes.{Takes};
ghost use Rattle.command_line.specs.Words.{asked_of};

use crate::answering::{Player, write_now};
use crate::attaching::attach_spaces;
use crate::making::make_store;
use crate::opening::open_store;
use crate::playing::play_store;
use crate::status::Status;
use command_line::{Options, WordsFault, read_words};
use hac_disk::Disk;
use hac_outside::{Sink, Source, Steps};
use sem_mounts::Spaces;
use std::alloc::Global;
use std::sync::ledger::Ledger;

/// Attaches the spaces that the words name, opens the store, plays the script that the source
/// gives, and writes the reply to each command to the sink.
///
/// `words` are those of the program behind its own name: `[--new] [--tick N] [--make NUMBER] STORE
/// [NAME=FILE]...`. Each FILE is read first, as the catalogue of the space NAME. Then the disk is
/// bound to the file STORE, which is made where it is missing and `--new` is given. The source is
/// read in pieces, and no line is carried out before the reply to the line before it was written
/// and flushed; what a line changes is stored before its reply is written. Behind each reply up
/// to N index steps follow. A `put` is carried out with the bytes that follow its line. A command
/// asks the spaces what it has to know of their documents, and is refused where one of them isn't
/// attached or fails.
///
/// With `--make` the script is one that is drawn from NUMBER. Nothing of the source is taken then,
/// and of the replies only that to `counts` is written, which is asked behind the script.
///
/// `probes` counts how often a term is asked of an item. Where the disk, the source and the spaces
/// tell what they hold, that is at most as often as opening the store may take, and each line that
/// is taken up, if it opens.
pub fn run<S: Source, K: Sink, D: Disk, P: Spaces, L: Ledger>(
    alloc: Global,
    words: &[String],
    input: &mut S,
    output: &mut K,
    disk: &mut D,
    spaces: &mut P,
    probes: &mut Steps<L>,
) -> Status
    requires unended { (S.seen input.old).ended ≡ false }
    requires unattached { (P.seen spaces.old).attached ≡ [] }

    // Faulty command lines are refused.
    ensures usage { result ≡ Status.Usage → options_in words.now ≡ None }
    ensures words { options_in words.now ≡ None →
        RefusesWords result (outside (S.seen input.old) (K.seen output.old) probes.old)
        (outside (S.seen input.new) (K.seen output.new) probes.new) × (disk.new ≡ disk.old) ×
        (spaces.new ≡ spaces.old) }

    // Each space that the words name is attached, with the documents of its file, and is only asked
    // since. Where one can't be, it says which and why, and does nothing else; nor does it where
    // memory runs out before all are attached.
    ensures spaces { IfSome (options_in words.now)
        (λ asked. LeavesSpaces result asked.spaces (P.seen spaces.old) (P.seen spaces.new)
        ((input.new ≡ input.old) × (output.new ≡ output.old) × (disk.new ≡ disk.old) ×
        (probes.new ≡ probes.old))) }

    // The replies are those of the tree that the store held, given the documents of the spaces and
    // the faults that its commands met. A crash at any moment leaves that tree after some of the
    // events, at the end those of what was answered, and without a fault the script is played. On a
    // store that was there nothing is written but what the commands store. No more terms are asked
    // of items than opening the store may take, and each line since.
    ensures ran { IfPlays (options_in words.now) (λ asked. RunsFrom
        (D.seen disk.old) (D.seen disk.new) (P.seen spaces.old) (P.seen spaces.new) asked
        (CanAttach asked.spaces (P.seen spaces.old) (P.seen spaces.new))
        (outside (S.seen input.old) (K.seen output.old) probes.old)
        (outside (S.seen input.new) (K.seen output.new) probes.new) result) }

    // Whatever the disk and the spaces tell, the script is read to its end, or as far as shows that
    // it is too long, or a part of it is.
    ensures takes { IfPlays (options_in words.now)
        (λ asked. Takes result (S.seen input.old).left (S.seen input.new).left) }

    // Where the script is to be drawn, nothing is read, and the same is true of that script, which
    // is played from a source and to a sink of its own. Then the reply to `counts` is written.
    ensures made { IfMakes (options_in words.now) (λ asked number. Makes number
        (outside (S.seen input.old) (K.seen output.old) probes.old)
        (outside (S.seen input.new) (K.seen output.new) probes.new)
        (RunsMade (D.seen disk.old) (D.seen disk.new) (P.seen spaces.old) (P.seen spaces.new) asked
        (CanAttach asked.spaces (P.seen spaces.old) (P.seen spaces.new))
        result (K.seen output.old) (K.seen output.new))) }

    // Where the file holds no store, or one though a new one was asked for, it says so and does
    // nothing else.
    ensures unopened { IfSome (options_in words.now)
        (λ asked. IfSome (D.seen disk.old).contents (λ file. IfErr
        (opening_outcome asked.fresh (held file)) (λ wanted.
        EndsSo wanted result × IsQuiet (D.seen disk.old) (D.seen disk.new) ×
        (input.new ≡ input.old) × (output.new ≡ output.old)))) }
    ensures unopened_asks { IfSome (options_in words.now)
        (λ asked. IfUnopened asked.fresh (D.seen disk.old).contents
        (λ opening. probes.new ≤ probes.old + opening)) }
    ensures file { IfSome (options_in words.now)
        (λ asked. IfSome (D.seen disk.old).contents (λ file. IsOfFile result →
        opening_outcome asked.fresh (held file) ≡ Err result)) }

    // The disk is attached once, by the name that the words give, unless the run ends before.
    ensures attached { IfSome (options_in words.now)
        (λ asked. LeavesAttached result (D.seen disk.old).attached asked
        (D.seen disk.new).attached) }

    // Each fault is reported, and nothing is left unflushed in the sink.
    ensures ends { Ends result (outside (S.seen input.old) (K.seen output.old) probes.old)
        (outside (S.seen input.new) (K.seen output.new) probes.new) }
    ensures disk_faults { ReportsFault (is_disk_fault result) (D.seen disk.old).faults
        (D.seen disk.new).faults }
{
    let options = match read_words(alloc, words) {
        Ok(options) => options,
        Err(WordsFault::Usage) => return write_usage(output),
        Err(WordsFault::Memory) => return Status::Memory,
    };
    match attach_spaces(spaces, &options.spaces) {
        Ok(()) => run_store(alloc, &options, input, output, disk, spaces, probes),
        Err(status) => status,
    }
}

// Opens the store, and plays the script on it: that of the source, or one that is drawn.
fn run_store<S: Source, K: Sink, D: Disk, P: Spaces, L: Ledger>(
    alloc: Global,
    options: &Options<'_>,
    input: &mut S,
    output: &mut K,
    disk: &mut D,
    spaces: &mut P,
    probes: &mut Steps<L>,
) -> Status
    requires { (S.seen input.old).ended ≡ false }
    ensures own { IsStoreStatus result }
    ensures ran { IfPlays (Some (asked_of options.now)) (λ asked. RunsFrom
        (D.seen disk.old) (D.seen disk.new) (P.seen spaces.old) (P.seen spaces.new) asked ⊤
        (outside (S.seen input.old) (K.seen output.old) probes.old)
        (outside (S.seen input.new) (K.seen output.new) probes.new) result) }
    ensures takes { IfPlays (Some (asked_of options.now))
        (λ asked. Takes result (S.seen input.old).left (S.seen input.new).left) }
    ensures made { IfMakes (Some (asked_of options.now)) (λ asked number. Makes number
        (outside (S.seen input.old) (K.seen output.old) probes.old)
        (outside (S.seen input.new) (K.seen output.new) probes.new)
        (RunsMade (D.seen disk.old) (D.seen disk.new) (P.seen spaces.old) (P.seen spaces.new)
        asked ⊤ result (K.seen output.old) (K.seen output.new))) }
    ensures spaces { StayAttached (P.seen spaces.old) (P.seen spaces.new) }
    ensures unopened { IfSome (D.seen disk.old).contents (λ file. IfErr
        (opening_outcome options.now.fresh (held file))
        (λ wanted.
        EndsSo wanted result × IsQuiet (D.seen disk.old) (D.seen disk.new) ×
        (input.new ≡ input.old) × (output.new ≡ output.old))) }
    ensures unopened_asks { IfUnopened options.now.fresh (D.seen disk.old).contents
        (λ opening. probes.new ≤ probes.old + opening) }
    ensures file { IfSome (D.seen disk.old).contents (λ file. IsOfFile result → opening_outcome
        options.now.fresh (held file) ≡ Err result) }
    ensures attached { LeavesAttached result (D.seen disk.old).attached (asked_of options.now)
        (D.seen disk.new).attached }
    ensures ends { Ends result (outside (S.seen input.old) (K.seen output.old) probes.old)
        (outside (S.seen input.new) (K.seen output.new) probes.new) }
    ensures disk_faults { ReportsFault (is_disk_fault result) (D.seen disk.old).faults
        (D.seen disk.new).faults }
{
    match open_store(alloc, options, disk, probes) {
        Ok(store) => {
            let player = Player {
                alloc,
                store,
                tick: options.tick,
                refused: false,
            };
            match options.make {
                None => play_store(player, input, output, disk, spaces, probes),
                Some(number) => make_store(player, number, output, disk, spaces, probes),
            }
        }
        Err(status) => status,
    }
}

fn write_usage<K: Sink>(output: &mut K) -> Status
    ensures status { (result ≡ Status.Usage) ⊎ (result ≡ Status.WriteFault) }
    ensures written { result ≡ Status.Usage → Appends (K.seen output.old).written
        (K.seen output.new).written usage_line }
    ensures passed { result ≡ Status.Usage → (K.seen output.new).held_back ≡ 0 }
    ensures some { AppendsSome (K.seen output.old).written (K.seen output.new).written usage_line }
    ensures faults { ReportsFault (is_write_fault result) (K.seen output.old).faults
        (K.seen output.new).faults }
{
    match write_now(
        output,
        b"usage: hac [--new] [--tick N] [--make NUMBER] STORE [NAME=FILE]...\n",
    ) {
        Ok(()) => Status::Usage,
        Err(_) => Status::WriteFault,
    }
}
