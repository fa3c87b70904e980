//! Opening: the file of the store is attached, and the store that it holds is loaded, or a new one
//! is made.
ghost use Rattle.std.specs.Prelude.{◌≡◌, ◌+◌, ◌≤◌, false, Err, IfOk, IfErr, IfSome};
ghost use Rattle.hac_disk.specs.Images.{IsQuiet, IsSettled, LeavesOnly};
ghost use Rattle.hac_outside.specs.Causes.{ReportsFault};
ghost use Rattle.hac_model.specs.Tree.Sessions.{stored};
ghost use Rattle.hac_store.specs.Held.{held};
ghost use Rattle.hac_store.specs.Loading.{loading};
ghost use Rattle.hac_store.specs.Stores.{Stands};
ghost use Rattle.hac_top.specs.Attaching.{AttachesStore, MayAttach};
ghost use Rattle.hac_top.specs.Crashes.{IsOpened, Reopens, StopsOpening, opening_outcome};
ghost use Rattle.hac_top.specs.Crashes.{opening_result};
ghost use Rattle.hac_top.specs.Ends.{reports_disk};
ghost use Rattle.hac_top.specs.Storing.{IsUsable};
ghost use Rattle.command_line.specs.Words.{asked_of};

use crate::status::{Status, store_status};
use command_line::Options;
use hac_disk::Disk;
use hac_outside::Steps;
use hac_store::{Store, StoreFault};
use std::alloc::Global;
use std::sync::ledger::Ledger;

/// Attaches the file of a store, and opens the store that it holds, or makes a new one.
pub fn open_store<D: Disk, L: Ledger>(
    alloc: Global,
    options: &Options<'_>,
    disk: &mut D,
    probes: &mut Steps<L>,
) -> Result<Store, Status>
    ensures opened { IfSome (D.seen disk.old).contents (λ file. IsOpened result
        (opening_outcome options.now.fresh (held file))) }
    ensures usable { IfOk result (IsUsable (D.seen disk.new)) }
    ensures stands { IfSome (D.seen disk.old).contents (λ _. IfOk result
        (λ store. Stands (D.seen disk.new) store.setting)) }
    ensures stops { IfErr result StopsOpening }
    ensures probes { IfSome (D.seen disk.old).contents
        (λ file. probes.new ≤ probes.old + loading file) }

    // At each moment a crash leaves the store as it was, or the root alone, or no store yet.
    ensures any_moment { IfSome (D.seen disk.old).contents (λ file. IfOk
        (opening_outcome options.now.fresh (held file)) (λ setting. IsSettled (D.seen disk.old) →
        LeavesOnly (D.seen disk.old) (D.seen disk.new)
        (Reopens options.now.fresh (λ s. s ≡ stored setting.state)))) }

    // Where no new store is asked for nothing is written, nor where the file holds none, or one that
    // is in the way.
    ensures still { options.now.fresh ≡ false → IsQuiet (D.seen disk.old) (D.seen disk.new) }
    ensures quiet { IfSome (D.seen disk.old).contents (λ file. IfErr
        (opening_outcome options.now.fresh (held file))
        (λ _. IsQuiet (D.seen disk.old) (D.seen disk.new))) }

    ensures attached { MayAttach (D.seen disk.old).attached (asked_of options.now)
        (D.seen disk.new).attached }
    ensures attaches { (result ≡ Err Status.DiskFault → ⊥) →
        AttachesStore (D.seen disk.old).attached (asked_of options.now) (D.seen disk.new).attached }
    ensures faults { ReportsFault (reports_disk result) (D.seen disk.old).faults
        (D.seen disk.new).faults }
{
    if disk.attach(options.store, options.fresh).is_err() {
        return Err(Status::DiskFault);
    }
    if options.fresh {
        opening_result(Store::create(alloc, disk, probes))
    } else {
        opening_result(Store::load(alloc, disk, probes))
    }
}

// The same answer with the fault of a store as a status.
fn opening_result(opened: Result<Store, StoreFault>) -> Result<Store, Status>
    requires { opened ≡ Err StoreFault.Full → ⊥ }
    ensures { result ≡ opening_result opened }
{
    match opened {
        Ok(store) => Ok(store),
        Err(fault) => Err(store_status(fault)),
    }
}
