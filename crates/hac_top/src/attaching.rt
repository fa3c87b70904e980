//! Attaching: each file that the words name is read, and its documents become a space. It knows no
//! store.
ghost use Rattle.std.specs.Prelude.{◌≡◌, [], true, IfErr, OnOk};
ghost use Rattle.hac_model.specs.Script.CommandLine.{names_differ};
ghost use Rattle.hac_top.specs.Spaces.{HasAttached, StopsAttaching, attach_status, names_of};
ghost use Rattle.command_line.specs.Words.{spaces_asked};

use crate::status::Status;
use command_line::SpaceFile;
use sem_mounts::{AttachFault, Spaces};

/// Attaches each space with the documents of its file, in their order, up to the first that can't
/// be attached.
pub(crate) fn attach_spaces<P: Spaces>(
    spaces: &mut P,
    files: &[SpaceFile<'_>],
) -> Result<(), Status>
    requires none { (P.seen spaces.old).attached ≡ [] }
    requires differ { names_differ (names_of (spaces_asked files.now)) ≡ true }
    ensures ok { OnOk result (HasAttached (spaces_asked files.now) (P.seen spaces.old)
        (P.seen spaces.new)) }
    ensures err { IfErr result (StopsAttaching (spaces_asked files.now) (P.seen spaces.old)
        (P.seen spaces.new)) }
{
    let mut which = 0;
    for space in files {
        which += 1;
        if let Err(fault) = spaces.attach(&space.name, space.file) {
            return Err(attach_status(which, fault));
        }
    }
    Ok(())
}

// The status of a run that can't attach a space.
fn attach_status(which: u64, fault: AttachFault) -> Status
    ensures { result ≡ attach_status which fault }
{
    match fault {
        AttachFault::Failed => Status::BadSpace { which, line: None },
        AttachFault::BadCatalogue { line } => Status::BadSpace {
            which,
            line: Some(line),
        },
        AttachFault::Memory => Status::Memory,
    }
}
