//! The data lines of commands that read.
ghost use Rattle.std.specs.Prelude.{◌≡◌, ◌≤◌, ◌+◌, IfOk};
ghost use Rattle.hac_model.specs.Run.Asks.{asks};
ghost use Rattle.hac_model.specs.Run.Costs.{answering};
ghost use Rattle.hac_model.specs.Run.Play.{data_lines};
ghost use Rattle.hac_model.specs.Spaces.Answering.{AreAnswersTo};

use crate::lines_of_counts::counts_lines;
use crate::lines_of_entries::{child_lines, path_lines, target_lines, text_lines};
use crate::lines_of_links::{found_lines, link_lines};
use crate::lines_of_queries::query_lines;
use hac_model::{Answers, Memory, Name, Resolved};
use hac_outside::Steps;
use kept_links::LinkedState;
use std::alloc::Global;
use std::sync::ledger::Ledger;

/// The data lines of a command, given what spaces answered to its questions. One that changes the
/// state has none. None but those of `find` ask which terms items have.
pub fn data_lines<L: Ledger>(
    alloc: Global,
    linked: &LinkedState,
    command: &Resolved,
    answers: &Answers,
    probes: &mut Steps<L>,
) -> Result<Vec<Name>, Memory>
    requires { AreAnswersTo (asks linked.now.state command.now) answers.now }
    ensures lines { IfOk result (λ lines. lines.items
        ≡ data_lines answers.now linked.now.state command.now) }
    ensures probes { probes.new ≤ probes.old + answering linked.now.state command.now }
{
    let kept = linked.kept();
    match command {
        Resolved::Cat { entry } => text_lines(alloc, kept, *entry, answers),
        Resolved::Ls { dir } => child_lines(alloc, kept, *dir),
        Resolved::Pwd { dir } => path_lines(alloc, kept, *dir),
        Resolved::Readlink { entry } => target_lines(alloc, kept, *entry),
        Resolved::Query { dir } => query_lines(alloc, kept, *dir),
        Resolved::Sls { dir } => link_lines(alloc, linked, *dir),
        Resolved::Find { query } => {
            found_lines(alloc, linked, query, answers.found.as_slice(), probes)
        }
        Resolved::Counts => counts_lines(alloc, linked),
        _ => Ok(Vec::new(alloc)),
    }
}
