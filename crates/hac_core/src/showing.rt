//! The replies to commands that read.
ghost use Rattle.std.specs.Prelude.{◌≡◌, ◌≤◌, ◌+◌, true, IfErr, IfOk, None};
ghost use Rattle.hac_model.specs.Run.Answers.{Passes, Refuses};
ghost use Rattle.hac_model.specs.Run.Asks.{asks};
ghost use Rattle.hac_model.specs.Run.Costs.{answering};
ghost use Rattle.hac_model.specs.Run.Refusals.{cause, early_cause, gone_cause};
ghost use Rattle.hac_model.specs.Run.Showing.{data_lines};
ghost use Rattle.hac_model.specs.Spaces.Answering.{AreAnswersTo};
ghost use Rattle.hac_core.specs.Drafts.{Shows, is_reading};

use hac_model::{Answers, Deny, Refusal, Reply, Resolved, Seq};
use hac_outside::Steps;
use kept_links::LinkedState;
use kept_state::KeptState;
use std::alloc::Global;
use std::sync::ledger::Ledger;
use tree_answers::data_lines;

/// The reply to a command that reads, given what spaces answered. Only a document that its space
/// has no more stands against it.
pub fn shown<L: Ledger>(
    alloc: Global,
    linked: &LinkedState,
    command: Resolved,
    answers: Answers,
    probes: &mut Steps<L>,
) -> Result<Reply, Deny>
    requires reads { is_reading command ≡ true }
    requires free { early_cause linked.now.state command ≡ None }
    requires answered { AreAnswersTo (asks linked.now.state command) answers }
    ensures reply { IfOk result (Shows linked.now.state answers command) }
    ensures refused { IfErr result (λ deny. Refuses deny (cause answers linked.now.state command)) }
    ensures probes { probes.new ≤ probes.old + answering linked.now.state command }
{
    let reply = reply_to(alloc, linked, &command, &answers, probes);
    drop(command);
    drop(answers);
    reply
}

/// The same of a command that stays.
fn reply_to<L: Ledger>(
    alloc: Global,
    linked: &LinkedState,
    command: &Resolved,
    answers: &Answers,
    probes: &mut Steps<L>,
) -> Result<Reply, Deny>
    requires reads { is_reading command.now ≡ true }
    requires free { early_cause linked.now.state command.now ≡ None }
    requires answered { AreAnswersTo (asks linked.now.state command.now) answers.now }
    ensures reply { IfOk result (Shows linked.now.state answers.now command.now) }
    ensures refused { IfErr result (λ deny. Refuses deny
        (cause answers.now linked.now.state command.now)) }
    ensures probes { probes.new ≤ probes.old + answering linked.now.state command.now }
{
    let kept = linked.kept();
    kept.know_valid();
    match require_not_gone(kept, command, answers) {
        Ok(()) => lines_of(alloc, linked, command, answers, probes),
        Err(deny) => Err(deny),
    }
}

/// The data lines as a reply.
fn lines_of<L: Ledger>(
    alloc: Global,
    linked: &LinkedState,
    command: &Resolved,
    answers: &Answers,
    probes: &mut Steps<L>,
) -> Result<Reply, Deny>
    requires { AreAnswersTo (asks linked.now.state command.now) answers.now }
    ensures reply { IfOk result (λ reply. reply ≡ Reply.Lines
        (data_lines answers.now linked.now.state command.now)) }
    ensures memory { IfErr result (λ deny. deny ≡ Deny.Memory) }
    ensures probes { probes.new ≤ probes.old + answering linked.now.state command.now }
{
    let lines = data_lines(alloc, linked, command, answers, probes)?;
    Ok(Reply::Lines(Seq::new(lines)))
}

/// Denies a document that its space has no more.
fn require_not_gone(kept: &KeptState, command: &Resolved, answers: &Answers) -> Result<(), Deny>
    ensures { Passes result (gone_cause answers.now kept.now.state command.now) }
{
    match command {
        Resolved::Cat { entry } if kept.tree().is_document(*entry) => match &answers.fetched {
            Some(_) => Ok(()),
            None => Err(Deny::Refused(Refusal::Gone(kept.path_of(*entry)?))),
        },
        _ => Ok(()),
    }
}
