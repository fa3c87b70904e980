//! Deciding: what a line asks of the tree and of the spaces, before the store is touched.
ghost use Rattle.std.specs.Prelude.{◌≡◌, ◌+◌, ◌≤◌, List, IfErr, IfOk, IsTrue, None, Ok};
ghost use Rattle.hac_core.specs.Drafts.{IsDraft, IsDraftFor};
ghost use Rattle.hac_model.specs.declared.resolved.Resolved.{Resolved};
ghost use Rattle.hac_model.specs.Script.Lines.{is_spelled_line, item_taken};
ghost use Rattle.hac_model.specs.Run.Costs.{answering, answering_line};
ghost use Rattle.hac_model.specs.Run.Given.{given_spaces};
ghost use Rattle.hac_model.specs.Run.Play.{command_turn};
ghost use Rattle.hac_model.specs.Spaces.Answering.{AreAnswersTo, Attached, answers_of};
ghost use Rattle.hac_model.specs.Spaces.Answering.{asked_spaces, first_absent};
ghost use Rattle.hac_top.specs.Deciding.{CanHappen, Decides, DecidesDraft, DecidesItem, IsDenial};
ghost use Rattle.hac_top.specs.Deciding.{denial};
ghost use Rattle.hac_top.specs.declared.deciding.Decision.TheVariants.{Answer};

use hac_core::{Draft, Machine, Settled};
use hac_model::{Answers, Deny, Line, Memory, Refusal, Reply, Taken, Text};
use hac_outside::Steps;
use sem_mounts::{GatherFault, Spaces, gather};
use shell_lang::parse_line;
use std::alloc::Global;
use std::sync::ledger::Ledger;

/// What is to be done about a line.
#[derive(Drop)]
pub enum Decision {
    /// To give this reply. The tree stays as it is.
    Answer(Reply),
    /// To let these events happen, or to begin a new area, if the store has room for it.
    Change(Settled),
}

/// What is to be done about a line, given what was taken of the bytes behind it. The spaces are
/// asked what its command has to know of them.
pub fn decide<P: Spaces, L: Ledger>(
    alloc: Global,
    machine: &Machine,
    spaces: &mut P,
    line: Text,
    taken: Option<Taken>,
    probes: &mut Steps<L>,
) -> Result<Decision, Memory>
    ensures decides { DecidesItem (P.seen spaces.old) (P.seen spaces.new) machine.now.state
        (item_taken line taken) result }
    ensures probes { probes.new ≤ probes.old
        + answering_line machine.now.state (item_taken line taken) }
{
    match parse_line(alloc, line.as_slice(), taken) {
        Ok(line) => decide_line(alloc, machine, spaces, line, probes),
        Err(deny) => refused(deny),
    }
}

// What is to be done about a line that spells a command.
fn decide_line<P: Spaces, L: Ledger>(
    alloc: Global,
    machine: &Machine,
    spaces: &mut P,
    line: Line,
    probes: &mut Steps<L>,
) -> Result<Decision, Memory>
    requires { IsTrue (is_spelled_line line) }
    ensures decides { DecidesItem (P.seen spaces.old) (P.seen spaces.new) machine.now.state
        (Ok line) result }
    ensures probes { probes.new ≤ probes.old + answering_line machine.now.state (Ok line) }
{
    match machine.check(line) {
        Ok(draft) => decide_draft(alloc, machine, spaces, draft, probes),
        Err(deny) => refused(deny),
    }
}

// What is to be done about a command that the tree doesn't refuse so far: its questions are asked,
// and the first that gets no answer refuses it.
fn decide_draft<P: Spaces, L: Ledger>(
    alloc: Global,
    machine: &Machine,
    spaces: &mut P,
    draft: Draft,
    probes: &mut Steps<L>,
) -> Result<Decision, Memory>
    requires { IsDraft machine.now.state draft }
    ensures decides { DecidesDraft (P.seen spaces.old) (P.seen spaces.new) machine.now.state draft
        result }
    ensures probes { (command : Resolved) → IsDraftFor machine.now.state command draft →
        probes.new ≤ probes.old + answering machine.now.state command }
{
    match gather(alloc, spaces, draft.asks()) {
        Ok(answers) => decide_answered(machine, draft, answers, probes),
        Err(fault) => refused(denial(fault)),
    }
}

// Why a command is denied whose questions got no answers.
fn denial(fault: GatherFault) -> Deny
    ensures { result ≡ denial fault }
{
    match fault {
        GatherFault::NoSpace(space) => Deny::Refused(Refusal::NoSpace(space)),
        GatherFault::SpaceFault(space) => Deny::Refused(Refusal::SpaceFault(space)),
        GatherFault::Memory => Deny::Memory,
    }
}

// What is to be done about such a command once its questions are answered.
fn decide_answered<L: Ledger>(
    machine: &Machine,
    draft: Draft,
    answers: Answers,
    probes: &mut Steps<L>,
) -> Result<Decision, Memory>
    requires made { IsDraft machine.now.state draft }
    requires answered { AreAnswersTo draft.asks answers }
    ensures happen { IfOk result (CanHappen machine.now.state) }
    ensures leads { (command : Resolved) → IsDraftFor machine.now.state command draft →
        (spaces : List Attached) → answers ≡ answers_of spaces draft.asks →
        first_absent spaces (asked_spaces draft.asks) ≡ None →
        IfOk result (Decides machine.now.state
        (λ setting. command_turn (given_spaces spaces) setting (Ok command))) }
    ensures probes { (command : Resolved) → IsDraftFor machine.now.state command draft →
        probes.new ≤ probes.old + answering machine.now.state command }
{
    if draft.reads() {
        return answered(machine.ask(draft, answers, probes));
    }
    match machine.settle(draft, answers) {
        Ok(settled) => Ok(Decision::Change(settled)),
        Err(deny) => refused(deny),
    }
}

// To give the reply that there is.
fn answered(reply: Result<Reply, Deny>) -> Result<Decision, Memory>
    ensures ok { IfOk reply (λ reply. result ≡ Ok (Answer reply)) }
    ensures err { IfErr reply (λ deny. IsDenial deny result) }
{
    match reply {
        Ok(reply) => Ok(Decision::Answer(reply)),
        Err(deny) => refused(deny),
    }
}

// To refuse what is denied.
fn refused(deny: Deny) -> Result<Decision, Memory>
    ensures { IsDenial deny result }
{
    match deny {
        Deny::Refused(refusal) => Ok(Decision::Answer(Reply::Refused(refusal))),
        Deny::Memory => Err(Memory),
    }
}
