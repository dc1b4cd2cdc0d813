//! The command `slots`: `docs/FORMATS.md`, "Commands".

ghost use Rattle.std.specs.Prelude.{◌≡◌, IfOk, true};
ghost use Rattle.gs_plan.specs.Plans.{text_of};
ghost use Rattle.gs_tdma.specs.Slots.{AreSlots};
ghost use Rattle.gs_cli.specs.Reply.{answer_in};
ghost use Rattle.gs_cli.specs.Stops.{EndsWith};
ghost use Rattle.gs_inputs.specs.Inputs.{IsAnswerOver};
ghost use Rattle.gs_tool.specs.Runs.{IsSlotted, IsTold};
ghost use Rattle.gs_tool.specs.Slotted.{slot_refused, slotted};
ghost use Rattle.gs_inputs.specs.Sources.{are_built_in, seen};

use crate::answers::stopped;
use crate::slot_text::slots_text;
use gs_cli::{Reply, Status, Stop};
use gs_inputs::read_inputs;
use gs_io::Files;
use gs_plan::Plan;
use gs_script::Script;
use gs_tdma::{SlotFault, SlotPlan};
use std::alloc::{AllocError, Global};

/// The answer to `slots PLAN SCRIPT REACH SLOT`.
pub(crate) fn slots_answer<F: Files>(
    alloc: Global,
    files: &mut F,
    plan: &str,
    script: &str,
    reach: u32,
    slot: u64,
) -> Result<Reply, Stop>
    ensures answer { EndsWith
        (IsAnswerOver (seen (F.content files.old) (F.faults files.old) (F.faults files.new))
        plan.now script.now (IsSlotted reach slot))
        result }
    ensures untouched { are_built_in plan.now script.now ≡ true → files.new ≡ files.old }
{
    let inputs = read_inputs(alloc, files, plan, script)?;
    Ok(slotted(alloc, &inputs.plan, &inputs.script, reach, slot)?)
}

/// The answer over accepted inputs.
#[tactic(auto, using(crate::proofs::SlotTexts::slotting))]
fn slotted(
    alloc: Global,
    plan: &Plan,
    script: &Script,
    reach: u32,
    slot: u64,
) -> Result<Reply, AllocError>
    requires { script.now.text ≡ text_of plan.now }
    ensures { IfOk result (λ reply. IsSlotted reach slot plan.now script.now (answer_in reply)) }
{
    match gs_tdma::slots(alloc, plan, reach, slot) {
        Ok(slots) => sent(alloc, plan, script, &slots, reach),
        Err(SlotFault::OutOfMemory) => Err(AllocError),
        Err(fault) => refused(alloc, fault),
    }
}

/// The line of a reach and a slot that are refused.
fn refused(alloc: Global, fault: SlotFault) -> Result<Reply, AllocError>
    ensures { IfOk result (λ reply. answer_in reply ≡ slot_refused fault) }
{
    let why = fault.to_string(alloc)?;
    Reply::line_of(alloc, Status::InputRefused, "slot refused: ", why.as_str())
}

/// The answer by slots of this reach.
#[tactic(auto, using(crate::proofs::SlotTexts::sending))]
fn sent(
    alloc: Global,
    plan: &Plan,
    script: &Script,
    slots: &SlotPlan,
    reach: u32,
) -> Result<Reply, AllocError>
    requires script { script.now.text ≡ text_of plan.now }
    requires slots { AreSlots plan.now slots.now }
    requires reach { slots.now.reach ≡ reach }
    ensures { IfOk result (λ reply. IsTold (slotted slots.now) plan.now script.now (answer_in reply)) }
{
    match gs_tdma::slot_run(alloc, plan, script, slots) {
        Ok(sent) => {
            let text = slots_text(alloc, plan, slots, reach, &sent)?;
            Ok(Reply::Text(Status::Done, text))
        }
        Err(stop) => stopped(alloc, &stop),
    }
}
