//! The plan of what a PLAN word was read as: `docs/FORMATS.md`, "Commands", "Plan file" and "Fault lines".

ghost use Rattle.std.specs.Prelude.{◌≡◌, ◌-◌, ◌^◌, IfOk, IfErr, Ok};
ghost use Rattle.gs_planfile.specs.Meaning.{plan_of};
ghost use Rattle.gs_planfile.specs.Texts.{IsText};
ghost use Rattle.gs_plan.specs.Faults.{plan_fault};
ghost use Rattle.gs_plan.specs.Plans.{text_of};
ghost use Rattle.gs_cli.specs.Words.{number_within};
ghost use Rattle.gs_inputs.specs.Plans.{accepted, base_from, node_refused, parsed, plan_in, refused, text_from};
ghost use Rattle.gs_inputs.specs.SourceSeen.{source_in};
ghost use Rattle.gs_cli.specs.Reply.{answer_in};
ghost use Rattle.gs_cli.specs.Stops.{StopsAt, StopsWith};

use crate::source::Source;
use gs_cli::{Reply, Status, Stop, number_within};
use gs_plan::{Plan, PlanFault};
use gs_planfile::{PlanFileFault, PlanText};
use std::alloc::{AllocError, Global};

/// A plan that is refused for this.
fn refusal(alloc: Global, why: &str) -> Stop
    ensures { StopsWith (λ answer. answer ≡ refused why.now) result }
{
    Stop::refused(alloc, Status::PlanRefused, "plan refused: ", why)
}

/// The text of a built-in plan.
fn base_text(alloc: Global, count: &str) -> Result<PlanText, Stop>
    ensures ok { IfOk result (λ text. base_from (number_within 0 (2 ^ 32 - 1) count.now) ≡ Ok text) }
    ensures text { IfOk result IsText }
    ensures err { IfErr result (StopsAt (base_from (number_within 0 (2 ^ 32 - 1) count.now))) }
{
    match number_within(count, 0, u64::from(u32::MAX)) {
        Some(n) => Ok(gs_planfile::base(alloc, n as u32)),
        None => Err(refusal(alloc, "number")),
    }
}

/// The text of a plan file's bytes.
fn parsed(alloc: Global, bytes: &[u8]) -> Result<PlanText, Stop>
    ensures ok { IfOk result (λ text. parsed (plan_of bytes.now) ≡ Ok text) }
    ensures text { IfOk result IsText }
    ensures err { IfErr result (StopsAt (parsed (plan_of bytes.now))) }
{
    match gs_planfile::read_plan(alloc, bytes) {
        Ok(text) => Ok(text),
        Err(PlanFileFault::OutOfMemory) => Err(Stop::OutOfMemory),
        Err(fault) => {
            let why = fault.to_string(alloc)?;
            Err(refusal(alloc, why.as_str()))
        }
    }
}

/// The text that was read.
fn text_from(alloc: Global, source: &Source<'_>) -> Result<PlanText, Stop>
    ensures ok { IfOk result (λ text. text_from (source_in source.now) ≡ Ok text) }
    ensures text { IfOk result IsText }
    ensures err { IfErr result (StopsAt (text_from (source_in source.now))) }
{
    match source {
        Source::Count(count) => base_text(alloc, count),
        Source::Text(bytes) => parsed(alloc, bytes),
    }
}

/// The plan of a text.
fn checked(alloc: Global, text: &PlanText) -> Result<Plan, Stop>
    ensures ok { IfOk result (λ plan. (accepted text.now (plan_fault text.now) ≡ Ok text.now)
        × (text_of plan ≡ text.now)) }
    ensures err { IfErr result (StopsAt (accepted text.now (plan_fault text.now))) }
{
    match gs_plan::check(alloc, text) {
        Ok(plan) => Ok(plan),
        Err(PlanFault::OutOfMemory) => Err(Stop::OutOfMemory),
        Err(fault) => {
            let why = fault.to_string(alloc)?;
            Err(refusal(alloc, why.as_str()))
        }
    }
}

/// The accepted plan that was read, or its first fault.
pub fn plan_in(alloc: Global, source: &Source<'_>) -> Result<Plan, Stop>
    ensures ok { IfOk result (λ plan. plan_in (source_in source.now) ≡ Ok (text_of plan)) }
    ensures text { IfOk result (λ plan. IsText (text_of plan)) }
    ensures err { IfErr result (StopsAt (plan_in (source_in source.now))) }
{
    let text = text_from(alloc, source)?;
    checked(alloc, &text)
}

/// The line of a number that no node of the plan has.
pub fn node_refusal(alloc: Global, node: u32) -> Result<Reply, AllocError>
    ensures { IfOk result (λ reply. answer_in reply ≡ node_refused node) }
{
    let number = node.to_string(alloc)?;
    Reply::line_of(
        alloc,
        Status::InputRefused,
        "node refused: ",
        number.as_str(),
    )
}
