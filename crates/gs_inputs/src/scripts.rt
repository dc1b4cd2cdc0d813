//! The script of what a SCRIPT word was read as: `docs/FORMATS.md`, "Commands", "Script file" and "Fault
//! lines".

ghost use Rattle.std.specs.Prelude.{◌≡◌, ◌-◌, ◌^◌, IfOk, IfErr, Ok};
ghost use Rattle.gs_plan.specs.Plans.{text_of};
ghost use Rattle.gs_script.specs.FaultWords.{why_of};
ghost use Rattle.gs_script.specs.Reading.{script_of};
ghost use Rattle.gs_cli.specs.Words.{number_within};
ghost use Rattle.gs_inputs.specs.Scripts.{said_from, script_in, script_refused, steady_from};
ghost use Rattle.gs_inputs.specs.SourceSeen.{source_in};
ghost use Rattle.gs_cli.specs.Stops.{StopsAt, StopsWith};

use crate::source::Source;
use gs_cli::{Status, Stop, number_within};
use gs_plan::Plan;
use gs_script::{Script, ScriptFault};
use std::alloc::{AllocError, Global};

/// A script that is refused for this.
fn refusal(alloc: Global, why: &str) -> Stop
    ensures { StopsWith (λ answer. answer ≡ script_refused why.now) result }
{
    Stop::refused(alloc, Status::InputRefused, "script refused: ", why)
}

/// A script that is refused with this fault.
fn refused_with(alloc: Global, fault: &ScriptFault) -> Stop
    ensures { StopsWith (λ answer. answer ≡ script_refused (why_of fault.now)) result }
{
    match fault.to_string(alloc) {
        Ok(why) => refusal(alloc, why.as_str()),
        Err(AllocError) => Stop::OutOfMemory,
    }
}

/// The script of so many quanta without a record.
fn steady(alloc: Global, count: &str, plan: &Plan) -> Result<Script, Stop>
    ensures ok { IfOk result (λ script.
        steady_from (text_of plan.now) (number_within 0 (2 ^ 64 - 1) count.now) ≡ Ok script) }
    ensures text { IfOk result (λ script. script.text ≡ text_of plan.now) }
    ensures err { IfErr result (StopsAt (steady_from (text_of plan.now) (number_within 0 (2 ^ 64 - 1) count.now))) }
{
    let Some(quanta) = number_within(count, 0, u64::MAX) else {
        return Err(refusal(alloc, "number 1"));
    };
    match Script::steady(alloc, quanta, plan) {
        Ok(script) => Ok(script),
        Err(ScriptFault::OutOfMemory) => Err(Stop::OutOfMemory),
        Err(fault) => Err(refused_with(alloc, &fault)),
    }
}

/// The script of a file's bytes.
fn scripted(alloc: Global, bytes: &[u8], plan: &Plan) -> Result<Script, Stop>
    ensures ok { IfOk result (λ script. said_from (script_of (text_of plan.now) bytes.now) ≡ Ok script) }
    ensures text { IfOk result (λ script. script.text ≡ text_of plan.now) }
    ensures err { IfErr result (StopsAt (said_from (script_of (text_of plan.now) bytes.now))) }
{
    match gs_script::read_script(alloc, bytes, plan) {
        Ok(script) => Ok(script),
        Err(ScriptFault::OutOfMemory) => Err(Stop::OutOfMemory),
        Err(fault) => Err(refused_with(alloc, &fault)),
    }
}

/// The script that was read for this plan, or its first fault.
pub(crate) fn script_in(alloc: Global, source: &Source<'_>, plan: &Plan) -> Result<Script, Stop>
    ensures ok { IfOk result (λ script. script_in (text_of plan.now) (source_in source.now) ≡ Ok script) }
    ensures text { IfOk result (λ script. script.text ≡ text_of plan.now) }
    ensures err { IfErr result (StopsAt (script_in (text_of plan.now) (source_in source.now))) }
{
    match source {
        Source::Count(count) => steady(alloc, count, plan),
        Source::Text(bytes) => scripted(alloc, bytes, plan),
    }
}
