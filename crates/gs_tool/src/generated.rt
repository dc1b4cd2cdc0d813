//! The answers to `gen`: `docs/FORMATS.md`, "Generated runs".

ghost use Rattle.std.specs.Prelude.{◌≡◌, IfOk, IfErr};
ghost use Rattle.gs_plan.specs.Plans.{text_of};
ghost use Rattle.gs_gen.specs.Texts.{plan_text, script_text};
ghost use Rattle.gs_cli.specs.Stops.{EndsWith, StopsWith};
ghost use Rattle.gs_tool.specs.Generated.{AreAccepted, IsAnswerOf, IsGenerated, IsRefusal};
ghost use Rattle.gs_tool.specs.Runs.{IsTold, played};

use crate::answers::played;
use crate::command::Part;
use gs_cli::{Reply, Status, Stop};
use gs_inputs::{Inputs, Source, accepted};
use gs_io::Gate;
use std::alloc::Global;
use std::thread::Threads;

/// Who plays a generated script.
const WORKERS: u32 = 4;

/// The answer to `gen NUMBER SIZE PART`.
pub(crate) fn generated<R: Threads + Sync, G: Gate>(
    rt: &R,
    alloc: Global,
    number: u64,
    size: u32,
    part: Part,
    gate: &G,
) -> Result<Reply, Stop>
    ensures { EndsWith (IsGenerated number size part (IsTold played)) result }
{
    match part {
        Part::Plan => Ok(Reply::Text(Status::Done, gs_gen::plan_text(alloc, size)?)),
        Part::Script => Ok(Reply::Text(Status::Done, gs_gen::script_text(alloc, number, size)?)),
        Part::Run => generated_play(rt, alloc, number, size, gate),
    }
}

/// The play of a generated script on its plan.
fn generated_play<R: Threads + Sync, G: Gate>(
    rt: &R,
    alloc: Global,
    number: u64,
    size: u32,
    gate: &G,
) -> Result<Reply, Stop>
    ensures { EndsWith (IsAnswerOf (plan_text size) (script_text number size) (IsTold played)) result }
{
    let inputs = generated_inputs(alloc, number, size)?;
    Ok(played(rt, alloc, &inputs.plan, &inputs.script, WORKERS, gate)?)
}

/// A generated plan and its script, which are read from their texts as from files.
fn generated_inputs(alloc: Global, number: u64, size: u32) -> Result<Inputs, Stop>
    ensures ok { IfOk result (λ inputs.
        AreAccepted (plan_text size) (script_text number size) (text_of inputs.plan) inputs.script) }
    ensures text { IfOk result (λ inputs. inputs.script.text ≡ text_of inputs.plan) }
    ensures err { IfErr result (StopsWith (IsRefusal (plan_text size) (script_text number size))) }
{
    let plan = gs_gen::plan_text(alloc, size)?;
    let script = gs_gen::script_text(alloc, number, size)?;
    let plan = Source::Text(plan.bytes().to_vec(alloc)?);
    let script = Source::Text(script.bytes().to_vec(alloc)?);
    accepted(alloc, &plan, &script)
}
