//! The inputs of a command on a plan and a trace, read in the order of the words. See `docs/FORMATS.md`,
//! "Statuses".

ghost use Rattle.std.specs.Prelude.{IfOk, IfErr};
ghost use Rattle.gs_inputs.specs.Inputs.{IsPlan};
ghost use Rattle.gs_inputs.specs.Sources.{seen};
ghost use Rattle.gs_tool.specs.TraceInputs.{AreNoTraceInputs, IsTrace};
ghost use Rattle.gs_cli.specs.Stops.{StopsWith};

use gs_cli::Stop;
use gs_inputs::{Kind, plan_in, read_file, read_source};
use gs_io::Files;
use gs_plan::Plan;
use std::alloc::Global;

/// The most bytes of a trace.
const MOST_TRACE_BYTES: u64 = 67_108_864;

/// An accepted plan and the bytes of a trace, which nobody has looked into.
#[derive(Drop)]
pub(crate) struct PlanAndTrace {
    pub(crate) plan: Plan,
    pub(crate) bytes: Vec<u8>,
}

/// The plan and the bytes of the trace that two words name. Both are read before the plan is looked into.
pub(crate) fn read_plan_and_trace<F: Files>(
    alloc: Global,
    files: &mut F,
    plan: &str,
    trace: &str,
) -> Result<PlanAndTrace, Stop>
    ensures plan { IfOk result (λ inputs.
        IsPlan (seen (F.content files.old) (F.faults files.old) (F.faults files.new)) plan.now inputs.plan) }
    ensures trace { IfOk result (λ inputs.
        IsTrace (seen (F.content files.old) (F.faults files.old) (F.faults files.new)) trace.now inputs.bytes.items) }
    ensures err { IfErr result (StopsWith (AreNoTraceInputs
        (seen (F.content files.old) (F.faults files.old) (F.faults files.new)) plan.now trace.now)) }
{
    let source = read_source(alloc, files, Kind::Plan, plan)?;
    let bytes = read_file(alloc, files, trace, MOST_TRACE_BYTES)?;
    let plan = plan_in(alloc, &source)?;
    Ok(PlanAndTrace { plan, bytes })
}
