//! The command `trace`, whose answer is written as it comes: `docs/FORMATS.md`, "Commands" and "The trace of
//! a world".

ghost use Rattle.std.specs.Prelude.{◌≡◌, true};
ghost use Rattle.gs_plan.specs.Plans.{text_of};
ghost use Rattle.gs_inputs.specs.Sources.{are_built_in, seen};
ghost use Rattle.gs_tool.specs.Traced.{IsTraceEnd, TraceRuns, traced};

use gs_cli::{Status, Stop};
use gs_inputs::read_inputs;
use gs_io::{Files, Sink};
use gs_plan::Plan;
use gs_record::{RecordStop, record_script};
use gs_script::Script;
use std::alloc::Global;

/// Does `trace PLAN SCRIPT`.
pub(crate) fn trace<F: Files, K: Sink>(
    alloc: Global,
    plan: &str,
    script: &str,
    files: &mut F,
    out: &mut K,
) -> Status
    ensures runs { TraceRuns (seen (F.content files.old) (F.faults files.old) (F.faults files.new))
        plan.now script.now (K.bytes out.old) (K.bytes out.new) (K.faults out.old) (K.faults out.new) result }
    ensures untouched { are_built_in plan.now script.now ≡ true → files.new ≡ files.old }
{
    match read_inputs(alloc, files, plan, script) {
        Ok(inputs) => write_trace(alloc, &inputs.plan, &inputs.script, out),
        Err(Stop::Refused(reply)) => reply.write(out),
        Err(Stop::OutOfMemory) => Status::OutOfMemory,
    }
}

/// Writes the trace of a script for an accepted plan.
fn write_trace<K: Sink>(alloc: Global, plan: &Plan, script: &Script, out: &mut K) -> Status
    requires { script.now.text ≡ text_of plan.now }
    ensures { IsTraceEnd (traced plan.now script.now) (K.bytes out.old) (K.bytes out.new)
        (K.faults out.old) (K.faults out.new) result }
{
    match record_script(alloc, plan, script, out) {
        Ok(()) => Status::Done,
        Err(RecordStop::Breach) => Status::Breach,
        Err(RecordStop::Failed) => Status::WriteFault,
        Err(RecordStop::OutOfMemory) => Status::OutOfMemory,
    }
}
