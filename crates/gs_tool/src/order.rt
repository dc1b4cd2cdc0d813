//! The command `order`: `docs/FORMATS.md`, "Commands".

ghost use Rattle.std.specs.Prelude.{◌≡◌, ◌≤◌, IfOk, true};
ghost use Rattle.gs_plan.specs.Plans.{text_of};
ghost use Rattle.gs_cli.specs.Reply.{answer_in};
ghost use Rattle.gs_cli.specs.Stops.{EndsWith};
ghost use Rattle.gs_inputs.specs.Inputs.{IsAnswerOver};
ghost use Rattle.gs_tool.specs.Orders.{ordered};
ghost use Rattle.gs_tool.specs.Runs.{IsTold};
ghost use Rattle.gs_inputs.specs.Sources.{are_built_in, seen};

use crate::answers::stopped;
use crate::order_text::order_text;
use gs_cli::{Reply, Status, Stop};
use gs_inputs::read_inputs;
use gs_io::Files;
use gs_plan::Plan;
use gs_script::Script;
use std::alloc::{AllocError, Global};

/// The answer to `order PLAN SCRIPT EVERY`.
pub(crate) fn order_answer<F: Files>(
    alloc: Global,
    files: &mut F,
    plan: &str,
    script: &str,
    every: u32,
) -> Result<Reply, Stop>
    requires { 1 ≤ every }
    ensures answer { EndsWith
        (IsAnswerOver (seen (F.content files.old) (F.faults files.old) (F.faults files.new))
        plan.now script.now (IsTold (ordered every)))
        result }
    ensures untouched { are_built_in plan.now script.now ≡ true → files.new ≡ files.old }
{
    let inputs = read_inputs(alloc, files, plan, script)?;
    Ok(ordered(alloc, &inputs.plan, &inputs.script, every)?)
}

/// The answer over accepted inputs.
#[tactic(auto, using(crate::proofs::OrderTexts::ordering))]
fn ordered(alloc: Global, plan: &Plan, script: &Script, every: u32) -> Result<Reply, AllocError>
    requires every { 1 ≤ every }
    requires script { script.now.text ≡ text_of plan.now }
    ensures { IfOk result (λ reply. IsTold (ordered every) plan.now script.now (answer_in reply)) }
{
    match gs_order::order_run(alloc, plan, script, every) {
        Ok(events) => {
            let text = order_text(alloc, plan, script, &events)?;
            Ok(Reply::Text(Status::Done, text))
        }
        Err(stop) => stopped(alloc, &stop),
    }
}
