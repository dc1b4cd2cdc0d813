//! The command `settle`: `docs/FORMATS.md`, "Commands".

ghost use Rattle.std.specs.Prelude.{◌≡◌, ◌≤◌, ◌^◌, IfOk, true};
ghost use Rattle.gs_plan.specs.Plans.{text_of};
ghost use Rattle.gs_cli.specs.Reply.{answer_in};
ghost use Rattle.gs_cli.specs.Stops.{EndsWith};
ghost use Rattle.gs_inputs.specs.Inputs.{IsAnswerOver};
ghost use Rattle.gs_tool.specs.Runs.{IsTold};
ghost use Rattle.gs_tool.specs.Settled.{settled};
ghost use Rattle.gs_inputs.specs.Sources.{are_built_in, seen};

use crate::answers::stopped;
use crate::settle_text::settled_text;
use gs_cli::{Reply, Status, Stop};
use gs_inputs::read_inputs;
use gs_io::Files;
use gs_plan::Plan;
use gs_script::Script;
use std::alloc::{AllocError, Global};

/// The answer to `settle PLAN SCRIPT GAMMA`.
pub(crate) fn settle_answer<F: Files>(
    alloc: Global,
    files: &mut F,
    plan: &str,
    script: &str,
    gamma: u64,
) -> Result<Reply, Stop>
    requires { gamma ≤ 2 ^ 61 }
    ensures answer { EndsWith
        (IsAnswerOver (seen (F.content files.old) (F.faults files.old) (F.faults files.new))
        plan.now script.now (IsTold (settled gamma)))
        result }
    ensures untouched { are_built_in plan.now script.now ≡ true → files.new ≡ files.old }
{
    let inputs = read_inputs(alloc, files, plan, script)?;
    Ok(settled(alloc, &inputs.plan, &inputs.script, gamma)?)
}

/// The answer over accepted inputs.
#[tactic(auto, using(crate::proofs::SettleTexts::settling))]
fn settled(alloc: Global, plan: &Plan, script: &Script, gamma: u64) -> Result<Reply, AllocError>
    requires gamma { gamma ≤ 2 ^ 61 }
    requires script { script.now.text ≡ text_of plan.now }
    ensures { IfOk result (λ reply. IsTold (settled gamma) plan.now script.now (answer_in reply)) }
{
    match gs_settle::settle(alloc, plan, script, gamma) {
        Ok(settled) => {
            let text = settled_text(alloc, plan, script.quanta(), gamma, &settled)?;
            Ok(Reply::Text(Status::Done, text))
        }
        Err(stop) => stopped(alloc, &stop),
    }
}
