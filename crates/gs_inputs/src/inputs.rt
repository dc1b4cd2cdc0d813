//! The inputs of a command: a plan, or a plan and a script for it, read and accepted before the command
//! does its own work. See `docs/FORMATS.md`, "Statuses", for the order.

ghost use Rattle.std.specs.Prelude.{◌≡◌, IfOk, IfErr, Ok, true};
ghost use Rattle.gs_planfile.specs.Texts.{IsText};
ghost use Rattle.gs_plan.specs.Plans.{text_of};
ghost use Rattle.gs_inputs.specs.Inputs.{AreNoInputs, IsNoPlan, IsPlan, IsScriptFor};
ghost use Rattle.gs_inputs.specs.Plans.{plan_in};
ghost use Rattle.gs_inputs.specs.Scripts.{script_in};
ghost use Rattle.gs_inputs.specs.SourceSeen.{AreRefused, source_in};
ghost use Rattle.gs_inputs.specs.Sources.{are_built_in, is_built_in, seen};
ghost use Rattle.gs_cli.specs.Stops.{StopsWith};

use crate::plans::plan_in;
use crate::scripts::script_in;
use crate::source::{Kind, Source, read_source};
use gs_cli::Stop;
use gs_io::Files;
use gs_plan::Plan;
use gs_script::Script;
use std::alloc::Global;

/// An accepted plan and a script for it.
#[derive(Drop)]
pub struct Inputs {
    pub plan: Plan,
    pub script: Script,
}

/// The accepted plan that a word names, or what refuses it: its file, or its first fault.
pub fn read_plan<F: Files>(alloc: Global, files: &mut F, word: &str) -> Result<Plan, Stop>
    ensures ok { IfOk result
        (IsPlan (seen (F.content files.old) (F.faults files.old) (F.faults files.new)) word.now) }
    ensures text { IfOk result (λ plan. IsText (text_of plan)) }
    ensures err { IfErr result (StopsWith
        (IsNoPlan (seen (F.content files.old) (F.faults files.old) (F.faults files.new)) word.now)) }
    ensures untouched { is_built_in Kind.Plan word.now ≡ true → files.new ≡ files.old }
{
    let source = read_source(alloc, files, Kind::Plan, word)?;
    plan_in(alloc, &source)
}

/// The plan and the script that two words name, or the first that refuses them, in this order: the plan's file,
/// the script's file, the plan, the script. Both are read before either is looked into.
pub fn read_inputs<F: Files>(
    alloc: Global,
    files: &mut F,
    plan: &str,
    script: &str,
) -> Result<Inputs, Stop>
    ensures plan { IfOk result (λ inputs.
        IsPlan (seen (F.content files.old) (F.faults files.old) (F.faults files.new)) plan.now inputs.plan) }
    ensures script { IfOk result (λ inputs. IsScriptFor
        (seen (F.content files.old) (F.faults files.old) (F.faults files.new)) script.now inputs.plan inputs.script) }
    ensures text { IfOk result (λ inputs. inputs.script.text ≡ text_of inputs.plan) }
    ensures err { IfErr result (StopsWith (AreNoInputs
        (seen (F.content files.old) (F.faults files.old) (F.faults files.new)) plan.now script.now)) }
    ensures untouched { are_built_in plan.now script.now ≡ true → files.new ≡ files.old }
{
    let plan = read_source(alloc, files, Kind::Plan, plan)?;
    let script = read_source(alloc, files, Kind::Script, script)?;
    accepted(alloc, &plan, &script)
}

/// The plan and the script of what was read, or what refuses the plan or, where it is accepted, the script.
pub fn accepted(alloc: Global, plan: &Source<'_>, script: &Source<'_>) -> Result<Inputs, Stop>
    ensures plan { IfOk result (λ inputs. plan_in (source_in plan.now) ≡ Ok (text_of inputs.plan)) }
    ensures script { IfOk result (λ inputs.
        script_in (text_of inputs.plan) (source_in script.now) ≡ Ok inputs.script) }
    ensures text { IfOk result (λ inputs. inputs.script.text ≡ text_of inputs.plan) }
    ensures err { IfErr result (StopsWith (AreRefused (source_in plan.now) (source_in script.now))) }
{
    let plan = plan_in(alloc, plan)?;
    let script = script_in(alloc, script, &plan)?;
    Ok(Inputs { plan, script })
}
