//! The answers to the commands, over inputs that were accepted: `docs/FORMATS.md`, "Commands", "The text of
//! a plan" and "The text of a report".

ghost use Rattle.std.specs.Prelude.{◌≡◌, ◌≢◌, ◌≤◌, IfOk, OnOk};
ghost use Rattle.gs_planfile.specs.Texts.{IsText};
ghost use Rattle.gs_plan.specs.Plans.{text_of};
ghost use Rattle.gs_calendar.specs.StopTexts.{stop_text};
ghost use Rattle.gs_cli.specs.Answers.{line};
ghost use Rattle.gs_cli.specs.Reply.{answer_in};
ghost use Rattle.gs_tool.specs.Runs.{IsMigrated, IsPlanned, IsTold, played};

use crate::plan_text::plan_text;
use gs_cli::{Reply, Status};
use gs_io::Gate;
use gs_plan::Plan;
use gs_play::PlayStop;
use gs_script::Script;
use gs_text::Lines;
use std::alloc::{AllocError, Global};
use std::thread::Threads;

/// The answer to `plan`.
pub(crate) fn planned(alloc: Global, plan: &Plan) -> Result<Reply, AllocError>
    ensures { IfOk result (λ reply. IsPlanned plan.now (answer_in reply)) }
{
    Ok(Reply::Text(Status::Done, plan_text(alloc, plan)?))
}

/// The answer to `migrate`.
pub(crate) fn migrated(alloc: Global, plan: &Plan) -> Result<Reply, AllocError>
    requires { IsText (text_of plan.now) }
    ensures { IfOk result (λ reply. IsMigrated plan.now (answer_in reply)) }
{
    Ok(Reply::File(gs_planfile::migrate(alloc, plan.text())?))
}

/// The answer to `play`.
#[tactic(auto, using(crate::proofs::Playing::playing))]
pub(crate) fn played<R: Threads + Sync, G: Gate>(
    rt: &R,
    alloc: Global,
    plan: &Plan,
    script: &Script,
    workers: u32,
    gate: &G,
) -> Result<Reply, AllocError>
    requires workers { (1 ≤ workers) × (workers ≤ 64) }
    requires script { script.now.text ≡ text_of plan.now }
    ensures { IfOk result (λ reply. IsTold played plan.now script.now (answer_in reply)) }
{
    match gs_play::play(rt, alloc, plan, script, workers, gate) {
        Ok(report) => Ok(Reply::Text(Status::Done, report.text(alloc, plan)?)),
        Err(stop) => stopped(alloc, &stop),
    }
}

/// The answer to a command whose play stops: the line of the breach.
pub(crate) fn stopped(alloc: Global, stop: &PlayStop) -> Result<Reply, AllocError>
    ensures line { IfOk result (λ reply. answer_in reply ≡ line Status.Breach (stop_text stop.now)) }
    ensures stale { OnOk result (stop.now ≢ PlayStop.OutOfMemory) }
{
    match stop {
        PlayStop::OutOfMemory => Err(AllocError),
        PlayStop::Stale { .. } => breach_line(alloc, stop),
    }
}

/// The line that a play stops with.
fn breach_line(alloc: Global, stop: &PlayStop) -> Result<Reply, AllocError>
    ensures { IfOk result (λ reply. answer_in reply ≡ line Status.Breach (stop_text stop.now)) }
{
    let words = stop.to_string(alloc)?;
    let mut text = Lines::new(alloc);
    text.word(words.as_str())?;
    text.end()?;
    Ok(Reply::Text(Status::Breach, text))
}
