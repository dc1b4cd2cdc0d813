ghost use Rattle.std.specs.Prelude.{◌≡◌, ◌≤◌, ◌⊎◌, map, string_bytes, true, false, Some, None, IsOk, IfOk};
ghost use Rattle.gs_tool.specs.Commands.{IsInRange, command_of, is_trace};
ghost use Rattle.gs_tool.specs.inside.Meaning.{meaning};
ghost use Rattle.gs_tool.specs.Completeness.{Completes};
ghost use Rattle.gs_tool.specs.AuditHeadline.{AuditsKeepBounds};
ghost use Rattle.gs_tool.specs.AuditsComplete.{AuditsComplete};
ghost use Rattle.gs_tool.specs.Headline.{PlaysKeepBounds};
ghost use Rattle.gs_tool.specs.OrdersAgree.{OrdersAgree};
ghost use Rattle.gs_cli.specs.Reply.{answer_in};
ghost use Rattle.gs_inputs.specs.Inputs.{IsAnswerOn, IsAnswerOver};
ghost use Rattle.gs_tool.specs.Runs.{IsAnswer, IsCommandAnswer, IsMigrated, IsPlanned, IsTold, played};
ghost use Rattle.gs_tool.specs.Runs.{Runs, names_no_file};
ghost use Rattle.gs_inputs.specs.Sources.{are_built_in, is_built_in, seen};
ghost use Rattle.gs_cli.specs.Stops.{EndsWith};

use crate::answers::{migrated, planned, played};
use crate::audited::{audit_answer, replay_answer};
use crate::command::{Command, command_of};
use crate::generated::generated;
use crate::order::order_answer;
use crate::settle::settle_answer;
use crate::slots::slots_answer;
use crate::tracing::trace;
use gs_cli::{Reply, Status, Stop};
use gs_inputs::{Kind, read_inputs, read_plan};
use gs_io::{Files, Gate, Sink};
use std::alloc::Global;
use std::thread::Threads;

const USAGE: &str = "usage: gradsync plan, play, trace, audit, replay, gen or node\n";

/// Does what the words of a command line ask for, and writes the answer to `out`: a text one line a
/// write, a file in one, a trace its head and each event in one. It waits for nobody. See
/// `docs/FORMATS.md`, "Commands", "Statuses" and "Fault lines".
pub fn run_tool<R: Threads + Sync, F: Files, K: Sink, G: Gate>(
    rt: &R,
    alloc: Global,
    words: &[String],
    files: &mut F,
    out: &mut K,
    gate: &G,
) -> Status
    ensures runs { Runs (seen (F.content files.old) (F.faults files.old) (F.faults files.new))
        (map string_bytes words.now) (K.bytes out.old) (K.bytes out.new) (K.faults out.old) (K.faults out.new) result }

    // With accepted inputs, no breach and no fault of the outside, the job is done or memory was short.
    ensures completes { Completes (seen (F.content files.old) (F.faults files.old) (F.faults files.new))
        (map string_bytes words.now) (K.faults out.old) (K.faults out.new) result }

    // A play that is done keeps the bounds of its plan, and so does its report.
    ensures bounds { PlaysKeepBounds (seen (F.content files.old) (F.faults files.old) (F.faults files.new))
        (map string_bytes words.now) (K.bytes out.old) (K.bytes out.new) result }

    // The events of an order that is done have stamps that agree with their order.
    ensures orders { OrdersAgree (seen (F.content files.old) (F.faults files.old) (F.faults files.new))
        (map string_bytes words.now) (K.bytes out.old) (K.bytes out.new) result }

    // So it is with the audit and the replay of a trace.
    ensures audits_complete { AuditsComplete (seen (F.content files.old) (F.faults files.old) (F.faults files.new))
        (map string_bytes words.now) (K.faults out.old) (K.faults out.new) result }
    ensures audits { AuditsKeepBounds (seen (F.content files.old) (F.faults files.old) (F.faults files.new))
        (map string_bytes words.now) (K.bytes out.old) (K.bytes out.new) result }

    ensures untouched { names_no_file (command_of (map string_bytes words.now)) ≡ true → files.new ≡ files.old }

    // Words that are no command need no memory.
    ensures usage { command_of (map string_bytes words.now) ≡ None
        → (result ≡ Status.Usage) ⊎ (result ≡ Status.WriteFault) }
{
    if let Some(Command::Trace { plan, script }) = command_of(words) {
        return trace(alloc, plan, script, files, out);
    }
    match answer(rt, alloc, words, files, gate) {
        Ok(reply) => reply.write(out),
        Err(Stop::Refused(reply)) => reply.write(out),
        Err(Stop::OutOfMemory) => Status::OutOfMemory,
    }
}

/// The answer to the words of a command line, but for a trace, which is written as it comes.
fn answer<R: Threads + Sync, F: Files, G: Gate>(
    rt: &R,
    alloc: Global,
    words: &[String],
    files: &mut F,
    gate: &G,
) -> Result<Reply, Stop>
    requires { is_trace (command_of (map string_bytes words.now)) ≡ false }
    ensures answer { EndsWith
        (IsAnswer (seen (F.content files.old) (F.faults files.old) (F.faults files.new)) (map string_bytes words.now))
        result }
    ensures untouched { names_no_file (command_of (map string_bytes words.now)) ≡ true → files.new ≡ files.old }
    ensures usage { command_of (map string_bytes words.now) ≡ None
        → IfOk result (λ reply. (answer_in reply).status ≡ Status.Usage) × IsOk result }
{
    match command_of(words) {
        None => Ok(Reply::Line(Status::Usage, USAGE)),
        Some(command) => answer_to(rt, alloc, command, files, gate),
    }
}

/// The answer to a command that is no trace.
fn answer_to<R: Threads + Sync, F: Files, G: Gate>(
    rt: &R,
    alloc: Global,
    command: Command<'_>,
    files: &mut F,
    gate: &G,
) -> Result<Reply, Stop>
    requires range { IsInRange (meaning command) }
    requires no_trace { is_trace (Some (meaning command)) ≡ false }
    ensures answer { EndsWith
        (IsCommandAnswer (seen (F.content files.old) (F.faults files.old) (F.faults files.new))
        (Some (meaning command.entry)))
        result }
    ensures untouched { names_no_file (Some (meaning command.entry)) ≡ true → files.new ≡ files.old }
{
    match command {
        Command::Plan { plan } => plan_answer(alloc, files, plan),
        Command::Migrate { plan } => migrate_answer(alloc, files, plan),
        Command::Play {
            plan,
            script,
            workers,
        } => play_answer(rt, alloc, files, plan, script, workers, gate),
        Command::Order {
            plan,
            script,
            every,
        } => order_answer(alloc, files, plan, script, every),
        Command::Settle {
            plan,
            script,
            gamma,
        } => settle_answer(alloc, files, plan, script, gamma),
        Command::Slots {
            plan,
            script,
            reach,
            slot,
        } => slots_answer(alloc, files, plan, script, reach, slot),
        Command::Audit { plan, trace } => audit_answer(alloc, files, plan, trace),
        Command::Replay { plan, node, trace } => replay_answer(alloc, files, plan, node, trace),
        Command::Gen { number, size, part } => generated(rt, alloc, number, size, part, gate),
        Command::Trace { .. } => unreachable!(),
    }
}

/// The answer to `plan PLAN`.
fn plan_answer<F: Files>(alloc: Global, files: &mut F, word: &str) -> Result<Reply, Stop>
    ensures answer { EndsWith
        (IsAnswerOn (seen (F.content files.old) (F.faults files.old) (F.faults files.new)) word.now IsPlanned)
        result }
    ensures untouched { is_built_in Kind.Plan word.now ≡ true → files.new ≡ files.old }
{
    let plan = read_plan(alloc, files, word)?;
    Ok(planned(alloc, &plan)?)
}

/// The answer to `migrate PLAN`.
fn migrate_answer<F: Files>(alloc: Global, files: &mut F, word: &str) -> Result<Reply, Stop>
    ensures answer { EndsWith
        (IsAnswerOn (seen (F.content files.old) (F.faults files.old) (F.faults files.new)) word.now IsMigrated)
        result }
    ensures untouched { is_built_in Kind.Plan word.now ≡ true → files.new ≡ files.old }
{
    let plan = read_plan(alloc, files, word)?;
    Ok(migrated(alloc, &plan)?)
}

/// The answer to `play PLAN SCRIPT WORKERS`.
fn play_answer<R: Threads + Sync, F: Files, G: Gate>(
    rt: &R,
    alloc: Global,
    files: &mut F,
    plan: &str,
    script: &str,
    workers: u32,
    gate: &G,
) -> Result<Reply, Stop>
    requires workers { (1 ≤ workers) × (workers ≤ 64) }
    ensures answer { EndsWith
        (IsAnswerOver (seen (F.content files.old) (F.faults files.old) (F.faults files.new))
        plan.now script.now (IsTold played))
        result }
    ensures untouched { are_built_in plan.now script.now ≡ true → files.new ≡ files.old }
{
    let inputs = read_inputs(alloc, files, plan, script)?;
    Ok(played(rt, alloc, &inputs.plan, &inputs.script, workers, gate)?)
}
