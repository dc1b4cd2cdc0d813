//! The answers to `audit` and `replay`: `docs/FORMATS.md`, "Commands" and "Fault lines".

ghost use Rattle.std.specs.Prelude.{◌≡◌, ◌++◌, IfOk, codes, decimal, length, string_bytes};
ghost use Rattle.gs_units.specs.Params.{AreValid};
ghost use Rattle.gs_cli.specs.Reply.{answer_in};
ghost use Rattle.gs_cli.specs.Stops.{EndsWith};
ghost use Rattle.gs_tool.specs.Audited.{IsAudited, IsReplayOf, IsReplayed, audit_answer, mode_word};
ghost use Rattle.gs_tool.specs.Audited.{refused_at, replay_answer, trace_refused};
ghost use Rattle.gs_tool.specs.inside.AuditSeen.{HasLevels};
ghost use Rattle.gs_inputs.specs.Sources.{seen};
ghost use Rattle.gs_tool.specs.TraceInputs.{IsAnswerAlong};

use crate::trace_input::read_plan_and_trace;
use gs_audit::{NodeVerdict, Verdict, audit_scan, replay_scan};
use gs_cli::{Reply, Status, Stop};
use gs_inputs::node_refusal;
use gs_io::Files;
use gs_plan::Plan;
use gs_trace::{NodeScan, TraceFault, scan_node, scan_world};
use gs_units::{Mode, NodeParams};
use std::alloc::{AllocError, Global};

/// The answer to `audit PLAN TRACE`.
pub(crate) fn audit_answer<F: Files>(
    alloc: Global,
    files: &mut F,
    plan: &str,
    trace: &str,
) -> Result<Reply, Stop>
    ensures { EndsWith (IsAnswerAlong
        (seen (F.content files.old) (F.faults files.old) (F.faults files.new)) plan.now trace.now IsAudited) result }
{
    let inputs = read_plan_and_trace(alloc, files, plan, trace)?;
    Ok(audited(alloc, &inputs.plan, &inputs.bytes)?)
}

/// The answer to `replay PLAN NODE TRACE`.
pub(crate) fn replay_answer<F: Files>(
    alloc: Global,
    files: &mut F,
    plan: &str,
    node: u32,
    trace: &str,
) -> Result<Reply, Stop>
    ensures { EndsWith (IsAnswerAlong
        (seen (F.content files.old) (F.faults files.old) (F.faults files.new)) plan.now trace.now (IsReplayed node))
        result }
{
    let inputs = read_plan_and_trace(alloc, files, plan, trace)?;
    Ok(replayed(alloc, &inputs.plan, node, &inputs.bytes)?)
}

/// The verdict on the trace of a world in these bytes, which is read in place.
#[tactic(auto, using(crate::proofs::TraceAnswers::answering))]
fn audited(alloc: Global, plan: &Plan, bytes: &[u8]) -> Result<Reply, AllocError>
    ensures { IfOk result (λ reply. IsAudited plan.now bytes.now (answer_in reply)) }
{
    match scan_world(alloc, bytes, plan) {
        Ok((start, scan)) => {
            let verdict = audit_scan(alloc, plan, &start, scan)?;
            verdict_reply(alloc, plan, &verdict)
        }
        Err(TraceFault::OutOfMemory) => Err(AllocError),
        Err(fault) => trace_refusal(alloc, &fault),
    }
}

/// The reply that tells a verdict.
fn verdict_reply(alloc: Global, plan: &Plan, verdict: &Verdict) -> Result<Reply, AllocError>
    requires { HasLevels plan.now verdict.now }
    ensures { IfOk result (λ reply. answer_in reply ≡ audit_answer plan.now verdict.now) }
{
    match verdict {
        Verdict::Within(report) => Ok(Reply::Text(Status::Done, report.text(alloc, plan)?)),
        Verdict::Refused { index, why } => {
            let why = why.to_string(alloc)?;
            refusal_at(alloc, *index, why.as_str())
        }
    }
}

/// The verdict on the trace of a node in these bytes, which is read in place.
fn replayed(alloc: Global, plan: &Plan, node: u32, bytes: &[u8]) -> Result<Reply, AllocError>
    ensures { IfOk result (λ reply. IsReplayed node plan.now bytes.now (answer_in reply)) }
{
    if node >= plan.topo().nodes() {
        return node_refusal(alloc, node);
    }
    let params = plan.node(alloc, node)?;
    replayed_as(alloc, &params, bytes)
}

/// The same for the node of these parameters.
#[tactic(auto, using(crate::proofs::TraceAnswers::answering))]
fn replayed_as(alloc: Global, params: &NodeParams, bytes: &[u8]) -> Result<Reply, AllocError>
    requires { AreValid params.now }
    ensures { IfOk result (λ reply. IsReplayOf params.now bytes.now (answer_in reply)) }
{
    match scan_node(bytes, params) {
        Ok((start, scan)) => {
            let count = count(scan.clone()?);
            let verdict = replay_scan(alloc, params, &start, scan)?;
            node_reply(alloc, params.node, count, &verdict)
        }
        Err(fault) => trace_refusal(alloc, &fault),
    }
}

/// The number of events that are left.
fn count(scan: NodeScan<'_>) -> u64
    ensures { result ≡ length scan.entry }
{
    let mut scan = scan;
    // There are no more events than bytes, and so fewer than 2^64.
    let _most = scan.bytes_left();
    let mut count: u64 = 0;
    while let Some(_) = scan.next() {
        count += 1;
    }
    count
}

/// The reply that tells a node's verdict, after `count` events.
fn node_reply(
    alloc: Global,
    node: u32,
    count: u64,
    verdict: &NodeVerdict,
) -> Result<Reply, AllocError>
    ensures { IfOk result (λ reply. answer_in reply ≡ replay_answer node count verdict.now) }
{
    match verdict {
        NodeVerdict::Within { l, m, mode } => node_line(alloc, node, count, *l, *m, *mode),
        NodeVerdict::Refused { index, why } => {
            let why = why.to_string(alloc)?;
            refusal_at(alloc, *index, why.as_str())
        }
    }
}

/// The line of a node that takes all events: their count, and then its clock, its maximum and its mode.
fn node_line(
    alloc: Global,
    node: u32,
    count: u64,
    l: u64,
    m: u64,
    mode: Mode,
) -> Result<Reply, AllocError>
    ensures { IfOk result (λ reply.
        answer_in reply ≡ replay_answer node count (NodeVerdict.Within l m mode)) }
{
    let end = end_text(alloc, node, count, l, m, mode_word(mode))?;
    Reply::line_of(alloc, Status::Done, "node ", end.as_str())
}

/// What follows the first word of that line.
fn end_text(
    alloc: Global,
    node: u32,
    count: u64,
    l: u64,
    m: u64,
    mode: &str,
) -> Result<String, AllocError>
    ensures { IfOk result (λ text. string_bytes text ≡ decimal node ++ (codes " events " ++ (decimal count
        ++ (codes " clock " ++ (decimal l ++ (codes " maximum " ++ (decimal m ++ (codes " mode " ++ mode.now)))))))) }
{
    format!(in alloc; "{node} events {count} clock {l} maximum {m} mode {mode}")
}

/// The line of the first event that is refused.
fn refusal_at(alloc: Global, index: u64, why: &str) -> Result<Reply, AllocError>
    ensures { IfOk result (λ reply. answer_in reply ≡ refused_at index why.now) }
{
    let refusal = refusal_text(alloc, index, why)?;
    Reply::line_of(alloc, Status::Breach, "refused at ", refusal.as_str())
}

/// What follows the first words of that line.
fn refusal_text(alloc: Global, index: u64, why: &str) -> Result<String, AllocError>
    ensures { IfOk result (λ text. string_bytes text ≡ decimal index ++ (codes ": " ++ why.now)) }
{
    format!(in alloc; "{index}: {why}")
}

fn mode_word(mode: Mode) -> &'static str
    ensures { result.now ≡ mode_word mode }
{
    match mode {
        Mode::Slow => "slow",
        Mode::Fast => "fast",
    }
}

/// The line of bytes that are no trace.
fn trace_refusal(alloc: Global, fault: &TraceFault) -> Result<Reply, AllocError>
    ensures { IfOk result (λ reply. answer_in reply ≡ trace_refused fault.now) }
{
    let why = fault.to_string(alloc)?;
    Reply::line_of(alloc, Status::InputRefused, "trace refused: ", why.as_str())
}
