ghost use Rattle.std.specs.Prelude.{◌≡◌, ◌↔◌, IfOk};
ghost use Rattle.gs_plan.specs.Plans.{graph_of};
ghost use Rattle.gs_trace.specs.Starts.{FitsWorld};
ghost use Rattle.gs_run.specs.Nets.{net_of};
ghost use Rattle.gs_run.specs.Run.{Allowed};
ghost use Rattle.gs_audit.specs.Verdicts.{IsWithin, KeepsItsBounds, NamesNoMemory, verdict_of, world_at};
ghost use Rattle.gs_audit.specs.inside.Refusing.{Refuses};

use crate::auditing::{Auditing, told};
use crate::verdict::Verdict;
use gs_core::Event;
use gs_plan::Plan;
use gs_trace::{WorldScan, WorldStart};
use gs_world::Refused;
use std::alloc::{AllocError, Global};

/// Audits events from a start with equal clocks, on a plan: the report where all are allowed, or else the first
/// that is not. Where all are, every bound of the plan was kept at every moment of the run.
pub fn audit(
    alloc: Global,
    plan: &Plan,
    start: &WorldStart,
    events: &[Event],
) -> Result<Verdict, AllocError>
    requires { FitsWorld (graph_of plan.now).nodes start.now }
    ensures verdict { IfOk result (λ verdict. verdict ≡ verdict_of plan.now start.now events.now) }
    ensures exact { IfOk result
        (λ verdict. IsWithin verdict ↔ Allowed (net_of plan.now) (world_at plan.now start.now) events.now) }
    ensures kept { IfOk result (KeepsItsBounds plan.now start.now events.now) }
    ensures never { IfOk result NamesNoMemory }
{
    audit_all(alloc, plan, start, events)
}

/// The same without what follows from it.
fn audit_all(
    alloc: Global,
    plan: &Plan,
    start: &WorldStart,
    events: &[Event],
) -> Result<Verdict, AllocError>
    requires { FitsWorld (graph_of plan.now).nodes start.now }
    ensures { IfOk result (λ verdict. verdict ≡ verdict_of plan.now start.now events.now) }
{
    let mut auditing = Auditing::start(alloc, plan, start)?;
    for event in events {
        let (next, incs) = told(event);
        if let Err(why) = auditing.step(next, incs) {
            return refused(auditing.index, why);
        }
    }
    Ok(Verdict::Within(auditing.report(alloc)?))
}

/// Audits the events that are left of a scan, as `audit` says.
pub fn audit_scan(
    alloc: Global,
    plan: &Plan,
    start: &WorldStart,
    scan: WorldScan<'_>,
) -> Result<Verdict, AllocError>
    requires start { FitsWorld (graph_of plan.now).nodes start.now }
    requires nodes { scan.nodes ≡ (graph_of plan.now).nodes }
    ensures verdict { IfOk result (λ verdict. verdict ≡ verdict_of plan.now start.now scan.entry.events) }
    ensures exact { IfOk result
        (λ verdict. IsWithin verdict ↔ Allowed (net_of plan.now) (world_at plan.now start.now) scan.entry.events) }
    ensures kept { IfOk result (KeepsItsBounds plan.now start.now scan.entry.events) }
    ensures never { IfOk result NamesNoMemory }
{
    audit_left(alloc, plan, start, scan)
}

/// The same without what follows from it.
fn audit_left(
    alloc: Global,
    plan: &Plan,
    start: &WorldStart,
    scan: WorldScan<'_>,
) -> Result<Verdict, AllocError>
    requires start { FitsWorld (graph_of plan.now).nodes start.now }
    requires nodes { scan.nodes ≡ (graph_of plan.now).nodes }
    ensures { IfOk result (λ verdict. verdict ≡ verdict_of plan.now start.now scan.entry.events) }
{
    let mut scan = scan;
    // There are no more events than bytes, and so fewer than 2^64.
    let _most = scan.bytes_left();
    let mut incs = vec![in alloc; 0; plan.topo().nodes() as usize]?;
    let mut auditing = Auditing::start(alloc, plan, start)?;
    while let Some(next) = scan.next(&mut incs) {
        if let Err(why) = auditing.step(next, &incs) {
            return refused(auditing.index, why);
        }
    }
    Ok(Verdict::Within(auditing.report(alloc)?))
}

/// The verdict on an event that was refused.
fn refused(index: u64, why: Refused) -> Result<Verdict, AllocError>
    ensures { Refuses result index why }
{
    match why {
        Refused::OutOfMemory => Err(AllocError),
        _ => Ok(Verdict::Refused { index, why }),
    }
}
