ghost use Rattle.std.specs.Prelude.{◌≡◌, ◌≢◌, ◌<◌, ◌^◌, ◌++◌, ◌∷◌, [], List, IfErr, IfOk, OnOk, Some, Ok};
ghost use Rattle.gs_plan.specs.Plans.{graph_of, text_of};
ghost use Rattle.gs_trace.specs.Scans.{event_told};
ghost use Rattle.gs_trace.specs.Worlds.{SpellsWorld, world_fault};
ghost use Rattle.gs_core.specs.declared.event.Event.{Event};
ghost use Rattle.gs_trace.specs.Reads.{FailsWith, Reads};
ghost use Rattle.gs_trace.specs.declared.fault.TraceFault.{TraceFault};
ghost use Rattle.gs_trace.specs.declared.start.WorldStart.{WorldStart};

use crate::fault::TraceFault;
use crate::scan::{Next, scan};
use crate::start::WorldStart;
use gs_core::{Event, Incs};
use gs_plan::Plan;
use std::alloc::{AllocError, Global};

/// Reads the trace of a world of this plan: its start and its events.
pub fn read_world(
    alloc: Global,
    bytes: &[u8],
    plan: &Plan,
) -> Result<(WorldStart, Vec<Event>), TraceFault>
    ensures ok { IfOk result (λ read.
        SpellsWorld (text_of plan.now).cluster (graph_of plan.now).nodes read.0 read.1.items bytes.now) }
    ensures err { IfErr result (λ fault. fault ≢ TraceFault.OutOfMemory
        → world_fault (text_of plan.now).cluster (graph_of plan.now).nodes bytes.now ≡ Some fault) }

    // And no spelling is refused, nor any fault passed over.
    ensures every_spelling { (s : WorldStart) (es : List Event)
        → SpellsWorld (text_of plan.now).cluster (graph_of plan.now).nodes s es bytes.now
        → Reads (λ read. read.0) (λ read. read.1.items) result s es }
    ensures every_fault { (fault : TraceFault)
        → world_fault (text_of plan.now).cluster (graph_of plan.now).nodes bytes.now ≡ Some fault
        → FailsWith result fault }
{
    read(alloc, bytes, plan.text().cluster, plan.topo().nodes())
}

/// The same for a world of `nodes` nodes of a cluster.
fn read(
    alloc: Global,
    bytes: &[u8],
    cluster: u32,
    nodes: u32,
) -> Result<(WorldStart, Vec<Event>), TraceFault>
    ensures ok { IfOk result (λ read. SpellsWorld cluster nodes read.0 read.1.items bytes.now) }
    ensures err { IfErr result (λ fault. fault ≢ TraceFault.OutOfMemory
        → world_fault cluster nodes bytes.now ≡ Some fault) }
    ensures small { (cluster < 2 ^ 32) × (nodes < 2 ^ 32) }
{
    let (start, mut scan) = scan(alloc, bytes, cluster, nodes)?;
    let mut incs = vec![in alloc; 0; nodes as usize]?;
    let mut events = Vec::new(alloc);
    while let Some(next) = scan.next(&mut incs) {
        keep(alloc, &mut events, next, &incs)?;
    }
    Ok((start, events))
}

/// Puts an event behind others.
fn keep(alloc: Global, events: &mut Vec<Event>, next: Next, incs: &[u32]) -> Result<(), AllocError>
    ensures { OnOk result (events.new.items ≡ events.old.items ++ event_told next incs.now ∷ []) }
{
    let event = event_of(alloc, next, incs)?;
    events.push(event)?;
    Ok(())
}

/// An event that was taken from a trace.
fn event_of(alloc: Global, next: Next, incs: &[u32]) -> Result<Event, AllocError>
    ensures { IfOk result (λ event. event ≡ event_told next incs.now) }
{
    match next {
        Next::Quantum => Ok(Event::Quantum(Incs::from_vec(Vec::from_slice(alloc, incs)?))),
        Next::Tick(v) => Ok(Event::Tick(v)),
        Next::Deliver { from, to, seq } => Ok(Event::Deliver { from, to, seq }),
    }
}
