ghost use Rattle.std.specs.Prelude.{◌≡◌, All, IfOk};
ghost use Rattle.gs_units.specs.Params.{AreValid};
ghost use Rattle.gs_core.specs.State.{CarriesBeacon};
ghost use Rattle.gs_trace.specs.Starts.{FitsNode};
ghost use Rattle.gs_audit.specs.NodeVerdicts.{node_verdict_of};
ghost use Rattle.gs_audit.specs.OneNode.{AgreesWithEveryWorld};

use crate::replaying::Replaying;
use crate::verdict::NodeVerdict;
use gs_core::NodeEvent;
use gs_trace::{NodeScan, NodeStart};
use gs_units::NodeParams;
use std::alloc::{AllocError, Global};

/// Replays the events of the node of these parameters from a start: its clock, its maximum and its mode where
/// it takes them all, or else the first event that it refuses. A node's part of any allowed run of a world is
/// never refused, and ends as the node does in that world.
pub fn replay(
    alloc: Global,
    params: &NodeParams,
    start: &NodeStart,
    events: &[NodeEvent],
) -> Result<NodeVerdict, AllocError>
    requires valid { AreValid params.now }
    requires start { FitsNode start.now }
    requires beacons { All CarriesBeacon events.now }
    ensures verdict { IfOk result (λ verdict. verdict ≡ node_verdict_of params.now start.now events.now) }
    ensures one_node { IfOk result (AgreesWithEveryWorld params.now start.now events.now) }
{
    replay_all(alloc, params, start, events)
}

/// The same without what follows from it.
fn replay_all(
    alloc: Global,
    params: &NodeParams,
    start: &NodeStart,
    events: &[NodeEvent],
) -> Result<NodeVerdict, AllocError>
    requires valid { AreValid params.now }
    requires start { FitsNode start.now }
    requires beacons { All CarriesBeacon events.now }
    ensures { IfOk result (λ verdict. verdict ≡ node_verdict_of params.now start.now events.now) }
{
    let mut replaying = Replaying::start(alloc, params, start)?;
    for event in events {
        if let Err(verdict) = replaying.step(event) {
            return Ok(verdict);
        }
    }
    Ok(replaying.end())
}

/// Replays the events that are left of a scan, as `replay` says.
pub fn replay_scan(
    alloc: Global,
    params: &NodeParams,
    start: &NodeStart,
    scan: NodeScan<'_>,
) -> Result<NodeVerdict, AllocError>
    requires valid { AreValid params.now }
    requires start { FitsNode start.now }
    ensures verdict { IfOk result (λ verdict. verdict ≡ node_verdict_of params.now start.now scan.entry) }
    ensures one_node { IfOk result (AgreesWithEveryWorld params.now start.now scan.entry) }
{
    replay_left(alloc, params, start, scan)
}

/// The same without what follows from it.
fn replay_left(
    alloc: Global,
    params: &NodeParams,
    start: &NodeStart,
    scan: NodeScan<'_>,
) -> Result<NodeVerdict, AllocError>
    requires valid { AreValid params.now }
    requires start { FitsNode start.now }
    ensures { IfOk result (λ verdict. verdict ≡ node_verdict_of params.now start.now scan.entry) }
{
    let mut scan = scan;
    // There are no more events than bytes, and so fewer than 2^64.
    let _most = scan.bytes_left();
    let mut replaying = Replaying::start(alloc, params, start)?;
    while let Some(event) = scan.next() {
        if let Err(verdict) = replaying.step(&event) {
            return Ok(verdict);
        }
    }
    Ok(replaying.end())
}
