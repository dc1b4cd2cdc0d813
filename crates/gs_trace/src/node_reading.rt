ghost use Rattle.std.specs.Prelude.{◌≡◌, ◌≢◌, ◌<◌, ◌^◌, ◌++◌, ◌∷◌, [], List, IfErr, IfOk, OnOk, Some, Ok};
ghost use Rattle.gs_core.specs.declared.event.NodeEvent.{NodeEvent};
ghost use Rattle.gs_trace.specs.Nodes.{node_fault, SpellsNode};
ghost use Rattle.gs_trace.specs.Reads.{FailsWith, Reads};
ghost use Rattle.gs_trace.specs.declared.fault.TraceFault.{TraceFault};
ghost use Rattle.gs_trace.specs.declared.start.NodeStart.{NodeStart};

use crate::fault::TraceFault;
use crate::node_scan::scan;
use crate::start::NodeStart;
use gs_core::NodeEvent;
use gs_units::NodeParams;
use std::alloc::{AllocError, Global};

/// Reads the trace of the node of these parameters: its start and its events.
pub fn read_node(
    alloc: Global,
    bytes: &[u8],
    params: &NodeParams,
) -> Result<(NodeStart, Vec<NodeEvent>), TraceFault>
    ensures ok { IfOk result (λ read.
        SpellsNode params.now.cluster params.now.node read.0 read.1.items bytes.now) }
    ensures err { IfErr result (λ fault. fault ≢ TraceFault.OutOfMemory
        → node_fault params.now.cluster params.now.node bytes.now ≡ Some fault) }

    // And no spelling is refused, nor any fault passed over.
    ensures every_spelling { (s : NodeStart) (es : List NodeEvent)
        → SpellsNode params.now.cluster params.now.node s es bytes.now
        → Reads (λ read. read.0) (λ read. read.1.items) result s es }
    ensures every_fault { (fault : TraceFault)
        → node_fault params.now.cluster params.now.node bytes.now ≡ Some fault
        → FailsWith result fault }
{
    read(alloc, bytes, params.cluster, params.node)
}

/// The same for a node of a cluster.
fn read(
    alloc: Global,
    bytes: &[u8],
    cluster: u32,
    node: u32,
) -> Result<(NodeStart, Vec<NodeEvent>), TraceFault>
    ensures ok { IfOk result (λ read. SpellsNode cluster node read.0 read.1.items bytes.now) }
    ensures err { IfErr result (λ fault. fault ≢ TraceFault.OutOfMemory
        → node_fault cluster node bytes.now ≡ Some fault) }
    ensures small { (cluster < 2 ^ 32) × (node < 2 ^ 32) }
{
    let (start, mut scan) = scan(bytes, cluster, node)?;
    let mut events = Vec::new(alloc);
    while let Some(event) = scan.next() {
        keep(&mut events, event)?;
    }
    Ok((start, events))
}

/// Puts an event behind others.
fn keep(events: &mut Vec<NodeEvent>, event: NodeEvent) -> Result<(), AllocError>
    ensures { OnOk result (events.new.items ≡ events.old.items ++ event ∷ []) }
{
    events.push(event)?;
    Ok(())
}
