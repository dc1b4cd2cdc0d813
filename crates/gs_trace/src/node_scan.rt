ghost use Rattle.std.specs.Prelude.{◌≡◌, ◌+◌, ◌<◌, ◌≤◌, ◌^◌, List, [], ◌∷◌, drop, length, slice_index, is_some, false, IfErr, IfOk, IfSome, None, Some, IfNone, OnOk, Ok};
ghost use Rattle.std.specs.Result.{IsErrAnd, IsOkAnd};
ghost use Rattle.gs_beacon.specs.Beacons.{beacon_at, fault_of};
ghost use Rattle.gs_core.specs.declared.event.NodeEvent.{NodeEvent};
ghost use Rattle.gs_trace.specs.Formats.{fault_from, front_fault};
ghost use Rattle.gs_trace.specs.Nodes.{event_of, Fits, head_fault, is_refused, node_fault, node_format, size_of, SpellsNode, start_at};
ghost use Rattle.gs_trace.specs.inside.Fronts.{BeginsWhole};
ghost use Rattle.gs_trace.specs.declared.fault.TraceFault.{TraceFault};
ghost use Rattle.gs_trace.specs.declared.start.NodeStart.{NodeStart};

use crate::fault::TraceFault;
use crate::node::TAG;
use crate::start::NodeStart;
use gs_beacon::{Beacon, decode, u32_at, u64_at};
use gs_core::NodeEvent;
use gs_units::{END, NodeParams};
use std::marker::Model;

/// The trace of a node that is read in place. Contracts see the events that are left.
#[derive(Clone, Debug, Drop)]
pub struct NodeScan<'b> {
    left: &'b [u8],
}

impl<'b> Model for NodeScan<'b> {
    ghost use Rattle.std.specs.Prelude.{List};
    ghost use Rattle.gs_core.specs.declared.event.NodeEvent.{NodeEvent};

    ghost Value = { List NodeEvent };

    ghost use Rattle.gs_trace.specs.inside.NodeSeen.{node_left, IsNodeScan};

    ghost view = { node_left };

    ghost invariant = { IsNodeScan };
}

/// Reads the trace of the node of these parameters in place: its start, and the events one by one. It has
/// looked at all bytes when it answers, and takes no memory.
pub fn scan_node<'b>(
    bytes: &'b [u8],
    params: &NodeParams,
) -> Result<(NodeStart, NodeScan<'b>), TraceFault>
    ensures ok { IfOk result (λ read. SpellsNode params.now.cluster params.now.node read.0 read.1 bytes.now) }
    ensures err { IfErr result (λ fault. node_fault params.now.cluster params.now.node bytes.now ≡ Some fault) }

    // And no spelling is refused, nor any fault passed over.
    ensures every_spelling { (s : NodeStart) (es : List NodeEvent)
        → SpellsNode params.now.cluster params.now.node s es bytes.now
        → IsOkAnd result (λ read. (read.0 ≡ s) × (read.1 ≡ es)) }
    ensures every_fault { (fault : TraceFault)
        → node_fault params.now.cluster params.now.node bytes.now ≡ Some fault
        → IsErrAnd result (λ why. why ≡ fault) }
{
    scan(bytes, params.cluster, params.node)
}

/// The same for a node of a cluster.
pub(crate) fn scan<'b>(
    bytes: &'b [u8],
    cluster: u32,
    node: u32,
) -> Result<(NodeStart, NodeScan<'b>), TraceFault>
    ensures ok { IfOk result (λ read. SpellsNode cluster node read.0 read.1 bytes.now) }
    ensures err { IfErr result (λ fault. node_fault cluster node bytes.now ≡ Some fault) }
    ensures small { (cluster < 2 ^ 32) × (node < 2 ^ 32) }
{
    let start = read_head(bytes, cluster, node)?;
    admit_events(bytes, 32)?;
    Ok((start, NodeScan { left: &bytes[32..] }))
}

/// Reads the head of the trace of a node of a cluster.
fn read_head(bytes: &[u8], cluster: u32, node: u32) -> Result<NodeStart, TraceFault>
    ensures ok { OnOk result (head_fault cluster node bytes.now ≡ None) }
    ensures start { IfOk result (λ start. start ≡ start_at bytes.now) }
    ensures long { OnOk result (32 ≤ length bytes.now) }
    ensures err { IfErr result (λ fault. head_fault cluster node bytes.now ≡ Some fault) }
{
    if bytes.len() < 32 || u64_at(bytes, 0) != TAG {
        return Err(TraceFault::Header);
    }
    let l0 = u64_at(bytes, 16);
    let hw = u64_at(bytes, 24);
    if l0 >= END || hw >= END {
        return Err(TraceFault::Header);
    }
    if u32_at(bytes, 8) != cluster || u32_at(bytes, 12) != node {
        return Err(TraceFault::Plan);
    }
    Ok(NodeStart { l0, hw })
}

/// Why the events from a place on are refused: the first at fault.
fn admit_events(bytes: &[u8], from: usize) -> Result<(), TraceFault>
    requires { from ≤ length bytes.now }
    ensures ok { OnOk result (fault_from node_format from 0 (drop from bytes.now) ≡ None) }
    ensures err { IfErr result (λ fault. fault_from node_format from 0 (drop from bytes.now) ≡ Some fault) }
{
    let mut at = from;
    while at < bytes.len() {
        at += admit_event(bytes, at)?;
    }
    Ok(())
}

/// The number of bytes of the event at a place, or why it is refused.
fn admit_event(bytes: &[u8], at: usize) -> Result<usize, TraceFault>
    requires { at + 1 ≤ length bytes.now }
    ensures ok { IfOk result (λ size. (size_of (slice_index bytes.now at) ≡ Some size)
        × (at + size ≤ length bytes.now)) }
    ensures allowed { OnOk result (is_refused (slice_index bytes.now at) (drop at bytes.now) ≡ false) }
    ensures err { IfErr result (λ fault.
        front_fault node_format at (size_of (slice_index bytes.now at)) (drop at bytes.now) ≡ Some fault) }
{
    let kind = bytes[at];
    let Some(size) = size(kind) else {
        return Err(TraceFault::Kind(at as u64));
    };
    let event = &bytes[at..];
    if event.len() < size {
        return Err(TraceFault::Cut(at as u64));
    }
    if is_refused(kind, event) {
        return Err(TraceFault::Beacon(at as u64));
    }
    Ok(size)
}

/// The number of bytes of an event of a kind.
fn size(kind: u8) -> Option<usize>
    ensures value { result ≡ size_of kind }
    ensures small { IfSome result (λ size. (1 ≤ size) × (size ≤ 49)) }
    ensures delivery { kind ≡ 2 → result ≡ Some 49 }
{
    match kind {
        1 => Some(9),
        2 => Some(49),
        _ => None,
    }
}

/// Whether the beacon of a delivery is refused.
fn is_refused(kind: u8, event: &[u8]) -> bool
    requires { kind ≡ 2 → 49 ≤ length event.now }
    ensures { result ≡ is_refused kind event.now }
{
    if kind == 2 {
        is_no_beacon(&event[9..49])
    } else {
        false
    }
}

/// Whether bytes spell no beacon.
fn is_no_beacon(bytes: &[u8]) -> bool
    ensures { result ≡ is_some (fault_of bytes.now) }
{
    match decode(bytes) {
        Ok(_) => false,
        Err(_) => true,
    }
}

/// The event that bytes begin with, and its number of bytes.
fn first_event(bytes: &[u8]) -> (NodeEvent, usize)
    requires { BeginsWhole node_format bytes.now }
    ensures event { result.0 ≡ event_of (slice_index bytes.now 0) bytes.now }
    ensures size { size_of (slice_index bytes.now 0) ≡ Some result.1 }
    ensures fits { Fits result.0 }
{
    event_in_front(bytes)
}

/// The same without what follows from it.
fn event_in_front(bytes: &[u8]) -> (NodeEvent, usize)
    requires { BeginsWhole node_format bytes.now }
    ensures event { result.0 ≡ event_of (slice_index bytes.now 0) bytes.now }
    ensures size { size_of (slice_index bytes.now 0) ≡ Some result.1 }
{
    match bytes[0] {
        1 => (
            NodeEvent::Tick {
                hw: u64_at(bytes, 1),
            },
            9,
        ),
        _ => (
            NodeEvent::Deliver {
                hw: u64_at(bytes, 1),
                beacon: beacon(&bytes[9..49]),
            },
            49,
        ),
    }
}

/// The beacon in the bytes of one, which is known to be none that is refused.
fn beacon(bytes: &[u8]) -> Beacon
    requires { length bytes.now ≡ 40 }
    ensures { result ≡ beacon_at bytes.now }
{
    Beacon {
        cluster: u32_at(bytes, 4),
        sender: u32_at(bytes, 8),
        seq: u64_at(bytes, 16),
        l: u64_at(bytes, 24),
        m: u64_at(bytes, 32),
    }
}

impl<'b> NodeScan<'b> {
    /// Takes the first event that is left.
    pub fn next(&mut self) -> Option<NodeEvent>
        ensures some { IfSome result (λ event. self.old ≡ event ∷ self.new) }
        ensures fits { IfSome result Fits }
        ensures none { IfNone result (self.old ≡ []) }
        ensures ended { IfNone result (self.new ≡ self.old) }
    {
        if self.left.is_empty() {
            return None;
        }
        let (event, size) = first_event(self.left);
        self.left = &self.left[size..];
        Some(event)
    }

    /// The number of bytes that are left.
    pub fn bytes_left(&self) -> usize
        ensures { length self.now ≤ result }
    {
        self.left.len()
    }
}
