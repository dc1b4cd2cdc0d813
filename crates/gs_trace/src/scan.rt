ghost use Rattle.std.specs.Prelude.{◌≡◌, ◌≢◌, ◌+◌, ◌<◌, ◌≤◌, ◌^◌, List, [], ◌∷◌, drop, length, slice_index, IfErr, IfOk, IfSome, None, Some, IfNone, OnOk, Ok};
ghost use Rattle.gs_plan.specs.Plans.{graph_of, text_of};
ghost use Rattle.gs_trace.specs.Formats.{fault_from, front_fault};
ghost use Rattle.gs_trace.specs.Scans.{event_told, KeepsIncs};
ghost use Rattle.gs_trace.specs.Worlds.{event_of, size_of, SpellsWorld, world_fault, world_format};
ghost use Rattle.gs_core.specs.declared.event.Event.{Event};
ghost use Rattle.gs_trace.specs.inside.Fronts.{BeginsWhole};
ghost use Rattle.gs_trace.specs.Reads.{FailsWith, Reads};
ghost use Rattle.gs_trace.specs.declared.fault.TraceFault.{TraceFault};
ghost use Rattle.gs_trace.specs.declared.start.WorldStart.{WorldStart};

use crate::fault::TraceFault;
use crate::head::read_head;
use crate::numbers::read_all_u32;
use crate::start::WorldStart;
use gs_beacon::{u32_at, u64_at};
use gs_plan::Plan;
use std::alloc::Global;
use std::marker::Model;

/// An event of a world that was taken from a trace. The increments of a quantum stand beside it.
#[derive(Clone, Copy, Debug, PartialEq, Eq)]
pub enum Next {
    /// Each hardware clock goes on by its increment.
    Quantum,
    /// This node's timer fires.
    Tick(u32),
    /// The beacon of this number comes from its sender to a neighbour.
    Deliver { from: u32, to: u32, seq: u64 },
}

/// The trace of a world that is read in place. Contracts see the events that are left and the number of
/// nodes.
#[derive(Clone, Debug, Drop)]
pub struct WorldScan<'b> {
    left: &'b [u8],
    nodes: u32,
}

impl<'b> Model for WorldScan<'b> {
    ghost use Rattle.gs_trace.specs.Scans.{WorldLeft};

    ghost Value = { WorldLeft };

    ghost use Rattle.gs_trace.specs.inside.Seen.{world_left, IsWorldScan};

    ghost view = { world_left };

    ghost invariant = { IsWorldScan };
}

/// Reads the trace of a world of this plan in place: its start, and the events one by one. It has looked at
/// all bytes when it answers.
pub fn scan_world<'b>(
    alloc: Global,
    bytes: &'b [u8],
    plan: &Plan,
) -> Result<(WorldStart, WorldScan<'b>), TraceFault>
    ensures ok { IfOk result (λ read.
        SpellsWorld (text_of plan.now).cluster (graph_of plan.now).nodes read.0 read.1.events bytes.now) }
    ensures nodes { IfOk result (λ read. read.1.nodes ≡ (graph_of plan.now).nodes) }
    ensures err { IfErr result (λ fault. fault ≢ TraceFault.OutOfMemory
        → world_fault (text_of plan.now).cluster (graph_of plan.now).nodes bytes.now ≡ Some fault) }

    // And no spelling is refused, nor any fault passed over.
    ensures every_spelling { (s : WorldStart) (es : List Event)
        → SpellsWorld (text_of plan.now).cluster (graph_of plan.now).nodes s es bytes.now
        → Reads (λ read. read.0) (λ read. read.1.events) result s es }
    ensures every_fault { (fault : TraceFault)
        → world_fault (text_of plan.now).cluster (graph_of plan.now).nodes bytes.now ≡ Some fault
        → FailsWith result fault }
{
    scan(alloc, bytes, plan.text().cluster, plan.topo().nodes())
}

/// The same for a world of `nodes` nodes of a cluster.
pub(crate) fn scan<'b>(
    alloc: Global,
    bytes: &'b [u8],
    cluster: u32,
    nodes: u32,
) -> Result<(WorldStart, WorldScan<'b>), TraceFault>
    ensures ok { IfOk result (λ read. SpellsWorld cluster nodes read.0 read.1.events bytes.now) }
    ensures nodes { IfOk result (λ read. read.1.nodes ≡ nodes) }
    ensures err { IfErr result (λ fault. fault ≢ TraceFault.OutOfMemory
        → world_fault cluster nodes bytes.now ≡ Some fault) }
    ensures small { (cluster < 2 ^ 32) × (nodes < 2 ^ 32) }
{
    let start = read_head(alloc, bytes, cluster, nodes)?;
    let head = 24 + 8 * nodes as usize;
    admit_events(bytes, head, nodes)?;
    Ok((
        start,
        WorldScan {
            left: &bytes[head..],
            nodes,
        },
    ))
}

/// Why the events from a place on are refused: the first at fault.
fn admit_events(bytes: &[u8], from: usize, nodes: u32) -> Result<(), TraceFault>
    requires { from ≤ length bytes.now }
    ensures ok { OnOk result (fault_from (world_format nodes) from 0 (drop from bytes.now) ≡ None) }
    ensures err { IfErr result (λ fault. fault_from (world_format nodes) from 0 (drop from bytes.now) ≡ Some fault) }
{
    let mut at = from;
    while at < bytes.len() {
        at += admit_event(bytes, at, nodes)?;
    }
    Ok(())
}

/// The number of bytes of the event at a place, or why it is refused.
fn admit_event(bytes: &[u8], at: usize, nodes: u32) -> Result<usize, TraceFault>
    requires { at + 1 ≤ length bytes.now }
    ensures ok { IfOk result (λ size. (size_of nodes (slice_index bytes.now at) ≡ Some size)
        × (at + size ≤ length bytes.now)) }
    ensures err { IfErr result (λ fault.
        front_fault (world_format nodes) at (size_of nodes (slice_index bytes.now at)) (drop at bytes.now) ≡ Some fault) }
{
    let Some(size) = size(bytes[at], nodes) else {
        return Err(TraceFault::Kind(at as u64));
    };
    if bytes.len() - at < size {
        return Err(TraceFault::Cut(at as u64));
    }
    Ok(size)
}

/// The number of bytes of an event of a kind, in a world of `nodes` nodes.
fn size(kind: u8, nodes: u32) -> Option<usize>
    ensures value { result ≡ size_of nodes kind }
    ensures small { IfSome result (λ size. (1 ≤ size) × (size ≤ 2 ^ 40)) }
{
    match kind {
        1 => Some(1 + 4 * nodes as usize),
        2 => Some(5),
        3 => Some(17),
        _ => None,
    }
}

/// The event that bytes begin with, and its number of bytes.
fn first_event(bytes: &[u8], incs: &mut [u32]) -> (Next, usize)
    requires { BeginsWhole (world_format (length incs.old)) bytes.now }
    ensures event { event_told result.0 incs.new ≡ event_of (length incs.old) (slice_index bytes.now 0) bytes.now }
    ensures size { size_of (length incs.old) (slice_index bytes.now 0) ≡ Some result.1 }
    ensures kept { KeepsIncs (Some result.0) incs.old incs.new }
{
    match bytes[0] {
        1 => {
            read_all_u32(&bytes[1..], incs);
            (Next::Quantum, 1 + 4 * incs.len())
        }
        2 => (Next::Tick(u32_at(bytes, 1)), 5),
        _ => (
            Next::Deliver {
                from: u32_at(bytes, 1),
                to: u32_at(bytes, 5),
                seq: u64_at(bytes, 9),
            },
            17,
        ),
    }
}

impl<'b> WorldScan<'b> {
    /// Takes the first event that is left. The increments of a quantum are put into `incs`.
    pub fn next(&mut self, incs: &mut [u32]) -> Option<Next>
        requires { length incs.old ≡ self.old.nodes }
        ensures nodes { self.new.nodes ≡ self.old.nodes }
        ensures some { IfSome result (λ next. self.old.events ≡ event_told next incs.new ∷ self.new.events) }
        ensures none { IfNone result (self.old.events ≡ []) }
        ensures ended { IfNone result (self.new ≡ self.old) }
        ensures kept { KeepsIncs result incs.old incs.new }
    {
        if self.left.is_empty() {
            return None;
        }
        let (next, size) = first_event(self.left, incs);
        self.left = &self.left[size..];
        Some(next)
    }

    /// The number of bytes that are left.
    pub fn bytes_left(&self) -> usize
        ensures { length self.now.events ≤ result }
    {
        self.left.len()
    }
}
