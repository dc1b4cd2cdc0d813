ghost use Rattle.std.specs.Prelude.{◌≡◌, ◌≤◌, ◌++◌, All, OnOk, OnErr, Err};
ghost use Rattle.std.specs.List.{flat_map};
ghost use Rattle.gs_core.specs.State.{CarriesBeacon};
ghost use Rattle.gs_io.specs.Causes.{Rose};
ghost use Rattle.gs_io.specs.Held.{Appends, AppendsFront};
ghost use Rattle.gs_board.specs.Boards.{ledger_in};
ghost use Rattle.gs_trace.specs.Nodes.{event_bytes};
ghost use Rattle.gs_node_run.specs.Traces.{trace_of};

use gs_board::Board;
use gs_clock::Clock;
use gs_core::NodeEvent;
use gs_io::{Failed, Sink};
use gs_trace::{node_event, node_head};
use std::alloc::{AllocError, Global};

/// Why a trace was not written whole.
#[derive(Clone, Copy, Debug, PartialEq, Eq)]
pub enum TraceStop {
    /// A write failed.
    Failed,
    /// Memory was refused.
    OutOfMemory,
}

impl From<AllocError> for TraceStop {
    ghost use Rattle.gs_node_run.specs.declared.tracing.TraceStop.TheVariants as stop;

    ghost from_gives = { λ _ why. why ≡ stop.OutOfMemory };

    fn from(_: AllocError) -> Self {
        TraceStop::OutOfMemory
    }
}

impl From<Failed> for TraceStop {
    ghost use Rattle.gs_node_run.specs.declared.tracing.TraceStop.TheVariants as stop;

    ghost from_gives = { λ _ why. why ≡ stop.Failed };

    fn from(_: Failed) -> Self {
        TraceStop::Failed
    }
}

/// Writes the trace of a board's journal: the head, and then each event, each in one write.
pub fn write_trace<K: Sink, C: Clock>(
    alloc: Global,
    out: &mut K,
    board: &Board<C>,
) -> Result<(), TraceStop>
    ensures ok { OnOk result (Appends (K.bytes out.old) (K.bytes out.new) (trace_of (ledger_in board.now))) }
    ensures err { OnErr result (AppendsFront (K.bytes out.old) (K.bytes out.new) (trace_of (ledger_in board.now))) }
    ensures cause { result ≡ Err TraceStop.Failed → Rose (K.faults out.old) (K.faults out.new) }
    ensures later { K.faults out.old ≤ K.faults out.new }
{
    let head = node_head(board.core().params(), &board.begun());
    write_all(alloc, out, &head, board.journal())
}

/// Writes a head, and then each event.
fn write_all<K: Sink>(
    alloc: Global,
    out: &mut K,
    head: &[u8; 32],
    events: &[NodeEvent],
) -> Result<(), TraceStop>
    requires { All CarriesBeacon events.now }
    ensures ok { OnOk result (Appends (K.bytes out.old) (K.bytes out.new) (head.now ++ flat_map event_bytes events.now)) }
    ensures err { OnErr result (AppendsFront (K.bytes out.old) (K.bytes out.new) (head.now ++ flat_map event_bytes events.now)) }
    ensures cause { result ≡ Err TraceStop.Failed → Rose (K.faults out.old) (K.faults out.new) }
    ensures later { K.faults out.old ≤ K.faults out.new }
{
    out.write(head)?;
    for event in events {
        write_event(alloc, out, event)?;
    }
    Ok(())
}

/// Writes an event.
fn write_event<K: Sink>(alloc: Global, out: &mut K, event: &NodeEvent) -> Result<(), TraceStop>
    requires { CarriesBeacon event.now }
    ensures ok { OnOk result (Appends (K.bytes out.old) (K.bytes out.new) (event_bytes event.now)) }
    ensures err { OnErr result (AppendsFront (K.bytes out.old) (K.bytes out.new) (event_bytes event.now)) }
    ensures cause { result ≡ Err TraceStop.Failed → Rose (K.faults out.old) (K.faults out.new) }
    ensures later { K.faults out.old ≤ K.faults out.new }
{
    let bytes = node_event(alloc, event)?;
    out.write(&bytes)?;
    Ok(())
}
