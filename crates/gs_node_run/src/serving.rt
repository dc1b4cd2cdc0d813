ghost use Rattle.std.specs.Prelude.{◌≡◌, ◌≤◌, ◌+◌, ◌++◌, ◌⊎◌, ℕ, [], List, map, length, false, All, Some};
ghost use Rattle.gs_io.specs.Causes.{Rose};
ghost use Rattle.gs_io.specs.Held.{Appends};
ghost use Rattle.gs_net.specs.Tales.{IsFresh, IsUnused, OnTold};
ghost use Rattle.gs_board.specs.Boards.{ledger_in};
ghost use Rattle.gs_board.specs.Torn.{IsWhole};
ghost use Rattle.gs_cli.specs.Answers.{Answer};
ghost use Rattle.gs_node.specs.Handing.{handed_in};
ghost use Rattle.gs_node_run.specs.Lending.{in_order};
ghost use Rattle.gs_node_run.specs.Lines.{IsAnswerOf, Says};
ghost use Rattle.gs_node_run.specs.Served.{IfServed, Serves, WasServed, clock_left};
ghost use Rattle.gs_node_run.specs.Statuses.{EndsServed, IsWritten, count, faults};
ghost use Rattle.gs_node_run.specs.Traces.{trace_of};
ghost use Rattle.gs_node_run.specs.inside.Traced.{ComesAfter, after_trace, status_of};

use crate::asking::Objects;
use crate::ends::{Left, NodeEnd};
use crate::lines::{line_of, status_of, tell};
use crate::returning::give_back;
use crate::tracing::{TraceStop, write_trace};
use gs_board::{Board, Seat};
use gs_cli::Status;
use gs_clock::Clock;
use gs_crew::Crew;
use gs_io::{Gate, Sink};
use gs_net::Ports;
use gs_node::{End, Served, serve};
use gs_view::Publisher;
use std::alloc::{AllocError, Global};
use std::sync::Wait;
use std::thread::Threads;

/// Runs a node over what its ports lent, gives that back, writes the trace of the journal, and tells the line of
/// the status.
pub fn serve_node<
    R: Threads + Wait + Sync,
    C: Clock + Send,
    V: Clock + Send,
    P: Ports,
    K: Sink,
    S: Sink,
    W: Crew,
    G: Gate,
>(
    rt: &R,
    alloc: Global,
    board: Board<C>,
    inlets: Vec<P::In>,
    outlet: P::Out,
    door: P::Asked,
    view_clock: V,
    ports: &mut P,
    trace: &mut K,
    say: &mut S,
    crew: &mut W,
    gate: &G,
    ticks: u32,
    pace: u64,
) -> NodeEnd<C, V>
where
    P::In: Send,
    P::Asked: Send,
    requires open { (ledger_in board).closed ≡ false }
    requires empty { (ledger_in board).journal ≡ [] }
    requires unissued { (ledger_in board).issued ≡ [] }
    requires count { length inlets.items ≡ length (ledger_in board).core.params.links }
    requires inlets { All IsFresh (map P.In.tale inlets.items) }
    requires door { IsFresh (P.Asked.Inlet.tale door) }
    requires unused { IsUnused (P.Asked.Inlet.replies door) }
    requires unsent { IsUnused (P.Out.sent outlet) }
    requires inlets_out { length inlets.items ≤ P.inlets_out ports.old }
    requires outlets_out { 1 ≤ P.outlets_out ports.old }
    requires doors_out { 1 ≤ P.doors_out ports.old }
    ensures left { WasServed result.left }
    ensures serves { IfServed result.left (Serves P.In.tale P.Out.sent P.Asked.Inlet.tale P.Asked.Inlet.replies
        (handed_in C.Clock P.In.Inlet P.Asked.Inlet board inlets.items door ticks) (P.back ports.old) (P.back ports.new) result.status) }
    ensures returned { (back : List P.In) × (sent : P.Out) × (asked : P.Asked) × (length back ≡ length inlets.items)
        × (P.back ports.new ≡ OnTold (P.back ports.old) (λ before. before ++ in_order back (Some sent) (Some asked))) }
    ensures trace { IfServed result.left (λ ledger seats. IsWritten (trace_of ledger) result.status
        (K.bytes trace.old) (K.bytes trace.new) (K.faults trace.old) (K.faults trace.new)) }
    ensures whole { result.status ≡ Status.Done → IfServed result.left (λ ledger seats.
        Appends (K.bytes trace.old) (K.bytes trace.new) (trace_of ledger)) }
    ensures ended { IfServed result.left (λ ledger seats. (before : ℕ) → before ≤ P.faults ports.old → EndsServed ledger seats
        (faults (C.faults (clock_left result.left)) (V.faults result.view_clock) (count before (P.faults ports.new))
        (count (W.faults crew.old) (W.faults crew.new)) (count (K.faults trace.old) (K.faults trace.new)))
        (λ text. Says text (S.bytes say.old) (S.bytes say.new) (S.faults say.old) (S.faults say.new)) result.status) }
    ensures asked { P.asked ports.new ≡ P.asked ports.old }
    ensures inlets_out { P.inlets_out ports.new + length inlets.items ≡ P.inlets_out ports.old }
    ensures outlets_out { P.outlets_out ports.new + 1 ≡ P.outlets_out ports.old }
    ensures doors_out { P.doors_out ports.new + 1 ≡ P.doors_out ports.old }
{
    let Served {
        end,
        board,
        seats,
        inlets,
        outlet,
        door,
        view_clock,
        publisher,
        dropped: _,
    } = serve(
        rt, alloc, board, inlets, outlet, door, view_clock, crew, gate, ticks, pace,
    );
    end_view(rt, publisher);
    give_back(
        ports,
        Objects {
            inlets,
            outlet: Some(outlet),
            door: Some(door),
        },
    );
    let status = conclude(alloc, end, &board, &seats, trace, say);
    NodeEnd {
        status,
        left: Left::Served { board, seats },
        view_clock,
    }
}

/// Ends the publisher of the view, where there is one.
fn end_view<R: Wait>(rt: &R, publisher: Option<Publisher>) {
    match publisher {
        Some(publisher) => publisher.end(rt),
        None => (),
    }
}

/// Writes the trace of a node that was served, tells how it ended, and answers the status.
fn conclude<C: Clock, K: Sink, S: Sink>(
    alloc: Global,
    end: End,
    board: &Board<C>,
    seats: &[Seat<C>],
    trace: &mut K,
    say: &mut S,
) -> Status
    requires torn { status_of end ≡ Status.Torn → ¬ All (IsWhole (ledger_in board.now)) seats.now }
    ensures status { ComesAfter end (Rose (K.faults trace.old) (K.faults trace.new)) result }
    ensures whole { result ≡ Status.Done → Appends (K.bytes trace.old) (K.bytes trace.new) (trace_of (ledger_in board.now)) }
    ensures written { IsWritten (trace_of (ledger_in board.now)) result
        (K.bytes trace.old) (K.bytes trace.new) (K.faults trace.old) (K.faults trace.new) }
    ensures said { (answer : Answer) × IsAnswerOf (ledger_in board.now) seats.now result answer
        × Says answer.text (S.bytes say.old) (S.bytes say.new) (S.faults say.old) (S.faults say.new) }
{
    let status = status_after(end, write_trace(alloc, trace, board));
    tell_end(alloc, say, status, board, seats)
}

/// The status of a run that ended so, and whose trace was written so: running out of memory for the trace comes
/// first, and a fault of it only where all else was done.
fn status_after(end: End, written: Result<(), TraceStop>) -> Status
    ensures { result ≡ after_trace (status_of end) written }
{
    match (written, status_of(end)) {
        (Err(TraceStop::OutOfMemory), _) => Status::OutOfMemory,
        (Err(TraceStop::Failed), Status::Done) => Status::WriteFault,
        (_, ended) => ended,
    }
}

/// Tells the line of a status. Where there is no memory for the line, that is the status.
fn tell_end<C: Clock, S: Sink>(
    alloc: Global,
    say: &mut S,
    status: Status,
    board: &Board<C>,
    seats: &[Seat<C>],
) -> Status
    requires torn { status ≡ Status.Torn → ¬ All (IsWhole (ledger_in board.now)) seats.now }
    ensures status { (result ≡ status) ⊎ (result ≡ Status.OutOfMemory) }
    ensures said { (answer : Answer) × IsAnswerOf (ledger_in board.now) seats.now result answer
        × Says answer.text (S.bytes say.old) (S.bytes say.new) (S.faults say.old) (S.faults say.new) }
{
    match line_of(alloc, status, board, seats) {
        Ok(line) => {
            tell(say, &line);
            status
        }
        Err(AllocError) => Status::OutOfMemory,
    }
}
