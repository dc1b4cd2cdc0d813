ghost use Rattle.std.specs.Prelude.{◌≡◌, ◌++◌, List, map, length, string_bytes, true};
ghost use Rattle.gs_io.specs.Held.{Appends};
ghost use Rattle.gs_board.specs.Boards.{ledger_in};
ghost use Rattle.gs_board.specs.Ledger.{opened};
ghost use Rattle.gs_net.specs.Tales.{OnTold};
ghost use Rattle.gs_net.specs.declared.lending.Ask.{Ask};
ghost use Rattle.gs_topo.specs.Graph.{neighbours_of};
ghost use Rattle.gs_plan.specs.Plans.{graph_of, text_of};
ghost use Rattle.gs_plan.specs.declared.plan.Plan.{Plan};
ghost use Rattle.gs_inputs.specs.AtHand.{IsCompleted};
ghost use Rattle.gs_inputs.specs.Sources.{seen};
ghost use Rattle.gs_node.specs.Handing.{HandedIn};
ghost use Rattle.gs_node_run.specs.Addresses.{answers_at, asks_for, receives_at};
ghost use Rattle.gs_node_run.specs.Completeness.{IsUnhindered};
ghost use Rattle.gs_node_run.specs.Lending.{Borrowed};
ghost use Rattle.gs_node_run.specs.Lines.{Says, plain_line};
ghost use Rattle.gs_node_run.specs.Nodes.{Names, asks_for_node, names_no_file, params_of};
ghost use Rattle.gs_node_run.specs.Runs.{IsAsked};
ghost use Rattle.gs_node_run.specs.Served.{IfClock, IfServed, IsHanded, Serves, WasServed, clock_left};
ghost use Rattle.gs_node_run.specs.Statuses.{EndsServed, EndsUnserved, IsLate, IsWritten, count, faults};
ghost use Rattle.gs_node_run.specs.Traces.{trace_of};
ghost use Rattle.gs_node_run.specs.Words.{Order, order_of};
ghost use Rattle.gs_node_run.specs.inside.Told.{Unlent, board_status, link_status};

use crate::addresses::Addresses;
use crate::asking::{Lent, ask};
use crate::ends::{Left, NodeEnd};
use crate::lines::{plain_line, refuse, tell};
use crate::reading::{Job, read_job};
use crate::returning::give_back;
use crate::serving::serve_node;
use gs_board::{Board, BoardStop};
use gs_cli::Status;
use gs_clock::Clock;
use gs_crew::Crew;
use gs_io::{Files, Gate, Sink};
use gs_net::{LinkStop, Ports};
use std::alloc::Global;
use std::sync::Wait;
use std::thread::Threads;

/// Does what the words `node PLAN NODE TICKS` ask for: runs the node over an inlet for each neighbour, an
/// outlet and a door, which it gets from the ports and gives back, and writes the trace of its journal to
/// `trace`. The line of a status goes to `say`, whose faults change nothing. Both clocks count nanoseconds
/// from one moment, and one unit is a nanosecond.
pub fn run_node<
    R: Threads + Wait + Sync,
    F: Files,
    C: Clock + Send,
    V: Clock + Send,
    P: Ports,
    K: Sink,
    S: Sink,
    W: Crew,
    G: Gate,
>(
    rt: &R,
    alloc: Global,
    words: &[String],
    files: &mut F,
    clock: C,
    view_clock: V,
    ports: &mut P,
    trace: &mut K,
    say: &mut S,
    crew: &mut W,
    gate: &G,
) -> NodeEnd<C, V>
where
    P::In: Send,
    P::Asked: Send,
    // What was got is the first of all that the node asks for, and just this came back, in that order.
    ensures ports { (all : List Ask) × IsAsked (seen (F.content files.old) (F.faults files.old) (F.faults files.new)) (map string_bytes words.now) all
        × Borrowed all (P.asked ports.old) (P.asked ports.new) (P.back ports.old) (P.back ports.new) }
    ensures inlets_out { P.inlets_out ports.new ≡ P.inlets_out ports.old }
    ensures outlets_out { P.outlets_out ports.new ≡ P.outlets_out ports.old }
    ensures doors_out { P.doors_out ports.new ≡ P.doors_out ports.old }

    // Where the node was served, it was the one that the words name, over all that it asks its ports for, and all
    // that is said of a served node holds.
    ensures served { IfServed result.left (λ ledger seats. (order : Order) × (plan : Plan) × (handed : HandedIn)
        × Names (seen (F.content files.old) (F.faults files.old) (F.faults files.new)) (map string_bytes words.now) order plan
        × (P.asked ports.new ≡ OnTold (P.asked ports.old) (λ before. before ++ asks_for_node plan order.node))
        × IsHanded (params_of plan order.node) order.ticks (P.held ports.old)
        (map (receives_at (text_of plan) (graph_of plan) order.node) (neighbours_of (graph_of plan) order.node))
        (answers_at (text_of plan) (graph_of plan) order.node) handed
        × Serves P.In.tale P.Out.sent P.Asked.Inlet.tale P.Asked.Inlet.replies handed (P.back ports.old) (P.back ports.new) result.status ledger seats) }

    // Each status has its cause, and its line is said.
    ensures unserved { IfClock result.left (λ left. EndsUnserved
        (seen (F.content files.old) (F.faults files.old) (F.faults files.new)) (map string_bytes words.now)
        (faults (C.faults (clock_left result.left)) (V.faults result.view_clock) (count (P.faults ports.old) (P.faults ports.new))
        (count (W.faults crew.old) (W.faults crew.new)) (count (K.faults trace.old) (K.faults trace.new)))
        (IsLate (C.left clock) (C.left left))
        (λ text. Says text (S.bytes say.old) (S.bytes say.new) (S.faults say.old) (S.faults say.new)) result.status) }
    ensures ended { IfServed result.left (λ ledger seats. EndsServed ledger seats
        (faults (C.faults (clock_left result.left)) (V.faults result.view_clock) (count (P.faults ports.old) (P.faults ports.new))
        (count (W.faults crew.old) (W.faults crew.new)) (count (K.faults trace.old) (K.faults trace.new)))
        (λ text. Says text (S.bytes say.old) (S.bytes say.new) (S.faults say.old) (S.faults say.new)) result.status) }

    // The trace is that of the board's journal; a node that was not served has none. With status 0 it is whole.
    ensures clock { IfClock result.left (λ _. K.bytes trace.new ≡ K.bytes trace.old) }
    ensures trace { IfServed result.left (λ ledger seats. IsWritten (trace_of ledger) result.status
        (K.bytes trace.old) (K.bytes trace.new) (K.faults trace.old) (K.faults trace.new)) }
    ensures whole { result.status ≡ Status.Done → WasServed result.left × IfServed result.left (λ ledger seats.
        Appends (K.bytes trace.old) (K.bytes trace.new) (trace_of ledger)) }

    // Words that name no file read none.
    ensures untouched { names_no_file (order_of (map string_bytes words.now)) ≡ true → files.new ≡ files.old }

    // Where nothing keeps it from its end, the run is done, or memory was short.
    ensures completes { IsUnhindered (seen (F.content files.old) (F.faults files.old) (F.faults files.new)) (map string_bytes words.now)
        (C.left clock) result.left
        (faults (C.faults (clock_left result.left)) (V.faults result.view_clock) (count (P.faults ports.old) (P.faults ports.new))
        (count (W.faults crew.old) (W.faults crew.new)) (count (K.faults trace.old) (K.faults trace.new)))
        → IsCompleted result.status }
{
    let Job {
        params,
        addresses,
        ticks,
        pace,
    } = match read_job(alloc, files, words) {
        Ok(job) => job,
        Err(stop) => {
            return NodeEnd {
                status: refuse(say, &stop),
                left: Left::Clock(clock),
                view_clock,
            };
        }
    };
    match Board::new(alloc, params, 0, clock) {
        Ok(board) => run_board(
            rt, alloc, board, &addresses, view_clock, ports, trace, say, crew, gate, ticks, pace,
        ),
        Err((stop, clock)) => NodeEnd {
            status: stopped(say, board_status(stop)),
            left: Left::Clock(clock),
            view_clock,
        },
    }
}

/// The status of a board that could not be made.
fn board_status(stop: BoardStop) -> Status
    ensures { result ≡ board_status stop }
{
    match stop {
        BoardStop::ClockFailed => Status::ClockFault,
        BoardStop::Far => Status::ClockEnd,
        BoardStop::OutOfMemory => Status::OutOfMemory,
    }
}

/// Tells the line of a status, and answers it.
fn stopped<S: Sink>(say: &mut S, status: Status) -> Status
    ensures status { result ≡ status }
    ensures said { Says (plain_line result) (S.bytes say.old) (S.bytes say.new) (S.faults say.old) (S.faults say.new) }
{
    tell(say, &plain_line(status));
    status
}

/// Gets what the node needs from the ports, and runs it where all was lent.
#[tactic(auto, using(crate::proofs::Handed::no_clock))]
fn run_board<
    R: Threads + Wait + Sync,
    C: Clock + Send,
    V: Clock + Send,
    P: Ports,
    K: Sink,
    S: Sink,
    W: Crew,
    G: Gate,
>(
    rt: &R,
    alloc: Global,
    board: Board<C>,
    addresses: &Addresses,
    view_clock: V,
    ports: &mut P,
    trace: &mut K,
    say: &mut S,
    crew: &mut W,
    gate: &G,
    ticks: u32,
    pace: u64,
) -> NodeEnd<C, V>
where
    P::In: Send,
    P::Asked: Send,
    requires opened { ledger_in board ≡ opened (ledger_in board).core.params (ledger_in board).begun }
    requires count { length addresses.now.inlets.items ≡ length (ledger_in board).core.params.links }
    requires start { (ledger_in board).begun.l0 ≡ 0 }
    ensures ports { Borrowed (asks_for addresses.now.inlets.items addresses.now.routes.items addresses.now.door)
        (P.asked ports.old) (P.asked ports.new) (P.back ports.old) (P.back ports.new) }
    ensures inlets_out { P.inlets_out ports.new ≡ P.inlets_out ports.old }
    ensures outlets_out { P.outlets_out ports.new ≡ P.outlets_out ports.old }
    ensures doors_out { P.doors_out ports.new ≡ P.doors_out ports.old }
    ensures served { IfServed result.left (λ ledger seats. (handed : HandedIn)
        × IsHanded (ledger_in board).core.params ticks (P.held ports.old) addresses.now.inlets.items addresses.now.door handed
        × Serves P.In.tale P.Out.sent P.Asked.Inlet.tale P.Asked.Inlet.replies handed (P.back ports.old) (P.back ports.new) result.status ledger seats) }
    ensures lent { IfServed result.left (λ ledger seats. P.asked ports.new ≡ OnTold (P.asked ports.old) (λ before.
        before ++ asks_for addresses.now.inlets.items addresses.now.routes.items addresses.now.door)) }
    ensures unlent { IfClock result.left (λ left. Unlent (P.faults ports.old) (P.faults ports.new) result.status
        × Says (plain_line result.status) (S.bytes say.old) (S.bytes say.new) (S.faults say.old) (S.faults say.new)) }
    ensures ended { IfServed result.left (λ ledger seats. EndsServed ledger seats
        (faults (C.faults (clock_left result.left)) (V.faults result.view_clock) (count (P.faults ports.old) (P.faults ports.new))
        (count (W.faults crew.old) (W.faults crew.new)) (count (K.faults trace.old) (K.faults trace.new)))
        (λ text. Says text (S.bytes say.old) (S.bytes say.new) (S.faults say.old) (S.faults say.new)) result.status) }
    ensures clock { IfClock result.left (λ _. K.bytes trace.new ≡ K.bytes trace.old) }
    ensures trace { IfServed result.left (λ ledger seats. IsWritten (trace_of ledger) result.status
        (K.bytes trace.old) (K.bytes trace.new) (K.faults trace.old) (K.faults trace.new)) }
    ensures whole { result.status ≡ Status.Done → WasServed result.left × IfServed result.left (λ ledger seats.
        Appends (K.bytes trace.old) (K.bytes trace.new) (trace_of ledger)) }
{
    match ask(alloc, ports, addresses) {
        Ok(
            Lent {
                inlets,
                outlet,
                door,
            },
        ) => serve_node(
            rt, alloc, board, inlets, outlet, door, view_clock, ports, trace, say, crew, gate,
            ticks, pace,
        ),
        Err((objects, stop)) => {
            give_back(ports, objects);
            NodeEnd {
                status: stopped(say, link_status(stop)),
                left: Left::Clock(board.into_clock()),
                view_clock,
            }
        }
    }
}

/// The status of ports that lent nothing.
fn link_status(stop: LinkStop) -> Status
    ensures { result ≡ link_status stop }
{
    match stop {
        LinkStop::Failed => Status::LinkFault,
        LinkStop::OutOfMemory => Status::OutOfMemory,
    }
}
