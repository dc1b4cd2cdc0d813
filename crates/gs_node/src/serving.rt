ghost use Rattle.std.specs.Prelude.{◌≡◌, ◌≤◌, ◌+◌, [], map, length, vec_len, Some, None, false, All};
ghost use Rattle.std.specs.Vec.{vec_capacity};
ghost use Rattle.gs_io.specs.Causes.{Rose};
ghost use Rattle.gs_net.specs.Tales.{IsFresh, IsUnused};
ghost use Rattle.gs_board.specs.Boards.{ledger_in};
ghost use Rattle.gs_board.specs.Slips.{new_slip};
ghost use Rattle.gs_callers.specs.Snaps.{first_snap};
ghost use Rattle.gs_respond.specs.Doors.{Owes};
ghost use Rattle.gs_node.specs.Ends.{IsEnd};
ghost use Rattle.gs_node.specs.Handing.{failures_in, handed_back, handed_in};
ghost use Rattle.gs_node.specs.Serving.{DoneEnd, EveryEnd};

use crate::ends::End;
use crate::finishing::finish;
use crate::hands::{Course, Hands, Places, Room};
use crate::running::beside;
use crate::seating::{Ready, prepare};
use gs_board::{Board, Seat};
use gs_clock::Clock;
use gs_crew::Crew;
use gs_gate::Gate;
use gs_net::{Door, Inlet, Outlet};
use gs_trace::NodeStart;
use gs_units::Mode;
use gs_view::{Publisher, Snap};
use std::alloc::Global;
use std::sync::{Mutex, Wait};
use std::thread::Threads;

/// How a run of a node ended, and all that was handed to it.
pub struct Served<C: Clock, V: Clock, I: Inlet, O: Outlet, D: Door> {
    /// The first end that holds.
    pub end: End,
    /// The board, closed.
    pub board: Board<C>,
    /// The timer's seat and then the neighbours' in order, or none where they could not be made.
    pub seats: Vec<Seat<C>>,
    /// The inlets in order.
    pub inlets: Vec<I>,
    pub outlet: O,
    pub door: D,
    pub view_clock: V,
    /// What the timer published with, to be ended by the caller; none where nothing was started.
    pub publisher: Option<Publisher>,
    /// How many datagrams were not wanted and were dropped without taking the lock.
    pub dropped: u64,
}

/// Runs a node: a receiver for each neighbour, whose inlets stand in ascending order, and a responder
/// beside the caller, who is the timer. The timer takes `ticks` turns, before each of which the gate rests
/// for `pace` units, and closes the board; then all are joined, and each seat is compared with the board.
pub fn serve<
    R: Threads + Wait + Sync,
    C: Clock + Send,
    V: Clock + Send,
    I: Inlet + Send,
    O: Outlet,
    D: Door + Send,
    W: Crew,
    G: Gate,
>(
    rt: &R,
    alloc: Global,
    board: Board<C>,
    inlets: Vec<I>,
    outlet: O,
    door: D,
    view_clock: V,
    crew: &mut W,
    gate: &G,
    ticks: u32,
    pace: u64,
) -> Served<C, V, I, O, D>
    requires open { (ledger_in board).closed ≡ false }
    requires empty { (ledger_in board).journal ≡ [] }
    requires unissued { (ledger_in board).issued ≡ [] }
    requires count { length inlets.items ≡ length (ledger_in board).core.params.links }
    requires inlets { All IsFresh (map I.tale inlets.items) }
    requires door { IsFresh (D.Inlet.tale door) }
    requires silent { IsUnused (D.Inlet.replies door) }
    requires unsent { IsUnused (O.sent outlet) }
    ensures every { EveryEnd (handed_in C.Clock I.Inlet D.Inlet board inlets.items door ticks) (handed_back C.Clock I.Inlet O.Outlet D.Inlet result) }
    ensures done { result.end ≡ End.Done → DoneEnd (handed_in C.Clock I.Inlet D.Inlet board inlets.items door ticks) (handed_back C.Clock I.Inlet O.Outlet D.Inlet result) }
    ensures end { IsEnd (ledger_in result.board) result.seats.items (failures_in C.Clock V.Clock I.Inlet O.Outlet D.Inlet result)
        (Rose (W.faults crew.old) (W.faults crew.new)) result.end }
    ensures owing { Owes (D.Inlet.tale result.door) (D.Inlet.replies result.door)
        (D.Inlet.faults result.door + V.faults result.view_clock) }
{
    let mut board = board;
    match prepare(alloc, &mut board, inlets.len()) {
        Ok(ready) => run(
            rt, alloc, board, ready, inlets, outlet, door, view_clock, crew, gate, ticks, pace,
        ),
        Err(_) => without_seats(alloc, board, inlets, outlet, door, view_clock, ticks),
    }
}

/// Runs the threads over the board in its lock.
fn run<
    R: Threads + Wait + Sync,
    C: Clock + Send,
    V: Clock + Send,
    I: Inlet + Send,
    O: Outlet,
    D: Door + Send,
    W: Crew,
    G: Gate,
>(
    rt: &R,
    alloc: Global,
    board: Board<C>,
    ready: Ready<C, I>,
    inlets: Vec<I>,
    outlet: O,
    door: D,
    view_clock: V,
    crew: &mut W,
    gate: &G,
    ticks: u32,
    pace: u64,
) -> Served<C, V, I, O, D>
    requires timer { ready.timer ≡ new_slip (ledger_in board) None }
    requires seats { ready.seats.items
        ≡ map (λ link. new_slip (ledger_in board) (Some link.node)) (ledger_in board).core.params.links }
    requires params { ready.params ≡ (ledger_in board).core.params }
    requires count { length inlets.items ≡ length (ledger_in board).core.params.links }
    requires others { (ready.others.items ≡ []) × (vec_len inlets ≤ vec_capacity ready.others) }
    requires back { (ready.back.items ≡ []) × (vec_len inlets ≤ vec_capacity ready.back) }
    requires all { (ready.all.items ≡ []) × (vec_len inlets + 1 ≤ vec_capacity ready.all) }
    requires inlets { All IsFresh (map I.tale inlets.items) }
    requires door { IsFresh (D.Inlet.tale door) }
    requires silent { IsUnused (D.Inlet.replies door) }
    requires unsent { IsUnused (O.sent outlet) }
    ensures every { EveryEnd (handed_in C.Clock I.Inlet D.Inlet board inlets.items door ticks) (handed_back C.Clock I.Inlet O.Outlet D.Inlet result) }
    ensures done { result.end ≡ End.Done → DoneEnd (handed_in C.Clock I.Inlet D.Inlet board inlets.items door ticks) (handed_back C.Clock I.Inlet O.Outlet D.Inlet result) }
    ensures end { IsEnd (ledger_in result.board) result.seats.items (failures_in C.Clock V.Clock I.Inlet O.Outlet D.Inlet result)
        (Rose (W.faults crew.old) (W.faults crew.new)) result.end }
    ensures owing { Owes (D.Inlet.tale result.door) (D.Inlet.replies result.door)
        (D.Inlet.faults result.door + V.faults result.view_clock) }
{
    let Ready {
        timer,
        seats,
        params,
        others,
        back,
        all,
    } = ready;
    let first = first_of(board.begun());
    let lock = Mutex::new(board);
    let hands = Hands {
        timer,
        seats,
        inlets,
        outlet,
        door,
        view_clock,
    };
    let room = Room {
        seats: others,
        inlets: back,
    };
    let course = Course { ticks, pace };
    let places = Places {
        rt,
        board: &lock,
        params: &params,
    };
    let ran = beside(places, alloc, first, hands, room, crew, gate, course);
    finish(lock.into_inner(), ran, all)
}

/// The snap of a board's start.
fn first_of(begun: NodeStart) -> Snap
    ensures { result ≡ first_snap begun }
{
    Snap {
        place: 0,
        l: begun.l0,
        at: begun.hw,
        mode: Mode::Slow,
    }
}

/// What is handed back where the seats could not be made.
fn without_seats<C: Clock, V: Clock, I: Inlet, O: Outlet, D: Door>(
    alloc: Global,
    board: Board<C>,
    inlets: Vec<I>,
    outlet: O,
    door: D,
    view_clock: V,
    ticks: u32,
) -> Served<C, V, I, O, D>
    requires journal { (ledger_in board).journal ≡ [] }
    requires halt { (ledger_in board).halt ≡ None }
    requires door { IsFresh (D.Inlet.tale door) }
    requires silent { IsUnused (D.Inlet.replies door) }
    requires unsent { IsUnused (O.sent outlet) }
    ensures every { EveryEnd (handed_in C.Clock I.Inlet D.Inlet board inlets.items door ticks) (handed_back C.Clock I.Inlet O.Outlet D.Inlet result) }
    ensures why { result.end ≡ End.OutOfMemory }
    ensures seats { result.seats.items ≡ [] }
    ensures halt { (ledger_in result.board).halt ≡ None }
    ensures owing { Owes (D.Inlet.tale result.door) (D.Inlet.replies result.door)
        (D.Inlet.faults result.door + V.faults result.view_clock) }
{
    let _ticks = ticks;
    let mut board = board;
    board.close();
    Served {
        end: End::OutOfMemory,
        board,
        seats: Vec::new(alloc),
        inlets,
        outlet,
        door,
        view_clock,
        publisher: None,
        dropped: 0,
    }
}
