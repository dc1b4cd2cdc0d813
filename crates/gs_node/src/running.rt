ghost use Rattle.std.specs.Prelude.{◌≡◌, ◌≤◌, ◌∷◌, [], map, length, vec_len, None, Err, ◌<◌, true, false, OnOk, OnErr};
ghost use Rattle.std.specs.Vec.{vec_capacity};
ghost use Rattle.gs_io.specs.Causes.{Rose};
ghost use Rattle.gs_board.specs.Slips.{SameSeat};
ghost use Rattle.gs_callers.specs.Snaps.{first_snap};
ghost use Rattle.gs_callers.specs.Timed.{IsCutOff, IsInStep};
ghost use Rattle.gs_node.specs.inside.Begun.{AreReady, of_task};
ghost use Rattle.gs_node.specs.inside.Runs.{HasReasons, HasRun, begun_by, failed_in, leavings_of, reasons_of};

use crate::hands::{Course, Hands, Places, Room};
use crate::joins::{Met, join_all};
use crate::starts::{Begun, start_all, start_one};
use gs_board::{Seat, Shared};
use gs_callers::{Listening, TimerStop, run_turns};
use gs_clock::Clock;
use gs_crew::{Crew, Refused, Task};
use gs_gate::Gate;
use gs_net::{Door, Inlet, Outlet};
use gs_respond::{Responded, Responding, Rest};
use gs_units::{Link, NodeParams};
use gs_view::{Publisher, Reader, Snap};
use std::alloc::Global;
use std::sync::Wait;
use std::thread;
use std::thread::{Scope, Threads};

/// What the threads leave behind, and what they met.
pub(crate) struct Ran<C: Clock, V: Clock, I: Inlet, O: Outlet, D: Door> {
    pub timer: Seat<C>,
    pub others: Vec<Seat<C>>,
    pub inlets: Vec<I>,
    pub outlet: O,
    /// What the responder hands back.
    pub responded: Responded<V, D>,
    pub publisher: Option<Publisher>,
    /// A start was refused.
    pub refused: bool,
    /// Why the timer stopped.
    pub stop: Result<(), TimerStop>,
    /// What the receivers met.
    pub met: Met,
}

/// Runs the threads over a board that is shared while they run.
pub(crate) fn beside<
    R: Threads + Wait + Sync,
    C: Clock + Send,
    V: Clock + Send,
    I: Inlet + Send,
    O: Outlet,
    D: Door + Send,
    W: Crew,
    G: Gate,
>(
    places: Places<'_, R, C>,
    alloc: Global,
    first: Snap,
    hands: Hands<C, V, I, O, D>,
    room: Room<C, I>,
    crew: &mut W,
    gate: &G,
    course: Course,
) -> Ran<C, V, I, O, D>
    requires ready { AreReady I.Inlet O.Outlet D.Inlet places.params.now hands }
    requires seats { (room.seats.items ≡ []) × (vec_len hands.inlets ≤ vec_capacity room.seats) }
    requires inlets { (room.inlets.items ≡ []) × (vec_len hands.inlets ≤ vec_capacity room.inlets) }
    requires first { first ≡ first_snap hands.timer.begun }
    ensures ran { HasRun (begun_by I.Inlet D.Inlet places.entry.params.now hands course.ticks)
        (map (λ s. s.whose) hands.seats.items) (leavings_of I.Inlet O.Outlet D.Inlet result) }
    ensures reasons { HasReasons (begun_by I.Inlet D.Inlet places.entry.params.now hands course.ticks)
        (leavings_of I.Inlet O.Outlet D.Inlet result) (failed_in V.Clock I.Inlet O.Outlet D.Inlet result) (reasons_of result) }
    ensures refused { result.refused ≡ true → Rose (W.faults crew.old) (W.faults crew.new) }
{
    let (ran, _crew) = thread::scope(
        thread::scope_env(),
        places.rt,
        move |scope| -> (Ran<C, V, I, O, D>, &mut W)
            requires ready { AreReady I.Inlet O.Outlet D.Inlet places.params.now hands }
            requires seats { (room.seats.items ≡ []) × (vec_len hands.inlets ≤ vec_capacity room.seats) }
            requires inlets { (room.inlets.items ≡ []) × (vec_len hands.inlets ≤ vec_capacity room.inlets) }
            requires first { first ≡ first_snap hands.timer.begun }
            ensures ran { HasRun (begun_by I.Inlet D.Inlet places.entry.params.now hands course.ticks)
                (map (λ s. s.whose) hands.seats.items) (leavings_of I.Inlet O.Outlet D.Inlet result.0) }
            ensures reasons { HasReasons (begun_by I.Inlet D.Inlet places.entry.params.now hands course.ticks)
                (leavings_of I.Inlet O.Outlet D.Inlet result.0) (failed_in V.Clock I.Inlet O.Outlet D.Inlet result.0) (reasons_of result.0) }
            ensures refused { result.0.refused ≡ true → Rose (W.faults crew.entry.now) (W.faults result.1.now) }
            ensures same { result.1.ghost_name ≡ crew.entry.ghost_name }
        {
            let ran = work(
                places, alloc, scope, first, hands, room, &mut *crew, gate, course,
            );
            (ran, crew)
        },
    );
    ran
}

/// Makes the view and the list of what runs, and runs all.
fn work<
    's,
    'e: 's,
    R: Threads + Wait + Sync + 'e,
    C: Clock + Send + 'e,
    V: Clock + Send + 'e,
    I: Inlet + Send + 'e,
    O: Outlet,
    D: Door + Send + 'e,
    W: Crew,
    G: Gate,
>(
    places: Places<'e, R, C>,
    alloc: Global,
    scope: &Scope<'s, &'e ()>,
    first: Snap,
    hands: Hands<C, V, I, O, D>,
    room: Room<C, I>,
    crew: &mut W,
    gate: &G,
    course: Course,
) -> Ran<C, V, I, O, D>
    requires ready { AreReady I.Inlet O.Outlet D.Inlet places.params.now hands }
    requires seats { (room.seats.items ≡ []) × (vec_len hands.inlets ≤ vec_capacity room.seats) }
    requires inlets { (room.inlets.items ≡ []) × (vec_len hands.inlets ≤ vec_capacity room.inlets) }
    requires first { first ≡ first_snap hands.timer.begun }
    ensures ran { HasRun (begun_by I.Inlet D.Inlet places.entry.params.now hands course.ticks)
        (map (λ s. s.whose) hands.seats.items) (leavings_of I.Inlet O.Outlet D.Inlet result) }
    ensures reasons { HasReasons (begun_by I.Inlet D.Inlet places.entry.params.now hands course.ticks)
        (leavings_of I.Inlet O.Outlet D.Inlet result) (failed_in V.Clock I.Inlet O.Outlet D.Inlet result) (reasons_of result) }
    ensures refused { result.refused ≡ true → Rose (W.faults crew.old) (W.faults crew.new) }
{
    let mut begun = Vec::new(alloc);
    let Ok(()) = begun.reserve(hands.inlets.len()) else {
        return untouched(places.params, hands, course);
    };
    let Ok((publisher, reader)) = Publisher::new(alloc, places.params.rate, first) else {
        return untouched(places.params, hands, course);
    };
    run_all(
        places, scope, publisher, reader, begun, hands, room, crew, gate, course,
    )
}

/// What is left where nothing was started.
fn untouched<C: Clock, V: Clock, I: Inlet, O: Outlet, D: Door>(
    params: &NodeParams,
    hands: Hands<C, V, I, O, D>,
    course: Course,
) -> Ran<C, V, I, O, D>
    requires ready { AreReady I.Inlet O.Outlet D.Inlet params.now hands }
    ensures ran { HasRun (begun_by I.Inlet D.Inlet params.now hands course.ticks)
        (map (λ s. s.whose) hands.seats.items) (leavings_of I.Inlet O.Outlet D.Inlet result) }
    ensures reasons { HasReasons (begun_by I.Inlet D.Inlet params.now hands course.ticks)
        (leavings_of I.Inlet O.Outlet D.Inlet result) (failed_in V.Clock I.Inlet O.Outlet D.Inlet result) (reasons_of result) }
    ensures unrefused { result.refused ≡ false }
{
    let _params = params;
    let _course = course;
    let Hands {
        timer,
        seats,
        inlets,
        outlet,
        door,
        view_clock,
    } = hands;
    Ran {
        timer,
        others: seats,
        inlets,
        outlet,
        responded: Responded {
            door,
            view_clock,
            rest: Rest::Open,
        },
        publisher: None,
        refused: false,
        stop: Err(TimerStop::Memory),
        met: Met {
            fault: false,
            filled: false,
            short: true,
            dropped: 0,
        },
    }
}

/// Starts the receivers and the responder, is the timer, and joins all.
fn run_all<
    's,
    'e: 's,
    R: Threads + Wait + Sync + 'e,
    C: Clock + Send + 'e,
    V: Clock + Send + 'e,
    I: Inlet + Send + 'e,
    O: Outlet,
    D: Door + Send + 'e,
    W: Crew,
    G: Gate,
>(
    places: Places<'e, R, C>,
    scope: &Scope<'s, &'e ()>,
    publisher: Publisher,
    reader: Reader,
    begun: Vec<Begun<'s, Listening<'e, R, C, I>>>,
    hands: Hands<C, V, I, O, D>,
    room: Room<C, I>,
    crew: &mut W,
    gate: &G,
    course: Course,
) -> Ran<C, V, I, O, D>
    requires ready { AreReady I.Inlet O.Outlet D.Inlet places.params.now hands }
    requires seats { (room.seats.items ≡ []) × (vec_len hands.inlets ≤ vec_capacity room.seats) }
    requires inlets { (room.inlets.items ≡ []) × (vec_len hands.inlets ≤ vec_capacity room.inlets) }
    requires begun { (begun.items ≡ []) × (vec_len hands.inlets ≤ vec_capacity begun) }
    requires first { publisher ≡ first_snap hands.timer.begun ∷ [] }
    ensures ran { HasRun (begun_by I.Inlet D.Inlet places.entry.params.now hands course.ticks)
        (map (λ s. s.whose) hands.seats.items) (leavings_of I.Inlet O.Outlet D.Inlet result) }
    ensures reasons { HasReasons (begun_by I.Inlet D.Inlet places.entry.params.now hands course.ticks)
        (leavings_of I.Inlet O.Outlet D.Inlet result) (failed_in V.Clock I.Inlet O.Outlet D.Inlet result) (reasons_of result) }
    ensures refused { result.refused ≡ true → Rose (W.faults crew.old) (W.faults crew.new) }
{
    let Places { rt, board, params } = places;
    let Hands {
        mut timer,
        seats,
        inlets,
        mut outlet,
        door,
        view_clock,
    } = hands;
    let (mut room, mut begun, mut publisher) = (room, begun, publisher);
    let mut refused = start_all(
        rt, scope, board, params, seats, inlets, &mut begun, &mut *crew,
    );
    let task = Responding::new(rt, board, params.node, door, view_clock, reader);
    let asked = start_one(scope, task, &mut refused, &mut *crew);
    let stop = run_unless(
        refused,
        rt,
        board,
        &mut timer,
        &mut outlet,
        &mut publisher,
        params.links.as_slice(),
        gate,
        course,
    );
    close(rt, board);
    let met = join_all(rt, params, begun, &mut room.seats, &mut room.inlets);
    let responded = wait_for_responder(rt, asked).end();
    Ran {
        timer,
        others: room.seats,
        inlets: room.inlets,
        outlet,
        responded,
        publisher: Some(publisher),
        refused,
        stop,
        met,
    }
}

/// The timer's turns, unless a start was refused.
fn run_unless<R: Wait, C: Clock, O: Outlet, G: Gate>(
    refused: bool,
    rt: &R,
    board: &Shared<C>,
    seat: &mut Seat<C>,
    outlet: &mut O,
    publisher: &mut Publisher,
    links: &[Link],
    gate: &G,
    course: Course,
) -> Result<(), TimerStop>
    requires timer { seat.old.whose ≡ None }
    requires new { seat.old.told ≡ [] }
    requires step { IsInStep links.now seat.old (O.sent outlet.old) publisher.old }
    ensures ok { OnOk result (IsInStep links.now seat.new (O.sent outlet.new) publisher.new) }
    ensures all { OnOk result (length seat.new.told ≡ course.ticks) }
    ensures err { OnErr result (IsCutOff links.now seat.new (O.sent outlet.new) publisher.new) }
    ensures most { length seat.new.told ≤ course.ticks }
    ensures same { SameSeat seat.old seat.new }
    ensures cause { result ≡ Err TimerStop.Send → 0 < O.faults outlet.new }
{
    if refused {
        return Err(TimerStop::NoThread);
    }
    run_turns(
        rt,
        board,
        seat,
        outlet,
        publisher,
        links,
        gate,
        course.ticks,
        course.pace,
    )
}

/// Closes the board.
fn close<R: Wait, C: Clock>(rt: &R, board: &Shared<C>) {
    board.lock(rt).close();
}

/// Waits for the responder, if it was started.
fn wait_for_responder<
    's,
    'e,
    R: Threads + Wait + Sync,
    C: Clock + Send,
    V: Clock + Send,
    D: Door + Send,
>(rt: &R, one: Begun<'s, Responding<'e, R, C, V, D>>) -> Responding<'e, R, C, V, D>
    ensures { ⟦<Responding<'e, R, C, V, D> as Task>⟧.name result
        ≡ of_task ⟦<Responding<'e, R, C, V, D> as Task>⟧.name one.entry }
{
    match one {
        Ok(running) => running.join(rt),
        Err(refused) => {
            let Refused { task } = refused;
            task
        }
    }
}
