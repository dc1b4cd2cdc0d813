ghost use Rattle.std.specs.Prelude.{◌≡◌, ◌≤◌, ◌+◌, ◌∷◌, ◌⊎◌, [], map, length, vec_len, Some, Err, true, false, All, IsOk, MatchOption};
ghost use Rattle.std.specs.Vec.{vec_capacity};
ghost use Rattle.gs_board.specs.Boards.{ledger_in};
ghost use Rattle.gs_board.specs.Entries.{neighbours_of};
ghost use Rattle.gs_board.specs.Torn.{IsWhole};
ghost use Rattle.gs_respond.specs.Doors.{Owes};
ghost use Rattle.gs_respond.specs.Rests.{is_at_rest};
ghost use Rattle.gs_node.specs.Ends.{IsEnd, IsFirstTorn};
ghost use Rattle.gs_node.specs.Handing.{HandedIn, failures_in, handed_back};
ghost use Rattle.gs_node.specs.Serving.{DoneEnd, EveryEnd};
ghost use Rattle.gs_node.specs.inside.Runs.{HasReasons, HasRun, failed_in, leavings_of, reasons_of};

use crate::choosing::{Signs, choose};
use crate::ends::{End, first_torn};
use crate::joins::Met;
use crate::running::Ran;
use crate::serving::Served;
use gs_board::{Board, ReserveStop, Seat};
use gs_callers::{Refusal, TimerStop};
use gs_clock::Clock;
use gs_net::{Door, Inlet, Outlet};
use gs_respond::{Responded, Rest};

/// Closes the board, compares each seat with it, and chooses the end.
pub(crate) fn finish<C: Clock, V: Clock, I: Inlet, O: Outlet, D: Door>(
    board: Board<C>,
    ran: Ran<C, V, I, O, D>,
    seats: Vec<Seat<C>>,
) -> Served<C, V, I, O, D>
    requires { (seats.items ≡ []) × (vec_len ran.others + 1 ≤ vec_capacity seats) }
    ensures every { (a : HandedIn) → HasRun a (map (λ x. Some x) (neighbours_of a.params)) (leavings_of I.Inlet O.Outlet D.Inlet ran)
        → EveryEnd a (handed_back C.Clock I.Inlet O.Outlet D.Inlet result) }
    ensures done { (a : HandedIn) → HasRun a (map (λ x. Some x) (neighbours_of a.params)) (leavings_of I.Inlet O.Outlet D.Inlet ran)
        → HasReasons a (leavings_of I.Inlet O.Outlet D.Inlet ran) (failed_in V.Clock I.Inlet O.Outlet D.Inlet ran) (reasons_of ran) → result.end ≡ End.Done
        → DoneEnd a (handed_back C.Clock I.Inlet O.Outlet D.Inlet result) }
    ensures end { (a : HandedIn) → HasReasons a (leavings_of I.Inlet O.Outlet D.Inlet ran) (failed_in V.Clock I.Inlet O.Outlet D.Inlet ran) (reasons_of ran)
        → IsEnd (ledger_in result.board) result.seats.items (failures_in C.Clock V.Clock I.Inlet O.Outlet D.Inlet result) (ran.refused ≡ true) result.end }
    ensures owing { (a : HandedIn) → HasReasons a (leavings_of I.Inlet O.Outlet D.Inlet ran) (failed_in V.Clock I.Inlet O.Outlet D.Inlet ran) (reasons_of ran)
        → Owes (D.Inlet.tale result.door) (D.Inlet.replies result.door)
        (D.Inlet.faults result.door + V.faults result.view_clock) }
{
    let Ran {
        timer,
        others,
        inlets,
        outlet,
        responded,
        publisher,
        refused,
        stop,
        met,
    } = ran;
    let Responded {
        door,
        view_clock,
        rest,
    } = responded;
    let mut board = board;
    let mut seats = seats;
    board.close();
    gather(&mut seats, timer, others);
    let signs = signs_of(&board, seats.as_slice(), refused, stop, rest, met);
    Served {
        end: choose(&signs),
        board,
        seats,
        inlets,
        outlet,
        door,
        view_clock,
        publisher,
        dropped: met.dropped,
    }
}

/// Puts the timer's seat before the others.
fn gather<C: Clock>(seats: &mut Vec<Seat<C>>, timer: Seat<C>, others: Vec<Seat<C>>)
    requires { (seats.old.items ≡ []) × (vec_len others + 1 ≤ vec_capacity seats.old) }
    ensures { seats.new.items ≡ timer ∷ others.items }
{
    seats.push_reserved(timer);
    for seat in others {
        seats.push_reserved(seat);
    }
}

/// What the board, the seats and the reasons to stop show.
fn signs_of<C: Clock>(
    board: &Board<C>,
    seats: &[Seat<C>],
    refused: bool,
    stop: Result<(), TimerStop>,
    rest: Rest,
    met: Met,
) -> Signs
    ensures torn { MatchOption result.torn
        (All (IsWhole (ledger_in board.now)) seats.now) (IsFirstTorn (ledger_in board.now) seats.now) }
    ensures no_thread { result.no_thread ≡ refused }
    ensures halt { result.halt ≡ (ledger_in board.now).halt }
    ensures view { result.view_failed ≡ true → rest ≡ Rest.Clock }
    ensures length { result.length ≡ length (ledger_in board.now).journal }
    ensures link { result.link_failed ≡ true
        → (met.fault ≡ true) ⊎ ((rest ≡ Rest.Door) ⊎ (stop ≡ Err TimerStop.Send)) }
    ensures short { result.short ≡ false → (met.short ≡ false) × (is_at_rest rest ≡ true) × IsOk stop }
{
    Signs {
        torn: first_torn(board, seats),
        no_thread: refused,
        halt: board.halt(),
        view_failed: rest == Rest::Clock,
        filled: met.filled || is_filled(stop),
        length: board.journal().len() as u64,
        link_failed: met.fault || rest == Rest::Door || is_send(stop),
        short: met.short || !rest.is_at_rest() || stop.is_err(),
    }
}

/// Whether the timer stopped since the outlet failed.
fn is_send(stop: Result<(), TimerStop>) -> bool
    ensures { result ≡ true → stop ≡ Err TimerStop.Send }
{
    match stop {
        Err(TimerStop::Send) => true,
        _ => false,
    }
}

/// Whether the timer found the journal full.
fn is_filled(stop: Result<(), TimerStop>) -> bool {
    match stop {
        Err(TimerStop::Refused(Refusal::Reserve(ReserveStop::Filled))) => true,
        _ => false,
    }
}
