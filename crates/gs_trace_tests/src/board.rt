ghost use Rattle.std.specs.Prelude.{◌≡◌, ◌∷◌, ◌<◌, [], IfOk, Contains, length};
ghost use Rattle.gs_units.specs.Params.{AreValid};
ghost use Rattle.gs_beacon.specs.Beacons.{IsBeacon};
ghost use Rattle.gs_board.specs.Boards.{ledger_in};
ghost use Rattle.gs_board.specs.Entries.{neighbours_of};

use gs_beacon::Beacon;
use gs_board::{Board, BoardFault, BoardStop, Halt, MOST, ReserveStop, Seat, Shared, Torn};
use gs_clock::{Clock, MemClock};
use gs_core::NodeEvent;
use gs_units::{END, Link, Links, NodeParams, Rate};
use std::alloc::{AllocError, Global};
use std::sync::{Mutex, Wait};
use std::test::Fail;
use std::thread;

/// Node 0 of a pair of nodes in cluster 7, which sends a beacon at each tick.
fn pair(alloc: Global, rate: Rate) -> Result<NodeParams, AllocError>
    ensures valid { IfOk result AreValid }
    ensures neighbours { IfOk result (λ p. neighbours_of p ≡ 1 ∷ []) }
{
    let link = Link {
        node: 1,
        comp: 70_000,
        jump: 20_000,
        kappa: 122_529,
        delta: 61_264,
    };
    Ok(NodeParams {
        cluster: 7,
        node: 0,
        links: Links::from_vec([link].to_vec(alloc)?),
        rate,
        iota: 2_201,
        every: 1,
    })
}

/// A clock with these readings, whose read of this number fails.
fn clock(alloc: Global, readings: &[u64], fails: u64) -> Result<MemClock, AllocError>
    requires { 0 < length readings.now }
{
    Ok(MemClock::new(readings.to_vec(alloc)?, [fails].to_vec(alloc)?))
}

/// A board of that node over such a clock, with room for this many events.
fn board(alloc: Global, readings: &[u64], fails: u64, room: u64) -> Result<Board<MemClock>, Fail>
    requires { 0 < length readings.now }
    ensures unissued { IfOk result (λ board. (ledger_in board).issued ≡ []) }
    ensures neighbour { IfOk result (λ board. Contains (neighbours_of (ledger_in board).core.params) 1) }
{
    let params = pair(alloc, Rate::new(10_000, 10_001, 2_000)?)?;
    let clock = clock(alloc, readings, fails)?;
    let mut board = match Board::new(alloc, params, 0, clock) {
        Ok(board) => board,
        Err((stop, _)) => return Err(stop)?,
    };
    board.reserve(room)?;
    Ok(board)
}

/// A tick, where the seat is the timer's and has room for it. It gives the fault.
fn tick(board: &mut Board<MemClock>, seat: &mut Seat<MemClock>) -> Option<BoardFault> {
    if seat.room() == 0 || seat.whose().is_some() {
        return None;
    }
    board.tick(seat).err()
}

/// A delivery, where the seat is a neighbour's and has room for it. It gives the fault.
fn hear(
    board: &mut Board<MemClock>,
    seat: &mut Seat<MemClock>,
    beacon: &Beacon,
) -> Option<BoardFault>
    requires { IsBeacon beacon.now }
{
    if seat.room() == 0 || seat.whose().is_none() {
        return None;
    }
    board.deliver(seat, beacon).err()
}

/// The beacon of this cluster and sender that comes behind so many others.
fn beacon(cluster: u32, sender: u32, before: u32) -> Beacon
    ensures { IsBeacon result }
{
    Beacon {
        cluster,
        sender,
        seq: 1 + u64::from(before),
        l: 1_000,
        m: 1_000,
    }
}

#[test]
fn a_clock_that_falls_closes_the_board(rt: HostRuntime) -> Result<(), Fail> {
    let mut board = board(rt.alloc(), &[500, 499], 0, 0)?;
    let mut seat = board.seat(rt.alloc(), None)?;
    seat.reserve(2)?;
    assert!(rt; tick(&mut board, &mut seat) == Some(BoardFault::Full));
    assert!(rt; board.reserve(MOST + 1) == Err(ReserveStop::Filled));
    board.reserve(2)?;

    let fell = BoardFault::Fell {
        last: 500,
        now: 499,
    };
    assert!(rt; tick(&mut board, &mut seat) == Some(fell));
    assert!(rt; board.halt() == fell.halt());
    assert!(rt; board.core().last() == 500);
    assert!(rt; board.journal().is_empty() && board.spare() == 2);
    assert!(rt; seat.told().is_empty() && seat.room() == 2);
    assert!(rt; tick(&mut board, &mut seat) == Some(BoardFault::Closed));
    Ok(())
}

#[test]
fn a_tick_stands_in_the_journal_and_in_the_seat(rt: HostRuntime) -> Result<(), Fail> {
    let mut board = board(rt.alloc(), &[500, 600], 3, 2)?;
    let mut seat = board.seat(rt.alloc(), None)?;
    seat.reserve(2)?;
    assert!(rt; tick(&mut board, &mut seat).is_none());
    assert!(rt; board.begun().hw == 500);
    for (place, told) in seat.told().iter().enumerate() {
        assert!(rt; place == 0 && told.place == 0);
        assert!(rt; told.event == NodeEvent::Tick { hw: 600 });
        assert!(rt; told.ticked.map(|reply| reply.l) == Some(100));
        assert!(rt; board.journal() == [told.event].as_slice());
    }

    assert!(rt; tick(&mut board, &mut seat) == Some(BoardFault::ClockFailed));
    assert!(rt; board.halt() == Some(Halt::ClockFailed));
    assert!(rt; board.compare(&seat).is_none());
    Ok(())
}

#[test]
fn a_beacon_is_its_senders(rt: HostRuntime) -> Result<(), Fail> {
    let mut board = board(rt.alloc(), &[500, 1_000], 0, 2)?;
    let mut seat = board.seat(rt.alloc(), Some(1))?;
    seat.reserve(2)?;
    let cluster = hear(&mut board, &mut seat, &beacon(8, 2, 0));
    let stranger = hear(&mut board, &mut seat, &beacon(7, 2, 0));
    assert!(rt; cluster == Some(BoardFault::Cluster));
    assert!(rt; stranger == Some(BoardFault::Stranger));

    assert!(rt; hear(&mut board, &mut seat, &beacon(7, 1, 0)).is_none());
    assert!(rt; seat.told().len() == 1 && board.compare(&seat).is_none());
    board.close();
    assert!(rt; board.closed() && board.halt().is_none());
    let closed = hear(&mut board, &mut seat, &beacon(7, 1, 1));
    assert!(rt; closed == Some(BoardFault::Closed));
    Ok(())
}

#[test]
fn a_seat_of_another_board_is_torn(rt: HostRuntime) -> Result<(), Fail> {
    let mut first = board(rt.alloc(), &[500, 600], 0, 1)?;
    let mut seat = first.seat(rt.alloc(), None)?;
    seat.reserve(1)?;
    tick(&mut first, &mut seat);
    let other = board(rt.alloc(), &[501], 0, 0)?;
    assert!(rt; matches!(other.compare(&seat), Some(Torn::Frame)));

    let twin = board(rt.alloc(), &[500, 700], 0, 0)?;
    match twin.compare(&seat) {
        Some(Torn::Entry { index, told, kept }) => {
            assert!(rt; index == 0 && kept.is_none());
            assert!(rt; told == seat.told().first().copied());
        }
        _ => return Err("the seat is not torn")?,
    }
    Ok(())
}

#[test]
fn a_stop_gives_the_clock_back(rt: HostRuntime) -> Result<(), Fail> {
    let params = pair(rt.alloc(), Rate::new(10_000, 10_001, 2_000)?)?;
    let clock = clock(rt.alloc(), &[END, 7], 0)?;
    match Board::new(rt.alloc(), params, 0, clock) {
        Err((BoardStop::Far, mut clock)) => assert!(rt; clock.read() == Ok(7)),
        _ => return Err("a board stands at the end")?,
    }
    let mut clock = board(rt.alloc(), &[500, 600], 0, 0)?.into_clock();
    assert!(rt; clock.read() == Ok(600));
    Ok(())
}

/// Ticks a hundred times under the lock.
fn tick_often(rt: &impl Wait, board: &Shared<MemClock>, seat: Seat<MemClock>) -> Seat<MemClock> {
    let mut seat = seat;
    for _ in 0..100 {
        tick(&mut board.lock(rt), &mut seat);
    }
    seat
}

/// Hears a hundred beacons under the lock.
fn hear_often(rt: &impl Wait, board: &Shared<MemClock>, seat: Seat<MemClock>) -> Seat<MemClock> {
    let mut seat = seat;
    for before in 0..100 {
        hear(&mut board.lock(rt), &mut seat, &beacon(7, 1, before));
    }
    seat
}

#[test]
fn two_threads_share_a_board(rt: HostRuntime) -> Result<(), Fail> {
    let mut board = board(rt.alloc(), &[500, 600], 0, 200)?;
    let mut timer = board.seat(rt.alloc(), None)?;
    timer.reserve(100)?;
    let mut neighbour = board.seat(rt.alloc(), Some(1))?;
    neighbour.reserve(100)?;
    let shared = Mutex::new(board);
    let (timer, neighbour) = thread::join(
        &rt,
        || tick_often(&rt, &shared, timer),
        || hear_often(&rt, &shared, neighbour),
    );
    let board = shared.into_inner();
    assert!(rt; board.journal().len() == 200);
    assert!(rt; timer.told().len() == 100 && neighbour.told().len() == 100);
    assert!(rt; board.compare(&timer).is_none() && board.compare(&neighbour).is_none());
    Ok(())
}
