ghost use Rattle.std.specs.Prelude.{◌≡◌, ◌∷◌, ◌<◌, ◌^◌, [], Some, IfOk, Contains};
ghost use Rattle.gs_units.specs.Params.{AreValid};
ghost use Rattle.gs_net.specs.Tales.{IsUnused};
ghost use Rattle.gs_board.specs.Boards.{ledger_in};
ghost use Rattle.gs_board.specs.Entries.{neighbours_of};
ghost use Rattle.gs_callers.specs.Snaps.{first_snap};

use crate::*;
use gs_beacon::{Beacon, encode};
use gs_board::Board;
use gs_clock::MemClock;
use gs_crew::Task;
use gs_gates::CountGate;
use gs_net::{Item, MemInlet, MemOutlet, Payload};
use gs_trace::NodeStart;
use gs_units::{END, Link, Links, Mode, NodeParams, Rate};
use gs_view::{Publisher, Snap};
use std::alloc::{AllocError, Global};
use std::sync::{Mutex, Wait};
use std::test::Fail;

/// Node 0 of a pair of nodes in cluster 7, which sends a beacon at each tick.
fn pair(alloc: Global, rate: Rate) -> Result<NodeParams, AllocError>
    ensures valid { IfOk result AreValid }
    ensures neighbours { IfOk result (λ p. neighbours_of p ≡ 1 ∷ []) }
{
    let link = Link {
        node: 1,
        comp: 70_000,
        jump: 20_000,
        kappa: 122_529,
        delta: 61_264,
    };
    Ok(NodeParams {
        cluster: 7,
        node: 0,
        links: Links::from_vec([link].to_vec(alloc)?),
        rate,
        iota: 2_201,
        every: 1,
    })
}

/// The bytes of a beacon of this cluster and sender, at this clock.
fn datagram(cluster: u32, sender: u32, l: u64) -> [u8; 40]
    requires { l < 2 ^ 62 }
{
    encode(&Beacon {
        cluster,
        sender,
        seq: 1,
        l,
        m: l,
    })
}

#[test]
fn only_near_beacons_of_the_neighbour_are_wanted(rt: HostRuntime) -> Result<(), Fail> {
    let params = pair(rt.alloc(), Rate::new(10_000, 10_001, 2_000)?)?;
    let near = datagram(7, 1, END - 70_001);
    assert!(rt; wanted_beacon(&params, 1, &near).map(|beacon| beacon.l) == Some(END - 70_001));
    assert!(rt; wanted_beacon(&params, 1, &[0; 39]).is_none());
    assert!(rt; wanted_beacon(&params, 2, &near).is_none());
    assert!(rt; wanted_beacon(&params, 1, &datagram(7, 1, END - 70_000)).is_none());
    assert!(rt; wanted_beacon(&params, 1, &datagram(8, 1, 0)).is_none());
    Ok(())
}

/// A board of that node, at these readings.
fn board(alloc: Global) -> Result<Board<MemClock>, Fail>
    ensures unissued { IfOk result (λ board. (ledger_in board).issued ≡ []) }
    ensures neighbour { IfOk result (λ board. Contains (neighbours_of (ledger_in board).core.params) 1) }
{
    let params = pair(alloc, Rate::new(10_000, 10_001, 2_000)?)?;
    let clock = MemClock::new([500, 600, 700].to_vec(alloc)?, Vec::new(alloc));
    match Board::new(alloc, params, 0, clock) {
        Ok(board) => Ok(board),
        Err((stop, _)) => Err(stop)?,
    }
}

/// A datagram of node 1, and one of node 2.
fn two_items(alloc: Global) -> Result<Vec<Item>, AllocError> {
    let mut items = Vec::new(alloc);
    let first = datagram(7, 1, 1_000).to_vec(alloc)?;
    let second = datagram(7, 2, 1_000).to_vec(alloc)?;
    items.push(Item::Datagram(Payload::from_vec(first)))?;
    items.push(Item::Datagram(Payload::from_vec(second)))?;
    Ok(items)
}

#[test]
fn a_receiver_delivers_what_is_wanted(rt: HostRuntime) -> Result<(), Fail> {
    let alloc = rt.alloc();
    let params = pair(alloc, Rate::new(10_000, 10_001, 2_000)?)?;
    let mut board = board(alloc)?;
    let seat = board.seat(alloc, Some(1))?;
    let inlet = MemInlet::new(two_items(alloc)?, Vec::new(alloc));
    let shared = Mutex::new(board);
    let mut listening = Listening::new(&rt, &shared, &params, 1, seat, inlet);
    listening.run();
    let left = listening.leave();
    let board = shared.into_inner();
    assert!(rt; left.stop == Stop::Ended && left.dropped == 1);
    assert!(rt; left.seat.told().len() == 1 && board.compare(&left.seat).is_none());
    Ok(())
}

/// The snap of a start.
fn first_of(begun: NodeStart) -> Snap
    ensures { result ≡ first_snap begun }
{
    Snap {
        place: 0,
        l: begun.l0,
        at: begun.hw,
        mode: Mode::Slow,
    }
}

/// What two turns of the timer come to: how many entries its seat has, what was sent, and the place of the
/// last snap.
#[tactic(auto, using(crate::proofs::Steps::in_step_new))]
fn two_turns<R: Wait>(rt: &R, alloc: Global, outlet: &mut MemOutlet) -> Result<(usize, u64), Fail>
    requires { IsUnused (Some outlet.old.sent) }
{
    let params = pair(alloc, Rate::new(10_000, 10_001, 2_000)?)?;
    let mut board = board(alloc)?;
    let mut seat = board.seat(alloc, None)?;
    let first = first_of(board.begun());
    let shared = Mutex::new(board);
    let (mut publisher, _reader) = Publisher::new(alloc, params.rate, first)?;
    let gate = CountGate::new();
    let links = params.links.as_slice();
    let done = run_turns(
        rt,
        &shared,
        &mut seat,
        outlet,
        &mut publisher,
        links,
        &gate,
        2,
        0,
    );
    let last = publisher.last();
    publisher.end(rt);
    if done.is_err() {
        return Err("a turn was cut off")?;
    }
    Ok((seat.told().len(), last))
}

#[test]
fn the_timer_sends_and_publishes_each_tick(rt: HostRuntime) -> Result<(), Fail> {
    let mut outlet = MemOutlet::new(rt.alloc(), Vec::new(rt.alloc()));
    let turns = two_turns(&rt, rt.alloc(), &mut outlet)?;
    assert!(rt; turns == (2, 1));
    assert!(rt; outlet.taken().len() == 2);
    for (place, sent) in outlet.taken().iter().enumerate() {
        let (neighbour, bytes) = *sent;
        assert!(rt; neighbour == 1 && usize::from(bytes[23]) == place.saturating_add(1));
    }
    Ok(())
}
