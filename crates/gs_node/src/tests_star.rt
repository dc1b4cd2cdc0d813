ghost use Rattle.std.specs.Prelude.{◌≡◌, false, [], length, map, Some, IfOk, All};
ghost use Rattle.gs_net.specs.Tales.{IsFresh};
ghost use Rattle.gs_board.specs.Boards.{ledger_in};

use crate::End;
use crate::tests::{Outcome, Waking, run_on};
use gs_beacon::{Beacon, encode};
use gs_board::Board;
use gs_clock::MemClock;
use gs_crew::ThreadCrew;
use gs_gates::HoldGate;
use gs_net::{Item, MemInlet, Payload};
use gs_units::{Link, Links, NodeParams, Rate};
use std::alloc::{AllocError, Global};
use std::sync::Wait;
use std::test::Fail;
use std::thread::Threads;

/// The link to this neighbour.
fn link(node: u32) -> Link
    ensures { result ≡ record { node = node; comp = 70000; jump = 20000; kappa = 122529; delta = 61264 } }
{
    Link {
        node,
        comp: 70_000,
        jump: 20_000,
        kappa: 122_529,
        delta: 61_264,
    }
}

/// A board of the middle of a star of four nodes in cluster 7 that send a beacon at each tick.
fn board(alloc: Global) -> Result<Board<MemClock>, Fail>
    ensures open { IfOk result (λ b. (ledger_in b).closed ≡ false) }
    ensures empty { IfOk result (λ b. (ledger_in b).journal ≡ []) }
    ensures unissued { IfOk result (λ b. (ledger_in b).issued ≡ []) }
    ensures star { IfOk result (λ b. length (ledger_in b).core.params.links ≡ 3) }
{
    let params = NodeParams {
        cluster: 7,
        node: 0,
        links: Links::from_vec([link(1), link(2), link(3)].to_vec(alloc)?),
        rate: Rate::new(10_000, 10_001, 2_000)?,
        iota: 2_201,
        every: 1,
    };
    let clock = MemClock::new([500, 600, 700, 800].to_vec(alloc)?, Vec::new(alloc));
    match Board::new(alloc, params, 0, clock) {
        Ok(board) => Ok(board),
        Err((stop, _)) => Err(stop)?,
    }
}

/// The inlet of one neighbour.
fn inlet<'a>(alloc: Global, items: Vec<Item>, gate: Option<&'a HoldGate>) -> Waking<'a>
    ensures { IsFresh (Some result.inlet.tale) }
{
    Waking {
        inlet: MemInlet::new(items, Vec::new(alloc)),
        gate,
    }
}

/// The inlets of the three neighbours. The first has these items, and lets the timer go when it has ended;
/// the others end at once.
fn inlets<'a>(
    alloc: Global,
    items: Vec<Item>,
    gate: &'a HoldGate,
) -> Result<Vec<Waking<'a>>, AllocError>
    ensures three { IfOk result (λ v. length v.items ≡ 3) }
    ensures fresh { IfOk result (λ v. All IsFresh (map (λ w. Some w.inlet.tale) v.items)) }
{
    let mut inlets = Vec::new(alloc);
    inlets.push(inlet(alloc, items, Some(gate)))?;
    inlets.push(inlet(alloc, Vec::new(alloc), None))?;
    inlets.push(inlet(alloc, Vec::new(alloc), None))?;
    Ok(inlets)
}

/// Runs the middle of a star for 10 turns, once the first inlet has given these items.
fn run_star<R: Threads + Wait + Sync>(
    rt: &R,
    alloc: Global,
    items: Vec<Item>,
) -> Result<Outcome, Fail> {
    let gate = HoldGate::new();
    let mut crew = ThreadCrew::new(alloc);
    let board = board(alloc)?;
    let inlets = inlets(alloc, items, &gate)?;
    run_on(
        rt,
        alloc,
        &mut crew,
        board,
        inlets,
        &gate,
        Vec::new(alloc),
        10,
    )
}

/// The first beacon of this sender of this cluster, cut off or filled up with zeros to so many bytes.
fn datagram(alloc: Global, cluster: u32, sender: u32, bytes: usize) -> Result<Item, AllocError> {
    let beacon = encode(&Beacon {
        cluster,
        sender,
        seq: 1,
        l: 1_000,
        m: 1_000,
    });
    let mut datagram = beacon.to_vec(alloc)?;
    datagram.resize(bytes, 0)?;
    Ok(Item::Datagram(Payload::from_vec(datagram)))
}

/// A flood of datagrams of 12 bytes.
fn flood(alloc: Global) -> Result<Vec<Item>, AllocError> {
    let mut items = Vec::new(alloc);
    for _ in 0..10_000 {
        items.push(datagram(alloc, 7, 1, 12)?)?;
    }
    Ok(items)
}

/// Datagrams of which none is a beacon of node 1 of cluster 7, though each is nearly one.
fn strays(alloc: Global) -> Result<Vec<Item>, AllocError> {
    let mut items = Vec::new(alloc);
    for (cluster, sender, bytes) in [
        (7, 1, 0),
        (7, 1, 39),
        (7, 1, 41),
        (7, 1, 64),
        (8, 1, 40),
        (7, 2, 40),
    ] {
        items.push(datagram(alloc, cluster, sender, bytes)?)?;
    }
    Ok(items)
}

/// Whether a run of 10 turns was done, heard nothing, and dropped so many datagrams.
fn dropped_all(outcome: &Outcome, dropped: u64) -> bool {
    outcome.end == End::Done
        && outcome.dropped == dropped
        && outcome.events == 10
        && outcome.told.as_slice() == [10, 0, 0, 0].as_slice()
        && outcome.sent.len() == 30
}

#[test]
fn a_flood_is_dropped(rt: HostRuntime) -> Result<(), Fail> {
    let outcome = run_star(&rt, rt.alloc(), flood(rt.alloc())?)?;
    assert!(rt; dropped_all(&outcome, 10_000));
    Ok(())
}

#[test]
fn what_is_nearly_a_beacon_is_dropped(rt: HostRuntime) -> Result<(), Fail> {
    let outcome = run_star(&rt, rt.alloc(), strays(rt.alloc())?)?;
    assert!(rt; dropped_all(&outcome, 6));
    Ok(())
}

#[test]
fn a_beacon_of_the_neighbour_is_taken(rt: HostRuntime) -> Result<(), Fail> {
    let alloc = rt.alloc();
    let mut items = strays(alloc)?;
    items.push(datagram(alloc, 7, 1, 40)?)?;
    let outcome = run_star(&rt, alloc, items)?;
    assert!(rt; outcome.end == End::Done && outcome.dropped == 6 && outcome.events == 11);
    assert!(rt; outcome.told.as_slice() == [10, 1, 0, 0].as_slice());
    Ok(())
}
