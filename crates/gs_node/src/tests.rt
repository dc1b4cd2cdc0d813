ghost use Rattle.std.specs.Prelude.{◌≡◌, ◌≢◌, ◌<◌, false, [], length, map, Some, IfOk, All};
ghost use Rattle.gs_net.specs.Tales.{IsFresh};
ghost use Rattle.gs_board.specs.Boards.{ledger_in};

use crate::{End, Served, completeness, serve};
use gs_beacon::{Beacon, encode};
use gs_board::Board;
use gs_clock::MemClock;
use gs_crew::{Crew, ShortCrew, ThreadCrew};
use gs_gates::HoldGate;
use gs_io::Failed;
use gs_net::{Got, Inlet, Item, MemDoor, MemInlet, MemOutlet, Payload};
use gs_units::{Link, Links, NodeParams, Rate};
use std::alloc::{AllocError, Global};
use std::sync::Wait;
use std::test::Fail;
use std::thread::Threads;

/// An inlet that lets the timer go when it has ended.
#[derive(Drop)]
pub struct Waking<'a> {
    pub inlet: MemInlet,
    /// What holds the timer; none where another inlet lets it go.
    pub gate: Option<&'a HoldGate>,
}

impl Inlet for Waking<'_> {
    ghost use Rattle.std.specs.Prelude.{Some, []};

    ghost faults = { λ waking. waking.inlet.calls.faults };

    ghost tale = { λ waking. Some waking.inlet.tale };

    ghost replies = { λ waking. Some [] };

    ghost taken = { λ waking. waking.inlet.taken };

    fn receive(&mut self, into: &mut [u8; 64]) -> Result<Got, Failed> {
        let got = self.inlet.receive(into);
        if got == Ok(Got::Ended) {
            if let Some(gate) = self.gate {
                gate.set();
            }
        }
        got
    }
}

/// A board of this node of a pair in cluster 7 that send a beacon at each tick.
fn board(alloc: Global, node: u32, other: u32) -> Result<Board<MemClock>, Fail>
    requires { node ≢ other }
    ensures open { IfOk result (λ b. (ledger_in b).closed ≡ false) }
    ensures empty { IfOk result (λ b. (ledger_in b).journal ≡ []) }
    ensures unissued { IfOk result (λ b. (ledger_in b).issued ≡ []) }
    ensures pair { IfOk result (λ b. length (ledger_in b).core.params.links ≡ 1) }
{
    let link = Link {
        node: other,
        comp: 70_000,
        jump: 20_000,
        kappa: 122_529,
        delta: 61_264,
    };
    let params = NodeParams {
        cluster: 7,
        node,
        links: Links::from_vec([link].to_vec(alloc)?),
        rate: Rate::new(10_000, 10_001, 2_000)?,
        iota: 2_201,
        every: 1,
    };
    let clock = MemClock::new([500, 600, 700, 800].to_vec(alloc)?, Vec::new(alloc));
    match Board::new(alloc, params, 0, clock) {
        Ok(board) => Ok(board),
        Err((stop, _)) => Err(stop)?,
    }
}

/// The inlet of the one neighbour, with these items.
fn inlets<'a>(
    alloc: Global,
    items: Vec<Item>,
    gate: &'a HoldGate,
) -> Result<Vec<Waking<'a>>, AllocError>
    ensures one { IfOk result (λ v. length v.items ≡ 1) }
    ensures fresh { IfOk result (λ v. All IsFresh (map (λ w. Some w.inlet.tale) v.items)) }
{
    let mut inlets = Vec::new(alloc);
    inlets.push(Waking {
        inlet: MemInlet::new(items, Vec::new(alloc)),
        gate: Some(gate),
    })?;
    Ok(inlets)
}

/// A datagram of a beacon of cluster 7.
fn datagram(alloc: Global, sender: u32, before: u32) -> Result<Item, AllocError> {
    let bytes = encode(&Beacon {
        cluster: 7,
        sender,
        seq: 1 + u64::from(before),
        l: 1_000,
        m: 1_000,
    });
    Ok(Item::Datagram(Payload::from_vec(bytes.to_vec(alloc)?)))
}

/// A time request with this number.
fn request(alloc: Global, number: u8) -> Result<Item, AllocError> {
    let mut bytes = *b"GCSQ\0\0\0\0\0\0\0\0\0\0\0\0";
    bytes[15] = number;
    Ok(Item::Datagram(Payload::from_vec(bytes.to_vec(alloc)?)))
}

/// What a run came to.
#[derive(Debug, Drop)]
pub struct Outcome {
    pub end: End,
    /// How many entries each seat has, the timer's first.
    pub told: Vec<usize>,
    pub events: usize,
    pub dropped: u64,
    pub sent: Vec<(u32, [u8; 40])>,
    pub replies: Vec<[u8; 24]>,
    /// The place of the last snap, where there is a publisher.
    pub shown: Option<u64>,
}

/// Runs a node on this board and these inlets, with so many turns.
pub fn run_on<'a, R: Threads + Wait + Sync, W: Crew>(
    rt: &R,
    alloc: Global,
    crew: &mut W,
    board: Board<MemClock>,
    inlets: Vec<Waking<'a>>,
    gate: &'a HoldGate,
    requests: Vec<Item>,
    ticks: u32,
) -> Result<Outcome, Fail>
    requires open { (ledger_in board).closed ≡ false }
    requires empty { (ledger_in board).journal ≡ [] }
    requires unissued { (ledger_in board).issued ≡ [] }
    requires count { length inlets.items ≡ length (ledger_in board).core.params.links }
    requires fresh { All IsFresh (map (λ w. Some w.inlet.tale) inlets.items) }
{
    let outlet = MemOutlet::new(alloc, Vec::new(alloc));
    let door = MemDoor::new(alloc, requests, Vec::new(alloc));
    let view_clock = MemClock::new([900].to_vec(alloc)?, Vec::new(alloc));
    let served = serve(
        rt, alloc, board, inlets, outlet, door, view_clock, crew, gate, ticks, 0,
    );
    outcome_of(rt, alloc, served)
}

/// What is told of a run that has ended.
fn outcome_of<R: Wait>(
    rt: &R,
    alloc: Global,
    served: Served<MemClock, MemClock, Waking<'_>, MemOutlet, MemDoor>,
) -> Result<Outcome, Fail> {
    let Served {
        end,
        board,
        seats,
        inlets: _,
        outlet,
        door,
        view_clock: _,
        publisher,
        dropped,
    } = served;
    let shown = match publisher {
        Some(publisher) => {
            let last = publisher.last();
            publisher.end(rt);
            Some(last)
        }
        None => None,
    };
    let mut told = Vec::new(alloc);
    for seat in &seats {
        told.push(seat.told().len())?;
    }
    Ok(Outcome {
        end,
        told,
        events: board.journal().len(),
        dropped,
        sent: outlet.taken().to_vec(alloc)?,
        replies: door.replies().to_vec(alloc)?,
        shown,
    })
}

/// Runs node `node` of a pair on these items, with so many turns, once its inlet has ended.
fn run_pair<R: Threads + Wait + Sync, W: Crew>(
    rt: &R,
    alloc: Global,
    crew: &mut W,
    node: u32,
    items: Vec<Item>,
    requests: Vec<Item>,
    ticks: u32,
) -> Result<Outcome, Fail>
    requires { node < 2 }
{
    let gate = HoldGate::new();
    let board = board(alloc, node, 1 - node)?;
    let inlets = inlets(alloc, items, &gate)?;
    run_on(rt, alloc, crew, board, inlets, &gate, requests, ticks)
}

#[test]
fn two_nodes_hear_one_another(rt: HostRuntime) -> Result<(), Fail> {
    let alloc = rt.alloc();
    let mut crew = ThreadCrew::new(alloc);
    let none = run_pair(
        &rt,
        alloc,
        &mut crew,
        0,
        Vec::new(alloc),
        Vec::new(alloc),
        3,
    )?;
    assert!(rt; none.end == End::Done && none.told.as_slice() == [3, 0].as_slice());
    assert!(rt; none.sent.len() == 3 && none.shown == Some(2));

    let mut items = Vec::new(alloc);
    for (neighbour, bytes) in &none.sent {
        assert!(rt; *neighbour == 1);
        items.push(Item::Datagram(Payload::from_vec(bytes.to_vec(alloc)?)))?;
    }
    items.push(datagram(alloc, 5, 0)?)?;
    let heard = run_pair(&rt, alloc, &mut crew, 1, items, Vec::new(alloc), 1)?;
    assert!(rt; heard.end == End::Done && heard.told.as_slice() == [1, 3].as_slice());
    assert!(rt; heard.events == 4 && heard.dropped == 1 && heard.sent.len() == 1);
    Ok(())
}

#[test]
fn a_door_answers_each_request(rt: HostRuntime) -> Result<(), Fail> {
    let alloc = rt.alloc();
    let mut crew = ThreadCrew::new(alloc);
    let mut requests = Vec::new(alloc);
    requests.push(request(alloc, 5)?)?;
    requests.push(datagram(alloc, 1, 0)?)?;
    requests.push(request(alloc, 6)?)?;
    let asked = run_pair(&rt, alloc, &mut crew, 0, Vec::new(alloc), requests, 1)?;
    assert!(rt; asked.end == End::Done && asked.replies.len() == 2);
    for (place, reply) in asked.replies.iter().enumerate() {
        assert!(rt;
            reply.starts_with(b"GCSA") && usize::from(reply[15]) == place.saturating_add(5)
        );
    }
    Ok(())
}

#[test]
fn a_refused_start_ends_the_run(rt: HostRuntime) -> Result<(), Fail> {
    let alloc = rt.alloc();
    let mut crew = ShortCrew::new(alloc, [2].to_vec(alloc)?);
    let mut items = Vec::new(alloc);
    items.push(datagram(alloc, 1, 0)?)?;
    let short = run_pair(&rt, alloc, &mut crew, 0, items, Vec::new(alloc), 3)?;
    assert!(rt; short.end == End::NoThread && short.told.first() == Some(&0));
    assert!(rt; short.sent.is_empty() && short.shown == Some(0));
    completeness();
    Ok(())
}
