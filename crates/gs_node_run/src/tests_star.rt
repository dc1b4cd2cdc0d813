ghost use Rattle.std.specs.Prelude.{◌<◌};
ghost use Rattle.gs_plan.specs.Plans.{graph_of};

use crate::tests::{Ended, Trial, files, run_over};
use crate::tests_ports::{Stage, StagedPorts};
use gs_audit::{NodeVerdict, replay_scan};
use gs_beacon::{Beacon, encode};
use gs_cli::Status;
use gs_inputs::read_plan;
use gs_io::{Gate, PlainGate};
use gs_net::{Held, Item, MemPorts, Payload};
use gs_plan::Plan;
use gs_trace::scan_node;
use std::alloc::{AllocError, Global};
use std::sync::Wait;
use std::test::Fail;
use std::thread::Threads;

/// What the trace of a node of a plan replays to; none where it is not read.
fn verdict_in(
    alloc: Global,
    plan: &Plan,
    node: u32,
    trace: &[u8],
) -> Result<Option<NodeVerdict>, AllocError>
    requires { node < (graph_of plan.now).nodes }
{
    let params = plan.node(alloc, node)?;
    let Ok((start, scan)) = scan_node(trace, &params) else {
        return Ok(None);
    };
    Ok(Some(replay_scan(alloc, &params, &start, scan)?))
}

/// Where the clock of a node of the plan that a word names is at the end of its trace; none where the trace is
/// not read, or the node does not take all its events.
pub fn clock_after(
    alloc: Global,
    word: &str,
    node: u32,
    trace: &[u8],
) -> Result<Option<u64>, Fail> {
    let plan = read_plan(alloc, &mut files(alloc)?, word).map_err(|_| "the plan is refused")?;
    if node >= plan.topo().nodes() {
        return Err("no such node")?;
    }
    match verdict_in(alloc, &plan, node, trace)? {
        Some(NodeVerdict::Within { l, .. }) => Ok(Some(l)),
        _ => Ok(None),
    }
}

/// A datagram of these bytes.
pub fn datagram(alloc: Global, bytes: &[u8]) -> Result<Item, AllocError> {
    Ok(Item::Datagram(Payload::from_vec(Vec::from_slice(alloc, bytes)?)))
}

/// The first beacon of this node of cluster 7.
fn beacon_of(alloc: Global, sender: u32) -> Result<Item, AllocError> {
    let bytes = encode(&Beacon {
        cluster: 7,
        sender,
        seq: 1,
        l: 1_000,
        m: 1_000,
    });
    datagram(alloc, bytes.as_slice())
}

/// An inlet that holds these items, and whose call of this number fails.
pub fn held(alloc: Global, port: u16, items: Vec<Item>, fails: u64) -> Result<Held, AllocError> {
    Ok(Held {
        port,
        items,
        fails: [fails].to_vec(alloc)?,
    })
}

/// What comes to the middle of the star: garbage and a beacon of node 1, a quiet mark of node 2, and a beacon
/// of node 3, whose inlet fails then.
fn held_in_star(alloc: Global) -> Result<Vec<Held>, AllocError> {
    let mut first = Vec::new(alloc);
    first.push(datagram(alloc, b"twelve bytes")?)?;
    first.push(beacon_of(alloc, 1)?)?;
    let mut second = Vec::new(alloc);
    second.push(Item::Quiet)?;
    let mut third = Vec::new(alloc);
    third.push(beacon_of(alloc, 3)?)?;
    let mut all = Vec::new(alloc);
    all.push(held(alloc, 40_001, first, 0)?)?;
    all.push(held(alloc, 40_003, second, 0)?)?;
    all.push(held(alloc, 40_005, third, 2)?)?;
    Ok(all)
}

/// Runs a node over ports that hold this, on a stage; the inlet of this port waits for the timer. Tells what
/// was sent, too.
pub fn run_staged<R: Threads + Wait + Sync>(
    rt: &R,
    alloc: Global,
    trial: &Trial<'_>,
    held: Vec<Held>,
    stage: &Stage,
    waits: u16,
) -> Result<(Ended, Vec<(u32, [u8; 40])>), AllocError> {
    let mut ports = StagedPorts {
        ports: MemPorts::new(alloc, held, Vec::new(alloc), Vec::new(alloc)),
        stage,
        waits,
    };
    let ended = run_over(rt, alloc, trial, &mut ports, &stage.gate)?;
    let sent = sent_over(alloc, &ports.ports)?;
    Ok((ended, sent))
}

/// What was sent over these ports.
fn sent_over(alloc: Global, ports: &MemPorts) -> Result<Vec<(u32, [u8; 40])>, AllocError> {
    let mut sent = Vec::new(alloc);
    for outlet in ports.outlets() {
        sent.extend_from_slice(outlet.taken())?;
    }
    Ok(sent)
}

#[test]
fn a_receiver_that_is_held_stops_no_other(rt: HostRuntime) -> Result<(), Fail> {
    let alloc = rt.alloc();
    let stage = Stage::new(3);
    let trial = Trial::of("node star.toml 0 10");
    let (ended, sent) = run_staged(&rt, alloc, &trial, held_in_star(alloc)?, &stage, 40_003)?;
    assert!(rt; stage.met());
    assert!(rt; ended.status == Status::LinkFault && sent.len() == 30);
    assert!(rt; ended.heard.as_slice() == [(1, 1, 1), (3, 3, 1)].as_slice());
    assert_eq!(rt; ended.trace.len(), 220);
    assert!(rt; clock_after(alloc, "star.toml", 0, &ended.trace)?.is_some());
    Ok(())
}

/// Runs the middle of the star over inlets that end at once; the send of this number fails. Tells what was
/// sent, too.
fn run_sending<R: Threads + Wait + Sync, G: Gate>(
    rt: &R,
    alloc: Global,
    gate: &G,
    send: u64,
) -> Result<(Ended, Vec<(u32, [u8; 40])>), AllocError> {
    let fails = [send].to_vec(alloc)?;
    let mut ports = MemPorts::new(alloc, Vec::new(alloc), fails, Vec::new(alloc));
    let trial = Trial::of("node star.toml 0 10");
    let ended = run_over(rt, alloc, &trial, &mut ports, gate)?;
    let sent = sent_over(alloc, &ports)?;
    Ok((ended, sent))
}

#[test]
fn each_tick_is_sent_to_each_neighbour(rt: HostRuntime) -> Result<(), Fail> {
    let (done, sent) = run_sending(&rt, rt.alloc(), &PlainGate::new(&rt), 0)?;
    assert!(rt; done.status == Status::Done && sent.len() == 30);
    for (place, (neighbour, bytes)) in sent.iter().enumerate() {
        assert!(rt; *neighbour as usize == place % 3 + 1);
        assert!(rt; usize::from(bytes[23]) == place / 3 + 1);
    }
    Ok(())
}

#[test]
fn a_send_that_fails_ends_the_run(rt: HostRuntime) -> Result<(), Fail> {
    let alloc = rt.alloc();
    let gate = PlainGate::new(&rt);
    let (done, all) = run_sending(&rt, alloc, &gate, 0)?;
    for before in 0..30 {
        let (cut, sent) = run_sending(&rt, alloc, &gate, before + 1)?;
        assert!(rt; cut.status == Status::LinkFault && sent.len() as u64 == before);
        assert!(rt; all.starts_with(sent.as_slice()));
        assert!(rt; cut.trace.len() as u64 == 41 + 9 * (before / 3));
        assert!(rt; done.trace.starts_with(cut.trace.as_slice()));
        assert!(rt; clock_after(alloc, "star.toml", 0, &cut.trace)?.is_some());
    }
    Ok(())
}
