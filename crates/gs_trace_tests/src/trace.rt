ghost use Rattle.std.specs.Prelude.{◌≡◌};

use gs_beacon::{Beacon, LENGTH};
use gs_core::{Event, Incs, NodeEvent};
use gs_plan::{Plan, check};
use gs_planfile::base;
use gs_trace::{
    Next, NodeStart, Readings, TraceFault, WorldScan, WorldStart, faults_are_first, node_event,
    node_head, read_node, read_world, scan_node, scan_world, traces_are_read_back, world_event,
    world_head,
};
use gs_units::NodeParams;
use std::alloc::{AllocError, Global};

/// The head of a trace of a world of two nodes, from readings 0 and 5 and a clock of 7.
const HEAD: &[u8] =
    b"GCSW\0\x01\0\0\0\0\0\x07\0\0\0\x02\0\0\0\0\0\0\0\x07\0\0\0\0\0\0\0\0\0\0\0\0\0\0\0\x05";

/// A quantum, a tick of node 1, and the delivery of beacon 3 from node 0 to node 1.
const EVENTS: &[u8] =
    b"\x01\0\0\x27\x10\0\0\x27\x11\x02\0\0\0\x01\x03\0\0\0\0\0\0\0\x01\0\0\0\0\0\0\0\x03";

/// These events behind this head.
fn behind(alloc: Global, head: &[u8], events: &[u8]) -> Result<Vec<u8>, AllocError> {
    let mut bytes = head.to_vec(alloc)?;
    bytes.extend_from_slice(events)?;
    Ok(bytes)
}

/// Whether this is the head that is written of two nodes.
fn writes_head(alloc: Global, plan: &Plan) -> bool {
    if plan.topo().nodes() != 2 {
        return false;
    }
    let Ok(readings) = Vec::from_array(alloc, [0, 5]) else {
        return false;
    };
    let start = WorldStart {
        l0: 7,
        hw: Readings::from_vec(readings),
    };
    match world_head(alloc, plan, &start) {
        Ok(head) => head.as_slice() == HEAD,
        Err(_) => false,
    }
}

/// What is written of a quantum, a tick and a delivery.
fn written_events(alloc: Global) -> Result<Vec<u8>, AllocError> {
    let incs = Incs::from_vec(Vec::from_array(alloc, [10_000, 10_001])?);
    let mut bytes = world_event(alloc, &Event::Quantum(incs))?;
    bytes.extend_from_slice(&world_event(alloc, &Event::Tick(1))?)?;
    let delivery = Event::Deliver {
        from: 0,
        to: 1,
        seq: 3,
    };
    bytes.extend_from_slice(&world_event(alloc, &delivery)?)?;
    Ok(bytes)
}

/// Whether the scan of a world of two nodes gives the events of `EVENTS`, and no more.
fn gives_events(scan: &mut WorldScan) -> bool
    requires { scan.old.nodes ≡ 2 }
{
    let mut incs = [1, 2];
    let first = scan.next(&mut incs);
    let of_quantum = incs;
    let second = scan.next(&mut incs);
    let third = scan.next(&mut incs);
    let ends = scan.next(&mut incs).is_none();
    let delivery = Next::Deliver {
        from: 0,
        to: 1,
        seq: 3,
    };
    first == Some(Next::Quantum)
        && second == Some(Next::Tick(1))
        && third == Some(delivery)
        && ends
        && of_quantum == [10_000, 10_001]
        && incs == [10_000, 10_001]
}

/// Whether these bytes are scanned as the trace of a world of two nodes.
fn is_scanned(alloc: Global, plan: &Plan, bytes: &[u8]) -> bool {
    if plan.topo().nodes() != 2 {
        return false;
    }
    let Ok((start, mut scan)) = scan_world(alloc, bytes, plan) else {
        return false;
    };
    let has_start = start.l0 == 7 && start.hw.as_slice() == [0, 5].as_slice();
    has_start && scan.bytes_left() == 31 && gives_events(&mut scan)
}

/// Whether bytes are the trace of a world with so many events.
fn has_events(alloc: Global, plan: &Plan, bytes: &[u8], count: usize) -> bool {
    match read_world(alloc, bytes, plan) {
        Ok((_, events)) => events.len() == count,
        Err(_) => false,
    }
}

#[test]
fn writes_and_reads_the_trace_of_a_world(rt: HostRuntime) {
    let alloc = rt.alloc();
    let Ok(plan) = check(alloc, &base(alloc, 2)) else {
        panic!(rt; "the plan is refused");
    };
    let Ok(bytes) = behind(alloc, HEAD, EVENTS) else {
        panic!(rt; "out of memory");
    };
    assert!(rt; writes_head(alloc, &plan));
    match written_events(alloc) {
        Ok(events) => assert!(rt; events.as_slice() == EVENTS),
        Err(_) => panic!(rt; "out of memory"),
    }
    assert!(rt; is_scanned(alloc, &plan, &bytes));
    assert!(rt; has_events(alloc, &plan, &bytes, 3));
}

/// Whether the first `long` bytes are the trace of a world with so many events.
fn front_has_events(alloc: Global, plan: &Plan, bytes: &[u8], long: usize, count: usize) -> bool {
    match bytes.get(..long) {
        Some(front) => has_events(alloc, plan, front, count),
        None => false,
    }
}

/// Whether bytes are refused so.
fn is_refused(alloc: Global, plan: &Plan, bytes: &[u8], why: TraceFault) -> bool {
    match read_world(alloc, bytes, plan) {
        Ok(_) => false,
        Err(fault) => fault == why,
    }
}

/// Whether each front of a trace is refused so, from the shortest on and below the length `end`.
fn are_refused(
    alloc: Global,
    plan: &Plan,
    bytes: &[u8],
    shortest: usize,
    end: usize,
    why: TraceFault,
) -> bool {
    for n in shortest..end {
        match bytes.get(..n) {
            Some(front) if is_refused(alloc, plan, front, why) => {}
            _ => return false,
        }
    }
    true
}

#[test]
fn every_front_of_a_trace_is_cut_or_whole(rt: HostRuntime) {
    let alloc = rt.alloc();
    let Ok(plan) = check(alloc, &base(alloc, 2)) else {
        panic!(rt; "the plan is refused");
    };
    let Ok(bytes) = behind(alloc, HEAD, EVENTS) else {
        panic!(rt; "out of memory");
    };
    assert!(rt; are_refused(alloc, &plan, &bytes, 0, 40, TraceFault::Header));
    assert!(rt; front_has_events(alloc, &plan, &bytes, 40, 0));
    assert!(rt; are_refused(alloc, &plan, &bytes, 41, 49, TraceFault::Cut(40)));
    assert!(rt; front_has_events(alloc, &plan, &bytes, 49, 1));
    assert!(rt; are_refused(alloc, &plan, &bytes, 50, 54, TraceFault::Cut(49)));
    assert!(rt; front_has_events(alloc, &plan, &bytes, 54, 2));
    assert!(rt; are_refused(alloc, &plan, &bytes, 55, 71, TraceFault::Cut(54)));
    assert!(rt; front_has_events(alloc, &plan, &bytes, 71, 3));
}

/// These events behind this head, with another byte at a place.
fn changed(
    alloc: Global,
    head: &[u8],
    events: &[u8],
    place: usize,
    byte: u8,
) -> Result<Vec<u8>, AllocError> {
    let mut bytes = behind(alloc, head, events)?;
    if let Some(old) = bytes.get_mut(place) {
        *old = byte;
    }
    Ok(bytes)
}

/// Whether the trace of a world with another byte at a place is refused so.
fn refuses(alloc: Global, plan: &Plan, place: usize, byte: u8, why: TraceFault) -> bool {
    match changed(alloc, HEAD, EVENTS, place, byte) {
        Ok(bytes) => is_refused(alloc, plan, &bytes, why),
        Err(_) => false,
    }
}

/// Whether it is taken.
fn takes(alloc: Global, plan: &Plan, place: usize, byte: u8) -> bool {
    match changed(alloc, HEAD, EVENTS, place, byte) {
        Ok(bytes) => has_events(alloc, plan, &bytes, 3),
        Err(_) => false,
    }
}

#[test]
fn the_first_fault_of_a_world_is_named(rt: HostRuntime) {
    let alloc = rt.alloc();
    let Ok(plan) = check(alloc, &base(alloc, 2)) else {
        panic!(rt; "the plan is refused");
    };
    assert!(rt; refuses(alloc, &plan, 0, 72, TraceFault::Header));
    assert!(rt; refuses(alloc, &plan, 5, 2, TraceFault::Header));
    assert!(rt; refuses(alloc, &plan, 7, 1, TraceFault::Header));
    assert!(rt; refuses(alloc, &plan, 11, 8, TraceFault::Plan));
    assert!(rt; refuses(alloc, &plan, 15, 3, TraceFault::Plan));
    assert!(rt; takes(alloc, &plan, 16, 31));
    assert!(rt; refuses(alloc, &plan, 16, 32, TraceFault::Header));
    assert!(rt; refuses(alloc, &plan, 32, 33, TraceFault::Header));
    assert!(rt; refuses(alloc, &plan, 40, 0, TraceFault::Kind(40)));
    assert!(rt; refuses(alloc, &plan, 40, 4, TraceFault::Kind(40)));
    assert!(rt; takes(alloc, &plan, 48, 255));
    // The 22 bytes from 49 on as a delivery leave five that begin with 0, as a quantum 13 that do.
    assert!(rt; refuses(alloc, &plan, 49, 3, TraceFault::Kind(66)));
    assert!(rt; refuses(alloc, &plan, 49, 1, TraceFault::Kind(58)));
    assert!(rt; refuses(alloc, &plan, 54, 2, TraceFault::Kind(59)));
}

/// 412 quanta of two nodes with eight ticks and four deliveries, and then one quantum more, in bytes.
fn long_trace(alloc: Global) -> Result<Vec<u8>, AllocError> {
    let mut bytes = HEAD.to_vec(alloc)?;
    for i in 0..413 {
        bytes.extend_from_slice(&EVENTS[..9])?;
        if i == 99 || i == 199 || i == 299 || i == 399 {
            bytes.extend_from_slice(&EVENTS[9..14])?;
            bytes.extend_from_slice(&EVENTS[9..])?;
        }
    }
    Ok(bytes)
}

#[test]
fn a_trace_of_four_thousand_bytes_is_cut_at_its_last_event(rt: HostRuntime) {
    let alloc = rt.alloc();
    let Ok(plan) = check(alloc, &base(alloc, 2)) else {
        panic!(rt; "the plan is refused");
    };
    let Ok(bytes) = long_trace(alloc) else {
        panic!(rt; "out of memory");
    };
    assert_eq!(rt; bytes.len(), 3865);
    assert!(rt; has_events(alloc, &plan, &bytes, 425));
    assert!(rt; front_has_events(alloc, &plan, &bytes, 3856, 424));
    assert!(rt; are_refused(alloc, &plan, &bytes, 3857, 3865, TraceFault::Cut(3856)));
}

/// Node 0 of a plan.
fn node(alloc: Global, plan: &Plan) -> Option<NodeParams> {
    if plan.topo().nodes() != 2 {
        return None;
    }
    plan.node(alloc, 0).ok()
}

/// The head of the trace of node 0 from a clock of 1 and a reading of 2, and a tick at 258.
const TICKED: &[u8] =
    b"GCSN\0\x01\0\0\0\0\0\x07\0\0\0\0\0\0\0\0\0\0\0\x01\0\0\0\0\0\0\0\x02\x01\0\0\0\0\0\0\x01\x02";

/// A delivery at 259 of the beacon of node 1 with sequence 1, clock 5 and maximum 6.
const HEARD: &[u8] =
    b"\x02\0\0\0\0\0\0\x01\x03GCS1\0\0\0\x07\0\0\0\x01\0\0\0\0\0\0\0\0\0\0\0\x01\0\0\0\0\0\0\0\x05\0\0\0\0\0\0\0\x06";

const START: NodeStart = NodeStart { l0: 1, hw: 2 };

const TICK: NodeEvent = NodeEvent::Tick { hw: 258 };

const DELIVERY: NodeEvent = NodeEvent::Deliver {
    hw: 259,
    beacon: Beacon {
        cluster: 7,
        sender: 1,
        seq: 1,
        l: 5,
        m: 6,
    },
};

/// Whether a node and its events are written so.
fn writes_node(alloc: Global, params: &NodeParams) -> bool {
    let head = node_head(params, &START);
    let (Ok(tick), Ok(delivery)) = (node_event(alloc, &TICK), node_event(alloc, &DELIVERY)) else {
        return false;
    };
    match behind(alloc, &head, &tick) {
        Ok(ticked) => ticked.as_slice() == TICKED && delivery.as_slice() == HEARD,
        Err(_) => false,
    }
}

/// Whether they are scanned so.
fn is_node_scanned(params: &NodeParams, bytes: &[u8]) -> bool {
    let Ok((start, mut scan)) = scan_node(bytes, params) else {
        return false;
    };
    let left = scan.bytes_left();
    let first = scan.next();
    let second = scan.next();
    let ends = scan.next().is_none();
    start == START
        && left == 9 + 9 + LENGTH
        && first == Some(TICK)
        && second == Some(DELIVERY)
        && ends
}

/// Whether they are read so.
fn is_node_read(alloc: Global, params: &NodeParams, bytes: &[u8]) -> bool {
    match read_node(alloc, bytes, params) {
        Ok((start, events)) => start == START && events.as_slice() == [TICK, DELIVERY].as_slice(),
        Err(_) => false,
    }
}

#[test]
fn writes_and_reads_the_trace_of_a_node(rt: HostRuntime) {
    let alloc = rt.alloc();
    let Ok(plan) = check(alloc, &base(alloc, 2)) else {
        panic!(rt; "the plan is refused");
    };
    let Some(params) = node(alloc, &plan) else {
        panic!(rt; "no node");
    };
    let Ok(bytes) = behind(alloc, TICKED, HEARD) else {
        panic!(rt; "out of memory");
    };
    assert!(rt; writes_node(alloc, &params));
    assert!(rt; is_node_scanned(&params, &bytes));
    assert!(rt; is_node_read(alloc, &params, &bytes));
}

/// Whether bytes are refused so as the trace of a node.
fn node_refuses(params: &NodeParams, bytes: &[u8], why: TraceFault) -> bool {
    match scan_node(bytes, params) {
        Ok(_) => false,
        Err(fault) => fault == why,
    }
}

/// Whether the first `long` of the trace of a node are.
fn node_refuses_front(alloc: Global, params: &NodeParams, long: usize, why: TraceFault) -> bool {
    let Ok(bytes) = behind(alloc, TICKED, HEARD) else {
        return false;
    };
    match bytes.get(..long) {
        Some(front) => node_refuses(params, front, why),
        None => false,
    }
}

/// Whether it is with another byte at a place.
fn node_refuses_byte(
    alloc: Global,
    params: &NodeParams,
    place: usize,
    byte: u8,
    why: TraceFault,
) -> bool {
    match changed(alloc, TICKED, HEARD, place, byte) {
        Ok(bytes) => node_refuses(params, &bytes, why),
        Err(_) => false,
    }
}

#[test]
fn the_first_fault_of_a_node_is_named(rt: HostRuntime) {
    let alloc = rt.alloc();
    let Ok(plan) = check(alloc, &base(alloc, 2)) else {
        panic!(rt; "the plan is refused");
    };
    let Some(params) = node(alloc, &plan) else {
        panic!(rt; "no node");
    };
    assert!(rt; node_refuses_front(alloc, &params, 31, TraceFault::Header));
    assert!(rt; node_refuses_front(alloc, &params, 40, TraceFault::Cut(32)));
    assert!(rt; node_refuses_front(alloc, &params, 89, TraceFault::Cut(41)));
    assert!(rt; node_refuses_byte(alloc, &params, 3, 87, TraceFault::Header));
    assert!(rt; node_refuses_byte(alloc, &params, 15, 1, TraceFault::Plan));
    assert!(rt; node_refuses_byte(alloc, &params, 16, 64, TraceFault::Header));
    assert!(rt; node_refuses_byte(alloc, &params, 41, 3, TraceFault::Kind(41)));
    assert!(rt; node_refuses_byte(alloc, &params, 89, 4, TraceFault::Beacon(41)));
    assert!(rt; node_refuses_byte(alloc, &params, 73, 0, TraceFault::Beacon(41)));
}

/// Whether a fault is told in these words.
fn has_words(alloc: Global, fault: TraceFault, words: &str) -> bool {
    match fault.to_string(alloc) {
        Ok(told) => told.as_str() == words,
        Err(_) => false,
    }
}

#[test]
fn the_words_of_each_fault_are_those_of_the_format(rt: HostRuntime) {
    let alloc = rt.alloc();
    assert!(rt; has_words(alloc, TraceFault::Plan, "plan"));
    assert!(rt; has_words(alloc, TraceFault::Cut(3856), "cut 3856"));
    assert!(rt; has_words(alloc, TraceFault::Beacon(41), "beacon 41"));
    traces_are_read_back();
    faults_are_first();
}
