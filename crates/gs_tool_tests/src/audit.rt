use crate::play::reports;
use crate::running::gives;
use gs_cli::Status;
use std::alloc::{AllocError, Global};
use std::thread::Threads;
use std::time::Clock;

/// The start of the trace of a pair: "GCSW", version 1, cluster 7, two nodes, all clocks and readings 0.
const START: &[u8] =
    b"GCSW\0\x01\0\0\0\0\0\x07\0\0\0\x02\0\0\0\0\0\0\0\0\0\0\0\0\0\0\0\0\0\0\0\0\0\0\0\0";

/// Both nodes add 10,000.
const QUANTUM: [u8; 9] = [1, 0, 0, 39, 16, 0, 0, 39, 16];

fn quanta(bytes: &mut Vec<u8>, times: u32) -> Result<(), AllocError> {
    for _ in 0..times {
        bytes.extend_from_slice(&QUANTUM)?;
    }
    Ok(())
}

/// A tick of each node.
fn ticks(bytes: &mut Vec<u8>) -> Result<(), AllocError> {
    bytes.extend_from_slice(&[2, 0, 0, 0, 0, 2, 0, 0, 0, 1])
}

/// The beacon of node 1 of this number comes to node 0.
fn heard(bytes: &mut Vec<u8>, seq: u8) -> Result<(), AllocError> {
    bytes.extend_from_slice(&[3, 0, 0, 0, 1, 0, 0, 0, 0, 0, 0, 0, 0, 0, 0, 0])?;
    bytes.push(seq)?;
    Ok(())
}

/// The trace of a pair in which node 1 hears nothing, up to the quantum before which that was too long ago.
fn unheard(alloc: Global) -> Result<Vec<u8>, AllocError> {
    let mut bytes = START.to_vec(alloc)?;
    quanta(&mut bytes, 100)?;
    ticks(&mut bytes)?;
    for seq in [1, 2, 3] {
        quanta(&mut bytes, 2)?;
        heard(&mut bytes, seq)?;
        quanta(&mut bytes, 98)?;
        ticks(&mut bytes)?;
    }
    quanta(&mut bytes, 2)?;
    heard(&mut bytes, 4)?;
    quanta(&mut bytes, 11)?;
    Ok(bytes)
}

/// Whether the audit of a trace stops at an event, for this reason.
fn is_stopped(rt: &(impl AllocGlobal + Clock + Threads + Sync), trace: &[u8], text: &str) -> bool {
    gives(rt, "audit base:2 t", &[("t", trace)], Status::Breach, text)
}

/// Whether it does where the last byte of the trace is another, so that node 1 runs too fast.
fn is_stopped_by_drift(
    rt: &(impl AllocGlobal + Clock + Threads + Sync),
    trace: &[u8],
    text: &str,
) -> bool {
    let Ok(mut drifting) = trace.to_vec(rt.alloc()) else {
        return false;
    };
    if let Some(last) = drifting.last_mut() {
        *last = 255;
    }
    is_stopped(rt, &drifting, text)
}

#[test]
fn an_audit_tells_the_report_or_the_first_event_refused(rt: HostRuntime) {
    let Ok(whole) = unheard(rt.alloc()) else {
        panic!(rt; "out of memory");
    };
    let Some(allowed) = whole.get(..3856) else {
        panic!(rt; "the trace is too short");
    };
    let line = "audit base:2 t";
    assert!(rt; is_stopped(&rt, &whole, "refused at 424: stale 0 1\n"));
    assert!(rt; is_stopped_by_drift(&rt, &whole, "refused at 424: drift 1\n"));
    assert!(rt; reports(&rt, line, ("t", allowed), 412, (0, 0), 0, 0));
    assert!(rt; reports(&rt, line, ("t", START), 0, (0, 0), 0, 0));
}

/// The files are read, and then the plan is looked into, and then the trace.
#[test]
fn an_audit_names_the_first_input_at_fault(rt: HostRuntime) {
    let files = [("start", START)];
    let line = "audit base:3 start";
    assert!(rt;
        gives(
            &rt,
            line,
            &files,
            Status::InputRefused,
            "trace refused: plan\n"
        )
    );
    let line = "audit base:x start";
    assert!(rt;
        gives(
            &rt,
            line,
            &files,
            Status::PlanRefused,
            "plan refused: number\n"
        )
    );
    let line = "audit base:x missing";
    assert!(rt;
        gives(
            &rt,
            line,
            &files,
            Status::ReadFault,
            "read failed: missing\n"
        )
    );
    let line = "audit missing start";
    assert!(rt;
        gives(
            &rt,
            line,
            &files,
            Status::ReadFault,
            "read failed: missing\n"
        )
    );
}

/// Where a trace is cut, and what is wrong with it then.
const CUTS: &str = "0 header
15 header
16 header
39 header
41 cut 40
48 cut 40
50 cut 49
941 cut 940
944 cut 940
946 cut 945
969 cut 968
984 cut 968
3857 cut 3856
3864 cut 3856
";

/// Whether a trace is refused so where it is cut.
fn is_cut(rt: &(impl AllocGlobal + Clock + Threads + Sync), whole: &[u8], case: &str) -> bool {
    let Some((length, why)) = case.split_once(' ') else {
        return false;
    };
    let Ok(length) = length.parse::<usize>() else {
        return false;
    };
    let Some(front) = whole.get(..length) else {
        return false;
    };
    match format!(in rt.alloc(); "trace refused: {why}\n") {
        Ok(text) => {
            let files = [("cut", front)];
            gives(
                rt,
                "audit base:2 cut",
                &files,
                Status::InputRefused,
                text.as_str(),
            )
        }
        Err(_) => false,
    }
}

#[test]
fn a_trace_that_is_cut_is_refused_at_its_last_event(rt: HostRuntime) {
    let Ok(whole) = unheard(rt.alloc()) else {
        panic!(rt; "out of memory");
    };
    for case in CUTS.lines() {
        assert!(rt; is_cut(&rt, &whole, case), "{case}");
    }
}

/// The trace of node 0 from the clock 0 at the reading 0.
const NODE: &[u8] = b"GCSN\0\x01\0\0\0\0\0\x07\0\0\0\0\0\0\0\0\0\0\0\0\0\0\0\0\0\0\0\0";

/// A tick at 1000000.
const TICK: &[u8] = b"\x01\0\0\0\0\0\x0f\x42\x40";

/// A tick a unit before it.
const EARLIER: &[u8] = b"\x01\0\0\0\0\0\x0f\x42\x3f";

/// A delivery whose beacon is nothing but zeros.
const DELIVERY: &[u8] =
    b"\x02\0\0\0\0\0\0\0\0\0\0\0\0\0\0\0\0\0\0\0\0\0\0\0\0\0\0\0\0\0\0\0\0\0\0\0\0\0\0\0\0\0\0\0\0\0\0\0\0";

/// A trace of these events.
fn node_trace(alloc: Global, first: &[u8], second: &[u8]) -> Result<Vec<u8>, AllocError> {
    let mut bytes = NODE.to_vec(alloc)?;
    bytes.extend_from_slice(first)?;
    bytes.extend_from_slice(second)?;
    Ok(bytes)
}

/// Whether its replay has this answer.
fn replay_gives(
    rt: &(impl AllocGlobal + Clock + Threads + Sync),
    line: &str,
    first: &[u8],
    second: &[u8],
    status: Status,
    text: &str,
) -> bool {
    match node_trace(rt.alloc(), first, second) {
        Ok(trace) => gives(rt, line, &[("t", trace.as_slice())], status, text),
        Err(_) => false,
    }
}

#[test]
fn a_replay_tells_the_end_of_a_node_or_the_first_event_refused(rt: HostRuntime) {
    let line = "replay base:2 0 t";
    let refused = Status::InputRefused;
    let end = "node 0 events 1 clock 1000000 maximum 1000000 mode slow\n";
    assert!(rt; replay_gives(&rt, line, TICK, b"", Status::Done, end));
    let end = "node 0 events 0 clock 0 maximum 0 mode slow\n";
    assert!(rt; replay_gives(&rt, line, b"", b"", Status::Done, end));
    let end = "refused at 1: backward 1000000 999999\n";
    assert!(rt; replay_gives(&rt, line, TICK, EARLIER, Status::Breach, end));
    assert!(rt;
        replay_gives(
            &rt,
            line,
            TICK,
            b"\x01\0",
            refused,
            "trace refused: cut 41\n"
        )
    );
    assert!(rt;
        replay_gives(
            &rt,
            line,
            TICK,
            b"\x03",
            refused,
            "trace refused: kind 41\n"
        )
    );
    assert!(rt;
        replay_gives(
            &rt,
            line,
            DELIVERY,
            b"",
            refused,
            "trace refused: beacon 32\n"
        )
    );
}

/// The files are read, and then the plan is looked into, then the node, and then the trace.
#[test]
fn a_replay_names_the_first_input_at_fault(rt: HostRuntime) {
    let refused = Status::InputRefused;
    let line = "replay base:2 1 t";
    assert!(rt; replay_gives(&rt, line, TICK, b"", refused, "trace refused: plan\n"));
    let line = "replay base:2 2 t";
    assert!(rt; replay_gives(&rt, line, TICK, b"\x01\0", refused, "node refused: 2\n"));
    let line = "replay base:0 2 t";
    assert!(rt;
        replay_gives(
            &rt,
            line,
            TICK,
            b"",
            Status::PlanRefused,
            "plan refused: count\n"
        )
    );
    let line = "replay base:0 2 missing";
    assert!(rt;
        replay_gives(
            &rt,
            line,
            TICK,
            b"",
            Status::ReadFault,
            "read failed: missing\n"
        )
    );
}
