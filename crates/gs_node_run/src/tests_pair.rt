use crate::tests::{Ended, Trial, run_over};
use crate::tests_ports::Stage;
use crate::tests_star::{clock_after, datagram, held, run_staged};
use crate::tests_wire::{Side, WirePorts};
use gs_cli::Status;
use gs_net::{Item, MemPorts};
use std::alloc::{AllocError, Global};
use std::sync::Wait;
use std::test::Fail;
use std::thread;
use std::thread::Threads;

/// The start at 0 and the readings of 30 ticks, so far from one another, each with one that is 70000 later.
fn readings(alloc: Global, tick: u64) -> Result<Vec<u64>, AllocError> {
    let mut readings = Vec::new(alloc);
    readings.push(0)?;
    for place in 1..31 {
        let reading = tick.saturating_mul(place);
        readings.push(reading)?;
        readings.push(reading.saturating_add(70_000))?;
    }
    Ok(readings)
}

/// The datagrams that were sent, as they come to the neighbour.
fn arriving(alloc: Global, sent: &[(u32, [u8; 40])]) -> Result<Vec<Item>, AllocError> {
    let mut items = Vec::new(alloc);
    for (_, bytes) in sent {
        items.push(datagram(alloc, bytes.as_slice())?)?;
    }
    Ok(items)
}

/// Whether a node heard so many beacons of this neighbour in order, and was done.
fn heard_all(ended: &Ended, neighbour: u32, count: usize) -> bool {
    for (place, (seat, sender, seq)) in ended.heard.iter().enumerate() {
        if *seat != 1 || *sender != neighbour || *seq != place as u64 + 1 {
            return false;
        }
    }
    ended.status == Status::Done && ended.heard.len() == count
}

/// Runs a node of a pair for 30 ticks over an inlet at this port to which this comes, all of it before the
/// first tick. Tells what was sent, too.
fn run_after<R: Threads + Wait + Sync>(
    rt: &R,
    alloc: Global,
    line: &str,
    port: u16,
    sent: &[(u32, [u8; 40])],
) -> Result<(Ended, Vec<(u32, [u8; 40])>), AllocError> {
    let readings = readings(alloc, 1_000_000)?;
    let trial = Trial {
        readings: readings.as_slice(),
        ..Trial::of(line)
    };
    let mut all = Vec::new(alloc);
    all.push(held(alloc, port, arriving(alloc, sent)?, 0)?)?;
    run_staged(rt, alloc, &trial, all, &Stage::new(1), 0)
}

#[test]
fn a_node_takes_what_another_sent(rt: HostRuntime) -> Result<(), Fail> {
    let alloc = rt.alloc();
    let (_, first) = run_after(&rt, alloc, "node base:2 0 30", 40_001, &[])?;
    let (one, second) = run_after(&rt, alloc, "node base:2 1 30", 40_000, &first)?;
    let (zero, third) = run_after(&rt, alloc, "node base:2 0 30", 40_001, &second)?;
    assert!(rt; first.len() == 30 && second.len() == 30 && third.len() == 30);
    assert!(rt; heard_all(&one, 0, 30) && heard_all(&zero, 1, 30));
    assert!(rt; one.trace.len() == 1_772 && zero.trace.len() == 1_772);
    assert!(rt; clock_after(alloc, "base:2", 1, &one.trace)?.is_some());
    assert!(rt; clock_after(alloc, "base:2", 0, &zero.trace)?.is_some());
    Ok(())
}

/// Runs a node of a pair for 30 ticks on one side of the wire.
fn run_side<R: Threads + Wait + Sync>(
    rt: &R,
    alloc: Global,
    line: &str,
    tick: u64,
    side: &Side,
    other: &Side,
) -> Result<Ended, AllocError> {
    let readings = readings(alloc, tick)?;
    let trial = Trial {
        readings: readings.as_slice(),
        ..Trial::of(line)
    };
    let mut ports = WirePorts {
        ports: MemPorts::new(alloc, Vec::new(alloc), Vec::new(alloc), Vec::new(alloc)),
        rt,
        side,
        other,
    };
    run_over(rt, alloc, &trial, &mut ports, side)
}

/// Runs both nodes of a pair at once, each for 30 ticks: node 0 with the slowest clock that the plan allows,
/// and node 1 with the fastest.
fn run_both<R: Threads + Wait + Sync>(
    rt: &R,
    alloc: Global,
    left: &Side,
    right: &Side,
) -> Result<(Ended, Ended), AllocError> {
    let (zero, one) = thread::join(
        rt,
        || run_side(rt, alloc, "node base:2 0 30", 1_000_000, left, right),
        || run_side(rt, alloc, "node base:2 1 30", 1_000_100, right, left),
    );
    Ok((zero?, one?))
}

#[test]
fn two_nodes_at_once_leave_evidence_of_one_another(rt: HostRuntime) -> Result<(), Fail> {
    let alloc = rt.alloc();
    let (left, right) = (Side::new(alloc, 29), Side::new(alloc, 29));
    let (zero, one) = run_both(&rt, alloc, &left, &right)?;
    assert!(rt; left.went_in_step() && right.went_in_step());
    assert!(rt; heard_all(&zero, 1, 29) && heard_all(&one, 0, 29));
    assert!(rt; zero.trace.len() == 1_723 && one.trace.len() == 1_723);
    let l = clock_after(alloc, "base:2", 0, &zero.trace)?;
    let m = clock_after(alloc, "base:2", 1, &one.trace)?;
    assert!(rt; l.is_some() && m.is_some());
    assert!(rt; l.unwrap_or(0).abs_diff(m.unwrap_or(0)) <= 103_125);
    Ok(())
}
