ghost use Rattle.gs_units.specs.Params.{AreValid};

use gs_audit::{NodeVerdict, Verdict, audit, audit_scan, replay, replay_scan};
use gs_core::{CoreFault, Event, Incs, NodeEvent};
use gs_plan::{Plan, check};
use gs_planfile::base;
use gs_trace::{
    NodeStart, Readings, WorldStart, node_event, node_head, scan_node, scan_world, world_event,
    world_head,
};
use gs_units::{Mode, NodeParams};
use gs_world::Refused;
use std::alloc::{AllocError, Global};

/// Adds so many quanta in which the nodes of a pair add these.
fn add_quanta(
    alloc: Global,
    events: &mut Vec<Event>,
    times: u32,
    incs: [u32; 2],
) -> Result<(), AllocError> {
    for _ in 0..times {
        let incs = Incs::from_vec(Vec::from_slice(alloc, &incs)?);
        events.push(Event::Quantum(incs))?;
    }
    Ok(())
}

/// Adds the event of this name, or so many quanta: slow ones, ones in which node 1 runs at the greatest
/// rate, or a unit above it. What is heard is the first beacon of node 0, by node 1.
fn add(alloc: Global, events: &mut Vec<Event>, name: &str, times: u32) -> Result<(), AllocError> {
    match name {
        "slow" => add_quanta(alloc, events, times, [10_000, 10_000])?,
        "apart" => add_quanta(alloc, events, times, [10_000, 10_001])?,
        "drift" => add_quanta(alloc, events, times, [10_000, 10_002])?,
        "tick0" => events.push(Event::Tick(0))?,
        "tick1" => events.push(Event::Tick(1))?,
        "tick2" => events.push(Event::Tick(2))?,
        _ => events.push(Event::Deliver {
            from: 0,
            to: 1,
            seq: 1,
        })?,
    }
    Ok(())
}

/// The events of a line of words, of which those of quanta have a number.
fn events_of(alloc: Global, line: &str) -> Result<Vec<Event>, AllocError> {
    let mut events = Vec::new(alloc);
    for word in line.split_whitespace() {
        let (name, times) = word.split_once('*').unwrap_or((word, "1"));
        add(alloc, &mut events, name, times.parse::<u32>().unwrap_or(0))?;
    }
    Ok(events)
}

/// The verdict on a list of events of a pair, from readings 0.
fn listed(alloc: Global, plan: &Plan, events: &[Event]) -> Option<Verdict> {
    if plan.topo().nodes() != 2 {
        return None;
    }
    let start = WorldStart {
        l0: 0,
        hw: Readings::from_vec(vec![in alloc; 0; 2].ok()?),
    };
    audit(alloc, plan, &start, events).ok()
}

/// The trace of a world with these events.
fn traced(alloc: Global, plan: &Plan, events: &[Event]) -> Option<Vec<u8>> {
    if plan.topo().nodes() != 2 {
        return None;
    }
    let start = WorldStart {
        l0: 0,
        hw: Readings::from_vec(vec![in alloc; 0; 2].ok()?),
    };
    let mut bytes = world_head(alloc, plan, &start).ok()?;
    for event in events {
        bytes
            .extend_from_slice(&world_event(alloc, event).ok()?)
            .ok()?;
    }
    Some(bytes)
}

/// The verdict on that trace.
fn scanned(alloc: Global, plan: &Plan, events: &[Event]) -> Option<Verdict> {
    let bytes = traced(alloc, plan, events)?;
    let (start, scan) = scan_world(alloc, &bytes, plan).ok()?;
    audit_scan(alloc, plan, &start, scan).ok()
}

fn refuses(verdict: &Option<Verdict>, wanted: u64, cause: Refused) -> bool {
    match verdict {
        Some(Verdict::Refused { index, why }) => *index == wanted && *why == cause,
        _ => false,
    }
}

/// Whether both audits refuse the event of this index for this.
fn is_refused(alloc: Global, plan: &Plan, line: &str, index: u64, why: Refused) -> bool {
    match events_of(alloc, line) {
        Ok(events) => {
            refuses(&listed(alloc, plan, &events), index, why)
                && refuses(&scanned(alloc, plan, &events), index, why)
        }
        Err(_) => false,
    }
}

const STALE: &str =
    "slow*100 tick0 tick1 slow*100 tick0 tick1 slow*100 tick0 tick1 slow*100 tick0 tick1 slow*13";

#[test]
fn the_first_event_that_is_not_allowed_is_named(rt: HostRuntime) {
    let alloc = rt.alloc();
    let Ok(plan) = check(alloc, &base(alloc, 2)) else {
        panic!(rt; "the plan is refused");
    };
    assert!(rt; is_refused(alloc, &plan, "hear", 0, Refused::Unknown));
    assert!(rt; is_refused(alloc, &plan, "drift", 0, Refused::Drift(1)));
    assert!(rt; is_refused(alloc, &plan, "slow*101", 100, Refused::TickDue(0)));
    assert!(rt; is_refused(alloc, &plan, "tick0 hear", 1, Refused::Early));
    assert!(rt; is_refused(alloc, &plan, "tick0 slow*13 hear", 14, Refused::Late));
    assert!(rt; is_refused(alloc, &plan, "tick2", 0, Refused::Shape));
    assert!(rt; is_refused(alloc, &plan, STALE, 420, Refused::Stale(1, 0)));
}

fn reports(verdict: &Option<Verdict>, quanta: u32, global: u64) -> bool {
    match verdict {
        Some(Verdict::Within(report)) => {
            (report.quanta, report.global, report.fast) == (quanta, global, 0)
        }
        _ => false,
    }
}

/// Whether both audits report so many quanta, this greatest skew and no fast node.
fn are_within(alloc: Global, plan: &Plan, line: &str, quanta: u32, global: u64) -> bool {
    match events_of(alloc, line) {
        Ok(events) => {
            reports(&listed(alloc, plan, &events), quanta, global)
                && reports(&scanned(alloc, plan, &events), quanta, global)
        }
        Err(_) => false,
    }
}

#[test]
fn allowed_events_give_their_report(rt: HostRuntime) {
    let alloc = rt.alloc();
    let Ok(plan) = check(alloc, &base(alloc, 2)) else {
        panic!(rt; "the plan is refused");
    };
    assert!(rt; are_within(alloc, &plan, "", 0, 0));
    assert!(rt; are_within(alloc, &plan, "tick0 apart*12 hear hear", 12, 12));
}

const START: NodeStart = NodeStart { l0: 0, hw: 0 };

/// The trace of a node with ticks at these readings.
fn node_trace(alloc: Global, params: &NodeParams, ticks: &[u64]) -> Result<Vec<u8>, AllocError> {
    let mut bytes = node_head(params, &START).to_vec(alloc)?;
    for hw in ticks {
        bytes.extend_from_slice(&node_event(alloc, &NodeEvent::Tick { hw: *hw })?)?;
    }
    Ok(bytes)
}

/// Whether a replay had this verdict.
fn is_verdict(verdict: Result<NodeVerdict, AllocError>, wanted: &NodeVerdict) -> bool {
    match verdict {
        Ok(verdict) => verdict == *wanted,
        Err(_) => false,
    }
}

/// Whether its replay has this verdict.
fn trace_gives(alloc: Global, params: &NodeParams, ticks: &[u64], wanted: &NodeVerdict) -> bool
    requires { AreValid params.now }
{
    let Ok(bytes) = node_trace(alloc, params, ticks) else {
        return false;
    };
    let Ok((start, scan)) = scan_node(&bytes, params) else {
        return false;
    };
    is_verdict(replay_scan(alloc, params, &start, scan), wanted)
}

/// Whether node 0, with one tick and with a second a unit before it, has these verdicts.
fn replays(alloc: Global, plan: &Plan, within: &NodeVerdict, fell: &NodeVerdict) -> bool {
    if plan.topo().nodes() != 2 {
        return false;
    }
    let Ok(params) = plan.node(alloc, 0) else {
        return false;
    };
    let first = NodeEvent::Tick { hw: 1_000_000 };
    let second = NodeEvent::Tick { hw: 999_999 };
    trace_gives(alloc, &params, &[1_000_000], within)
        && trace_gives(alloc, &params, &[1_000_000, 999_999, 2_000_000], fell)
        && is_verdict(replay(alloc, &params, &START, &[first]), within)
        && is_verdict(replay(alloc, &params, &START, &[first, second]), fell)
}

#[test]
fn a_replay_ends_at_the_last_reading_or_at_the_first_fault(rt: HostRuntime) {
    let Ok(plan) = check(rt.alloc(), &base(rt.alloc(), 2)) else {
        panic!(rt; "the plan is refused");
    };
    let within = NodeVerdict::Within {
        l: 1_000_000,
        m: 1_000_000,
        mode: Mode::Slow,
    };
    let fell = NodeVerdict::Refused {
        index: 1,
        why: CoreFault::Backward {
            last: 1_000_000,
            now: 999_999,
        },
    };
    assert!(rt; replays(rt.alloc(), &plan, &within, &fell));
}
