ghost use Rattle.std.specs.Prelude.{◌≤◌};

use crate::{PlayStop, play, scripts_keep_bounds};
use gs_gate::{Gate, PlainGate};
use gs_gates::{CountGate, PairGate, Rendezvous};
use gs_level::{Peak, Report};
use gs_plan::{Plan, check};
use gs_planfile::{PlanText, Shape, base};
use gs_script::read_script;
use std::alloc::Global;
use std::test::Fail;
use std::thread::Threads;
use std::time::Clock;

/// A plan of this text.
fn planned(alloc: Global, text: &PlanText) -> Result<Plan, Fail> {
    Ok(check(alloc, text).map_err(|_| "the plan is refused")?)
}

/// What a play of these records by so many workers answers.
fn played_by<G: Gate>(
    rt: &(impl AllocGlobal + Threads + Sync),
    plan: &Plan,
    records: &str,
    workers: u32,
    gate: &G,
) -> Result<Result<Report, PlayStop>, Fail>
    requires { (1 ≤ workers) × (workers ≤ 64) }
{
    let alloc = rt.alloc();
    let script = read_script(alloc, records.as_bytes(), plan).map_err(|_| "refused")?;
    Ok(play(rt, alloc, plan, &script, workers, gate))
}

/// What a play by two workers answers.
fn played(
    rt: &(impl AllocGlobal + Clock + Threads + Sync),
    plan: &Plan,
    records: &str,
) -> Result<Result<Report, PlayStop>, Fail> {
    played_by(rt, plan, records, 2, &PlainGate::new(rt))
}

/// The numbers of a report: quanta, the greatest skews and their times, and what was played in fast mode.
fn numbers(alloc: Global, report: &Report) -> Result<String, Fail> {
    let Report {
        quanta,
        global,
        global_at,
        near,
        near_at,
        fast,
        ..
    } = report;
    Ok(format!(in alloc;
        "quanta {quanta} global {global} at {global_at} near {near} at {near_at} fast {fast}"
    )?)
}

/// Plays of two nodes: the records, the numbers of the report, and the first potential.
const PAIRS: [(&str, &str, Peak); 4] = [
    (
        "quanta,1000",
        "quanta 1000 global 0 at 0 near 0 at 0 fast 0",
        Peak {
            value: 0,
            v: 0,
            w: 0,
        },
    ),
    (
        "quanta,100\ndrift,1,1,100,10001",
        "quanta 100 global 100 at 100 near 100 at 100 fast 0",
        Peak {
            value: 100,
            v: 0,
            w: 1,
        },
    ),
    (
        "quanta,20000\ndrift,1,1,20000,10001",
        "quanta 20000 global 2400 at 2400 near 2400 at 2400 fast 900",
        Peak {
            value: 2000,
            v: 0,
            w: 1,
        },
    ),
    (
        "quanta,100\ndrift,*,1,100,10001\ndrift,0,50,100,10000",
        "quanta 100 global 51 at 100 near 51 at 100 fast 0",
        Peak {
            value: 51,
            v: 0,
            w: 1,
        },
    ),
];

#[test]
fn a_drift_is_reported_and_made_up_for(rt: HostRuntime) -> Result<(), Fail> {
    let alloc = rt.alloc();
    let plan = planned(alloc, &base(alloc, 2))?;
    for (records, wanted, first) in PAIRS {
        let report = played(&rt, &plan, records)?.map_err(|_| "stopped")?;
        assert_eq!(rt; numbers(alloc, &report)?.as_str(), wanted);
        assert_eq!(rt; report.near_edge, Some((0, 1)));
        assert_eq!(rt; report.levels.as_slice().first().copied(), Some(first));
        assert_eq!(rt; report.levels.as_slice().len(), 5);
    }
    Ok(())
}

/// Plays of two nodes on a plan whose age is just enough for 3 beacons in a row to be lost: the records, and
/// the breach. Beacons are sent in each 100th quantum, and the one after 3 that are lost comes as late as it may.
const LOSSES: [(&str, Option<PlayStop>); 4] = [
    ("quanta,1000\nloss,0,1,1,300,1\ndelay,0,1,400,400,12", None),
    (
        "quanta,1000\nloss,0,1,1,400,1",
        Some(PlayStop::Stale {
            quantum: 413,
            from: 0,
            to: 1,
        }),
    ),
    (
        "quanta,1000\nloss,1,0,401,700,1\ndelay,1,0,800,800,12",
        None,
    ),
    (
        "quanta,1000\nloss,1,0,401,800,1",
        Some(PlayStop::Stale {
            quantum: 813,
            from: 1,
            to: 0,
        }),
    ),
];

#[test]
fn losses_of_the_plan_are_no_breach_and_one_more_is(rt: HostRuntime) -> Result<(), Fail> {
    let alloc = rt.alloc();
    let plan = planned(alloc, &base(alloc, 2))?;
    for (records, breach) in LOSSES {
        assert_eq!(rt; played(&rt, &plan, records)?.err(), breach);
    }
    Ok(())
}

#[test]
fn a_stop_says_why(rt: HostRuntime) -> Result<(), Fail> {
    let alloc = rt.alloc();
    let breach = PlayStop::Stale {
        quantum: 413,
        from: 0,
        to: 1,
    };
    assert_eq!(rt;
        breach.to_string(alloc)?.as_str(),
        "breach at quantum 413: stale 0 1"
    );
    assert_eq!(rt;
        PlayStop::OutOfMemory.to_string(alloc)?.as_str(),
        "out of memory"
    );
    Ok(())
}

#[test]
fn other_shapes_are_played(rt: HostRuntime) -> Result<(), Fail> {
    let alloc = rt.alloc();
    let alone = planned(alloc, &base(alloc, 1))?;
    let report = played(&rt, &alone, "quanta,0")?.map_err(|_| "stopped")?;
    assert_eq!(rt;
        numbers(alloc, &report)?.as_str(),
        "quanta 0 global 0 at 0 near 0 at 0 fast 0"
    );
    assert_eq!(rt; report.near_edge, None);
    let mut text = base(alloc, 3);
    text.shape = Shape::Ring(3);
    let ring = planned(alloc, &text)?;
    let report = played(&rt, &ring, "quanta,100\ndrift,0,1,100,10001")?.map_err(|_| "stopped")?;
    assert_eq!(rt;
        numbers(alloc, &report)?.as_str(),
        "quanta 100 global 100 at 100 near 100 at 100 fast 0"
    );
    assert_eq!(rt; report.near_edge, Some((0, 1)));
    Ok(())
}

#[test]
fn two_workers_run_at_the_same_time(rt: HostRuntime) -> Result<(), Fail> {
    let alloc = rt.alloc();
    let mut text = base(alloc, 12);
    text.shape = Shape::Ring(12);
    let ring = planned(alloc, &text)?;
    let gate = Rendezvous::new();
    let report = played_by(&rt, &ring, "quanta,2000\ndrift,0,1,2000,10001", 2, &gate)?;
    assert!(rt; report.is_ok() && gate.met());
    Ok(())
}

/// A ring of 256 nodes with delays of 64 quanta, so that a window has 64.
fn slow_ring(alloc: Global) -> Result<Plan, Fail> {
    let mut text = base(alloc, 256);
    text.shape = Shape::Ring(256);
    text.delay_min = 64;
    text.delay_max = 64;
    text.age = 464;
    planned(alloc, &text)
}

#[test]
fn each_window_with_much_to_do_goes_by_threads(rt: HostRuntime) -> Result<(), Fail> {
    let plan = slow_ring(rt.alloc())?;
    let gate = PairGate::new();
    let report = played_by(&rt, &plan, "quanta,256\ntick,*,1,256,1", 2, &gate)?;
    assert!(rt; report.is_ok());
    assert_eq!(rt; gate.met(), 4);
    Ok(())
}

#[test]
fn windows_with_little_to_do_go_in_turn_after_the_first(rt: HostRuntime) -> Result<(), Fail> {
    let plan = slow_ring(rt.alloc())?;
    let gate = PairGate::within(1000);
    let report = played_by(&rt, &plan, "quanta,1024", 2, &gate)?;
    assert!(rt; report.is_ok());
    assert!(rt; gate.met() <= 1);
    Ok(())
}

#[test]
fn a_piece_is_entered_once_a_window(rt: HostRuntime) -> Result<(), Fail> {
    let plan = planned(rt.alloc(), &base(rt.alloc(), 2))?;
    let gate = CountGate::new();
    let report = played_by(&rt, &plan, "quanta,1000", 2, &gate)?;
    assert!(rt; report.is_ok());
    assert_eq!(rt; gate.entered(), 1000);
    Ok(())
}

#[test]
fn laws_cost_nothing(_rt: HostRuntime) {
    scripts_keep_bounds();
}
