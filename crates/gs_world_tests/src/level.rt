use gs_level::{Peak, Peaks, Report, Tally, edges_are_named, potential};
use gs_plan::{Plan, check};
use gs_planfile::{EdgeSpan, Spans, Version, base};
use std::alloc::Global;

/// A line of `n` nodes with the numbers of the built-in plans.
fn line(alloc: Global, n: u32) -> Option<Plan> {
    check(alloc, &base(alloc, n)).ok()
}

/// A line of three nodes whose edge between 1 and 2 has the kappa 22529, not 122529.
fn spanned(alloc: Global) -> Option<Plan> {
    let short = EdgeSpan {
        a: 1,
        b: 2,
        delay_min: 2,
        delay_max: 2,
        kappa: None,
    };
    let mut text = base(alloc, 3);
    text.version = Version::Two;
    text.spans = Spans::from_vec(Vec::from_slice(alloc, &[short]).ok()?);
    check(alloc, &text).ok()
}

fn peak(value: u64, v: u32, w: u32) -> Peak {
    Peak { value, v, w }
}

/// Whether the potential of level `s` of three clocks is this one.
fn is_peak(plan: &Plan, clocks: [u64; 3], s: u32, value: u64, v: u32, w: u32) -> bool {
    plan.topo().nodes() == 3 && potential(plan, &clocks, s) == peak(value, v, w)
}

#[test]
fn potentials_take_off_the_weights(rt: HostRuntime) {
    let Some(plan) = line(rt.alloc(), 3) else {
        panic!(rt; "the plan is refused");
    };
    assert!(rt; is_peak(&plan, [5, 5, 5], 0, 0, 0, 0));
    assert!(rt; is_peak(&plan, [0, 7, 7], 0, 7, 0, 1));
    assert!(rt; is_peak(&plan, [9, 0, 9], 0, 9, 1, 0));
    assert!(rt; is_peak(&plan, [300_000, 0, 0], 1, 54_942, 1, 0));
    assert!(rt; is_peak(&plan, [0, 0, 1_000_000], 0, 1_000_000, 0, 2));
    assert!(rt; is_peak(&plan, [0, 0, 1_000_000], 1, 754_942, 1, 2));
    assert!(rt; is_peak(&plan, [0, 0, 245_058], 1, 0, 0, 0));
    assert!(rt; is_peak(&plan, [0, 0, 245_059], 1, 1, 1, 2));
}

#[test]
fn a_short_edge_weighs_less(rt: HostRuntime) {
    let Some(plan) = spanned(rt.alloc()) else {
        panic!(rt; "the plan is refused");
    };
    assert!(rt; is_peak(&plan, [0, 0, 45_059], 1, 1, 1, 2));
    assert!(rt; is_peak(&plan, [0, 0, 1_000_000], 1, 954_942, 1, 2));
    assert!(rt; is_peak(&plan, [0, 290_000, 1_000_000], 1, 709_884, 0, 2));
    assert!(rt; is_peak(&plan, [0, 0, 1_000_000], 2, 909_884, 1, 2));
    assert!(rt; is_peak(&plan, [0, 0, 1_000_000], 32, 0, 0, 0));
}

#[test]
fn laws_cost_nothing(_rt: HostRuntime) {
    edges_are_named();
}

/// The report of these rows of three clocks.
fn report_of(alloc: Global, plan: &Plan, rows: [[u64; 3]; 4]) -> Option<Report> {
    if plan.topo().nodes() != 3 {
        return None;
    }
    let [first, second, third, last] = rows;
    let mut tally = Tally::new(plan, &first);
    tally.add(plan, &second);
    tally.add(plan, &third);
    tally.add(plan, &last);
    tally.report(alloc, plan, &last, 17).ok()
}

/// Whether a report of four rows has these skews, with their times and the edge, and this potential of level 0.
fn has(
    report: &Report,
    global: (u64, u32),
    near: (u64, u32),
    edge: (u32, u32),
    level_0: Peak,
) -> bool {
    (report.quanta, report.fast) == (3, 17)
        && (report.global, report.global_at) == global
        && (report.near, report.near_at) == near
        && report.near_edge == Some(edge)
        && report.levels.as_slice().len() == 5
        && report.levels.as_slice().first() == Some(&level_0)
}

/// Whether the report of these rows has them.
fn reports(
    alloc: Global,
    plan: &Plan,
    rows: [[u64; 3]; 4],
    global: (u64, u32),
    near: (u64, u32),
    edge: (u32, u32),
    level_0: Peak,
) -> bool {
    match report_of(alloc, plan, rows) {
        Some(report) => has(&report, global, near, edge, level_0),
        None => false,
    }
}

#[test]
fn the_first_time_and_the_first_edge_are_told(rt: HostRuntime) {
    let alloc = rt.alloc();
    let Some(plan) = line(alloc, 3) else {
        panic!(rt; "the plan is refused");
    };
    let rows = [[4, 4, 4], [4, 9, 4], [9, 4, 9], [0, 1, 0]];
    assert!(rt; reports(alloc, &plan, rows, (5, 1), (5, 1), (0, 1), peak(1, 0, 1)));
    let rows = [[0, 0, 0], [0, 6, 12], [0, 2, 12], [0, 12, 12]];
    assert!(rt; reports(alloc, &plan, rows, (12, 1), (12, 3), (0, 1), peak(12, 0, 1)));
    let rows = [[8, 8, 1], [8, 1, 1], [1, 8, 1], [2, 2, 2]];
    assert!(rt; reports(alloc, &plan, rows, (7, 0), (7, 0), (1, 2), peak(0, 0, 0)));
    let rows = [[6, 6, 6], [7, 7, 7], [8, 8, 8], [9, 9, 9]];
    assert!(rt; reports(alloc, &plan, rows, (0, 0), (0, 0), (0, 1), peak(0, 0, 0)));
}

const STEADY: &str = "nodes 2 edges 1 quanta 1000
global 0 at 0 bound 103125
neighbour 0 at 0 edge 0 1 bound 103125 level 0
level 0 potential 0 pair 0 0 bound 103125
level 1 potential 0 pair 0 0 bound 5158
level 2 potential 0 pair 0 0 bound 259
level 3 potential 0 pair 0 0 bound 14
level 4 potential 0 pair 0 0 bound 2
fast 0
";

const DRIFTED: &str = "nodes 2 edges 1 quanta 20000
global 2400 at 2400 bound 103125
neighbour 2400 at 2400 edge 0 1 bound 103125 level 0
level 0 potential 2000 pair 0 1 bound 103125
level 1 potential 0 pair 0 0 bound 5158
level 2 potential 0 pair 0 0 bound 259
level 3 potential 0 pair 0 0 bound 14
level 4 potential 0 pair 0 0 bound 2
fast 900
";

const ALONE: &str = "nodes 1 edges 0 quanta 0
global 0 at 0 bound 2301
neighbour 0 at 0 edge none bound 2301 level 0
level 0 potential 0 pair 0 0 bound 2301
level 1 potential 0 pair 0 0 bound 117
level 2 potential 0 pair 0 0 bound 7
level 3 potential 0 pair 0 0 bound 2
level 4 potential 0 pair 0 0 bound 2
fast 0
";

const LONG: &str = "nodes 33 edges 32 quanta 7
global 12 at 3 bound 3228669
neighbour 11 at 4 edge 5 6 bound 406493 level 1
level 0 potential 10 pair 5 7 bound 3228669
level 1 potential 0 pair 0 0 bound 161435
level 2 potential 0 pair 0 0 bound 8073
level 3 potential 0 pair 0 0 bound 405
level 4 potential 0 pair 0 0 bound 22
fast 8
";

/// Skews with the times that have them, and the edge of the second.
#[derive(Clone, Copy)]
struct Skews {
    global: (u64, u32),
    near: (u64, u32),
    edge: Option<(u32, u32)>,
}

/// The report of skews, over a potential of level 0 and none above it.
fn reported(alloc: Global, quanta: u32, skews: &Skews, level_0: Peak, fast: u64) -> Option<Report> {
    let none = peak(0, 0, 0);
    let levels = Vec::from_slice(alloc, &[level_0, none, none, none, none]).ok()?;
    Some(Report {
        quanta,
        global: skews.global.0,
        global_at: skews.global.1,
        near: skews.near.0,
        near_at: skews.near.1,
        near_edge: skews.edge,
        levels: Peaks::from_vec(levels),
        fast,
    })
}

/// Whether a report has this text.
fn has_text(alloc: Global, plan: &Plan, report: &Report, wanted: &str) -> bool {
    if report.levels.as_slice().len() != plan.text().levels as usize + 1 {
        return false;
    }
    match report.text(alloc, plan) {
        Ok(text) => text.bytes() == wanted.as_bytes(),
        Err(_) => false,
    }
}

/// Whether it has, on a line of so many nodes.
fn line_has_text(alloc: Global, nodes: u32, report: &Report, wanted: &str) -> bool {
    match line(alloc, nodes) {
        Some(plan) => has_text(alloc, &plan, report, wanted),
        None => false,
    }
}

/// Whether the report of these skews has.
fn is_text(
    alloc: Global,
    nodes: u32,
    quanta: u32,
    skews: &Skews,
    level_0: Peak,
    fast: u64,
    wanted: &str,
) -> bool {
    match reported(alloc, quanta, skews, level_0, fast) {
        Some(report) => line_has_text(alloc, nodes, &report, wanted),
        None => false,
    }
}

#[test]
fn reports_have_their_text(rt: HostRuntime) {
    let alloc = rt.alloc();
    let steady = Skews {
        global: (0, 0),
        near: (0, 0),
        edge: Some((0, 1)),
    };
    assert!(rt; is_text(alloc, 2, 1_000, &steady, peak(0, 0, 0), 0, STEADY));
    let drifted = Skews {
        global: (2_400, 2_400),
        near: (2_400, 2_400),
        edge: Some((0, 1)),
    };
    assert!(rt; is_text(alloc, 2, 20_000, &drifted, peak(2_000, 0, 1), 900, DRIFTED));
    let alone = Skews {
        global: (0, 0),
        near: (0, 0),
        edge: None,
    };
    assert!(rt; is_text(alloc, 1, 0, &alone, peak(0, 0, 0), 0, ALONE));
    let long = Skews {
        global: (12, 3),
        near: (11, 4),
        edge: Some((5, 6)),
    };
    assert!(rt; is_text(alloc, 33, 7, &long, peak(10, 5, 7), 8, LONG));
}
