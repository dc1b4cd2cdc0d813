use gs_plan::{EdgeNumbers, Plan, accepted_plans, check, weights_are_least_sums};
use gs_planfile::{EdgeSpan, PlanText, Spans, Version, base};
use gs_units::{Link, NodeParams};
use std::alloc::Global;

/// A line of `n` nodes with the numbers of the built-in plans.
fn line(alloc: Global, n: u32) -> Option<Plan> {
    check(alloc, &base(alloc, n)).ok()
}

/// Whether the levels of a plan have these bounds, each on all clocks and on neighbours.
fn are_levels(plan: &Plan, bounds: &[(u64, u64)]) -> bool {
    for s in 0..5u32 {
        let Some((all, near)) = bounds.get(s as usize) else {
            return false;
        };
        if s > plan.text().levels || plan.g_level(s) != *all || plan.local(s) != *near {
            return false;
        }
    }
    true
}

/// Whether the built-in line of so many nodes has these bounds at its levels, and this best level.
fn line_has(
    alloc: Global,
    nodes: u32,
    lambda: u64,
    bounds: &[(u64, u64)],
    best: (u32, u64),
) -> bool {
    let Some(plan) = line(alloc, nodes) else {
        return false;
    };
    plan.lambda() == lambda && plan.best() == best && are_levels(&plan, bounds)
}

#[test]
fn lines_have_their_bounds(rt: HostRuntime) {
    let alloc = rt.alloc();
    let long = [
        (3_228_669, 3_228_669),
        (161_435, 406_493),
        (8_073, 498_189),
        (405, 735_579),
        (22, 980_254),
    ];
    assert!(rt; line_has(alloc, 33, 3_226_368, &long, (1, 406_493)));
    let pair = [
        (103_125, 103_125),
        (5_158, 250_216),
        (259, 490_375),
        (14, 735_188),
        (2, 980_234),
    ];
    assert!(rt; line_has(alloc, 2, 100_824, &pair, (0, 103_125)));
    let alone = [
        (2_301, 2_301),
        (117, 245_175),
        (7, 490_123),
        (2, 735_176),
        (2, 980_234),
    ];
    assert!(rt; line_has(alloc, 1, 0, &alone, (0, 2_301)));
}

/// Whether a plan has the numbers of the built-in line of 33 nodes.
fn has_its_numbers(plan: &Plan) -> bool {
    (plan.kappa(), plan.delta()) == (122_529, 61_264)
        && (plan.comp(), plan.jump()) == (70_000, 20_000)
        && (plan.iota(), plan.greatest_kappa()) == (2_201, 122_529)
        && (plan.rate().sigma(), plan.text().port) == (20, 40_000)
        && (plan.topo().nodes(), plan.topo().diameter()) == (33, 32)
}

#[test]
fn a_plan_has_its_numbers(rt: HostRuntime) {
    let Some(plan) = line(rt.alloc(), 33) else {
        panic!(rt; "the plan is refused");
    };
    assert!(rt; has_its_numbers(&plan));
    accepted_plans();
    weights_are_least_sums();
}

/// Whether a plan has the numbers of the weakest boost.
fn is_weak(plan: &Plan) -> bool {
    (plan.rate().sigma(), plan.delta(), plan.kappa()) == (2, 65_872, 131_745)
        && plan.text().levels >= 1
        && (plan.g_level(0), plan.g_level(1)) == (112_341, 56_181)
}

#[test]
fn a_weak_boost_is_still_accepted(rt: HostRuntime) {
    let mut text = base(rt.alloc(), 2);
    text.hi = 10_010;
    let Ok(plan) = check(rt.alloc(), &text) else {
        panic!(rt; "the plan is refused");
    };
    assert!(rt; is_weak(&plan));
}

/// The numbers of an edge of a built-in plan.
const PLAIN: EdgeNumbers = EdgeNumbers {
    delay_min: 2,
    delay_max: 12,
    kappa: 122_529,
    delta: 61_264,
    comp: 70_000,
    jump: 20_000,
};

/// The numbers of an edge whose delay is 2.
const SHORT: EdgeNumbers = EdgeNumbers {
    delay_min: 2,
    delay_max: 2,
    kappa: 22_529,
    delta: 11_264,
    comp: 20_000,
    jump: 20_000,
};

/// A line of three nodes whose edge between these two has the delay 2.
fn short(alloc: Global, a: u32, b: u32) -> Option<PlanText> {
    let span = EdgeSpan {
        a,
        b,
        delay_min: 2,
        delay_max: 2,
        kappa: None,
    };
    let mut text = base(alloc, 3);
    text.version = Version::Two;
    text.spans = Spans::from_vec(Vec::from_slice(alloc, &[span]).ok()?);
    Some(text)
}

/// The plan of such a line.
fn short_plan(alloc: Global, a: u32, b: u32) -> Option<Plan> {
    let text = short(alloc, a, b)?;
    check(alloc, &text).ok()
}

/// Whether an edge of a plan has these numbers and this best level.
fn is_edge(plan: &Plan, e: u32, numbers: &EdgeNumbers, best: (u32, u64)) -> bool {
    (e as usize) < plan.topo().edges().len()
        && plan.edge(e) == *numbers
        && plan.best_edge(e) == best
}

/// Whether the line has the numbers of its edges, each way round.
fn has_its_edges(plan: &Plan) -> bool {
    is_edge(plan, 0, &PLAIN, (0, 203_949))
        && is_edge(plan, 1, &SHORT, (1, 55_257))
        && !is_edge(plan, 2, &PLAIN, (0, 203_949))
        && plan.edge_over(2, 1) == Some(SHORT)
        && plan.edge_over(0, 2).is_none()
}

/// Whether it has its numbers beside these.
fn has_its_greatest(plan: &Plan) -> bool {
    (plan.lambda(), plan.greatest_kappa()) == (201_648, 122_529)
        && plan.best() == (0, 203_949)
        && plan.text().levels == 4
        && plan.best_over(22_529) == (1, 55_257)
}

/// Whether it has its weights and its bounds.
fn has_its_weights(plan: &Plan) -> bool {
    plan.topo().nodes() == 3
        && (plan.weight(0, 2), plan.weight(2, 1), plan.weight(1, 1)) == (145_058, 22_529, 0)
        && plan.text().levels == 4
        && (plan.g_level(0), plan.g_level(1), plan.g_level(4)) == (203_949, 10_199, 3)
        && (plan.local(1), plan.local(4)) == (255_257, 980_235)
}

#[test]
fn a_short_edge_has_its_own_numbers(rt: HostRuntime) {
    for (a, b) in [(1, 2), (2, 1)] {
        let Some(plan) = short_plan(rt.alloc(), a, b) else {
            panic!(rt; "the plan is refused");
        };
        assert!(rt; has_its_edges(&plan), "{a} {b}");
        assert!(rt; has_its_greatest(&plan), "{a} {b}");
        assert!(rt; has_its_weights(&plan), "{a} {b}");
    }
}

/// Whether these are the parameters of node 0 of the built-in pair.
fn is_told(params: &NodeParams) -> bool {
    let link = Link {
        node: 1,
        comp: 70_000,
        jump: 20_000,
        kappa: 122_529,
        delta: 61_264,
    };
    (params.cluster, params.node, params.every, params.iota) == (7, 0, 1, 2_201)
        && (params.rate.lo(), params.rate.hi(), params.rate.mu()) == (10_000, 10_001, 2_000)
        && params.links.as_slice() == [link].as_slice()
}

/// Whether a plan tells node 0 these.
fn tells(alloc: Global, plan: &Plan) -> bool {
    if plan.topo().nodes() == 0 {
        return false;
    }
    match plan.node(alloc, 0) {
        Ok(params) => is_told(&params),
        Err(_) => false,
    }
}

#[test]
fn a_node_is_told_its_links(rt: HostRuntime) {
    let Some(plan) = line(rt.alloc(), 2) else {
        panic!(rt; "the plan is refused");
    };
    assert!(rt; tells(rt.alloc(), &plan));
}
