use gs_plan::{PlanFault, check};
use gs_planfile::{EdgeList, EdgeSpan, PlanText, Shape, Spans, Version, base};
use gs_topo::TopoFault;
use gs_units::RateFault;
use std::alloc::Global;

/// Whether a fault is told in these words.
fn is_told(alloc: Global, fault: PlanFault, words: &str) -> bool {
    match fault.to_string(alloc) {
        Ok(told) => told.as_str() == words,
        Err(_) => false,
    }
}

#[test]
fn each_fault_has_its_words(rt: HostRuntime) {
    for (fault, words) in [
        (PlanFault::Rate(RateFault::Boost), "boost"),
        (PlanFault::Topo(TopoFault::Loop(7)), "loop 7"),
        (PlanFault::Tick, "tick"),
        (PlanFault::Delay, "delay"),
        (PlanFault::Span(12), "span 12"),
        (PlanFault::Every, "every"),
        (PlanFault::Losses, "losses"),
        (PlanFault::Age, "age"),
        (PlanFault::Levels, "levels"),
        (PlanFault::Port, "port"),
        (PlanFault::Weak, "weak"),
        (PlanFault::Kappa, "kappa"),
        (PlanFault::Wide, "wide"),
        (PlanFault::OutOfMemory, "out of memory"),
    ] {
        assert!(rt; is_told(rt.alloc(), fault, words), "{words}");
    }
}

/// Whether a text is refused so, or `accepted`.
fn is_said(alloc: Global, text: &PlanText, wanted: &str) -> bool {
    match check(alloc, text) {
        Ok(_) => wanted == "accepted",
        Err(fault) => is_told(alloc, fault, wanted),
    }
}

/// Sets one number of a text.
fn set(text: &mut PlanText, key: &str, value: u32) {
    match key {
        "lo" => text.lo = value,
        "hi" => text.hi = value,
        "mu" => text.mu = value,
        "tick" => text.tick = value,
        "delay_min" => text.delay_min = value,
        "delay_max" => text.delay_max = value,
        "every" => text.every = value,
        "losses" => text.losses = value,
        "age" => text.age = value,
        "levels" => text.levels = value,
        _ => text.port = value,
    }
}

/// Whether the built-in pair with one number set, as a case tells, is refused as it tells, or `accepted`.
fn holds(alloc: Global, case: &str) -> bool {
    let Some((number, wanted)) = case.split_once(" -> ") else {
        return false;
    };
    let Some((key, value)) = number.split_once(' ') else {
        return false;
    };
    let Ok(value) = value.parse::<u32>() else {
        return false;
    };
    let mut text = base(alloc, 2);
    set(&mut text, key, value);
    is_said(alloc, &text, wanted)
}

/// A number of the built-in pair on each side of its bounds.
const NUMBERS: &str = "lo 0 -> low
hi 10000 -> high
mu 0 -> boost
mu 199 -> weak
mu 200 -> accepted
hi 10011 -> weak
hi 10010 -> accepted
tick 0 -> tick
tick 1 -> accepted
tick 65536 -> age
tick 65537 -> tick
delay_min 12 -> accepted
delay_min 13 -> delay
delay_max 65536 -> age
delay_max 65537 -> delay
every 0 -> every
every 1024 -> age
every 1025 -> every
losses 1024 -> age
losses 1025 -> losses
age 411 -> age
age 412 -> accepted
levels 0 -> levels
levels 32 -> accepted
levels 33 -> levels
port 1023 -> port
port 1024 -> accepted
port 65532 -> accepted
port 65533 -> port
";

#[test]
fn each_number_has_its_bounds(rt: HostRuntime) {
    for case in NUMBERS.lines() {
        assert!(rt; holds(rt.alloc(), case), "{case}");
    }
}

/// Whether the built-in pair of one level with this kappa is refused so, or `accepted`.
fn kappa_is_said(alloc: Global, kappa: u64, wanted: &str) -> bool {
    let mut text = base(alloc, 2);
    text.levels = 1;
    text.kappa = Some(kappa);
    is_said(alloc, &text, wanted)
}

#[test]
fn a_given_kappa_is_neither_low_nor_wide(rt: HostRuntime) {
    let alloc = rt.alloc();
    assert!(rt; kappa_is_said(alloc, 0, "kappa"));
    assert!(rt; kappa_is_said(alloc, 122_528, "kappa"));
    assert!(rt; kappa_is_said(alloc, 122_529, "accepted"));
    assert!(rt; kappa_is_said(alloc, (1 << 61) - 51_563, "accepted"));
    assert!(rt; kappa_is_said(alloc, (1 << 61) - 51_562, "wide"));
}

/// An old pair whose boost is weak too.
fn old_and_weak(alloc: Global) -> PlanText {
    let mut text = base(alloc, 2);
    text.hi = 10_011;
    text.age = 411;
    text
}

/// A pair whose clocks run so fast that its bounds reach the end of clocks.
fn fast(alloc: Global) -> PlanText {
    let mut text = base(alloc, 2);
    text.lo = 1_000_000_000;
    text.hi = 1_000_000_001;
    text.mu = 100_000;
    text.age = 4_294_967_295;
    text
}

#[test]
fn the_earlier_fault_counts(rt: HostRuntime) {
    let alloc = rt.alloc();
    assert!(rt; is_said(alloc, &old_and_weak(alloc), "age"));
    assert!(rt; is_said(alloc, &fast(alloc), "wide"));
}

/// Whether a graph of this shape is refused so.
fn shape_is_said(alloc: Global, shape: Shape, wanted: &str) -> bool {
    let mut text = base(alloc, 2);
    text.shape = shape;
    is_said(alloc, &text, wanted)
}

/// Whether four nodes with these two edges are refused so.
fn edges_are_said(alloc: Global, first: (u32, u32), second: (u32, u32), wanted: &str) -> bool {
    match Vec::from_slice(alloc, &[first, second]) {
        Ok(edges) => shape_is_said(alloc, Shape::Edges(4, EdgeList::from_vec(edges)), wanted),
        Err(_) => false,
    }
}

#[test]
fn shapes_are_refused_as_graphs(rt: HostRuntime) {
    let alloc = rt.alloc();
    assert!(rt; shape_is_said(alloc, Shape::Line(0), "count"));
    assert!(rt; shape_is_said(alloc, Shape::Line(513), "count"));
    assert!(rt; shape_is_said(alloc, Shape::Ring(0), "count"));
    assert!(rt; shape_is_said(alloc, Shape::Grid(0, 5), "count"));
    assert!(rt; shape_is_said(alloc, Shape::Grid(641, 6_700_417), "count"));
    assert!(rt; edges_are_said(alloc, (0, 1), (2, 3), "split 2"));
    assert!(rt; edges_are_said(alloc, (0, 1), (1, 0), "double 1"));
}

/// How many edges a graph of this shape has, and its diameter.
fn measured(alloc: Global, shape: Shape) -> (usize, u32) {
    let mut text = base(alloc, 2);
    text.shape = shape;
    match check(alloc, &text) {
        Ok(plan) => (plan.topo().edges().len(), plan.topo().diameter()),
        Err(_) => (0, u32::MAX),
    }
}

/// The same for three nodes with these two edges.
fn measured_edges(alloc: Global, first: (u32, u32), second: (u32, u32)) -> (usize, u32) {
    match Vec::from_slice(alloc, &[first, second]) {
        Ok(edges) => measured(alloc, Shape::Edges(3, EdgeList::from_vec(edges))),
        Err(_) => (0, u32::MAX),
    }
}

#[test]
fn shapes_have_their_edges(rt: HostRuntime) {
    let alloc = rt.alloc();
    assert_eq!(rt; measured(alloc, Shape::Line(1)), (0, 0));
    assert_eq!(rt; measured(alloc, Shape::Ring(1)), (0, 0));
    assert_eq!(rt; measured(alloc, Shape::Ring(2)), (1, 1));
    assert_eq!(rt; measured(alloc, Shape::Ring(3)), (3, 1));
    assert_eq!(rt; measured(alloc, Shape::Ring(12)), (12, 6));
    assert_eq!(rt; measured(alloc, Shape::Grid(2, 3)), (7, 3));
    assert_eq!(rt; measured(alloc, Shape::Grid(16, 32)), (976, 46));
    assert_eq!(rt; measured_edges(alloc, (2, 0), (1, 0)), (2, 2));
}

/// The span of two nodes and two delays.
fn span(numbers: [u32; 4], kappa: Option<u64>) -> EdgeSpan {
    let [a, b, delay_min, delay_max] = numbers;
    EdgeSpan {
        a,
        b,
        delay_min,
        delay_max,
        kappa,
    }
}

/// Whether a line of three nodes with these spans, in a plan of this version, is refused so, or `accepted`.
fn spans_are_said(alloc: Global, version: Version, spans: &[EdgeSpan], wanted: &str) -> bool {
    let Ok(spans) = Vec::from_slice(alloc, spans) else {
        return false;
    };
    let mut text = base(alloc, 3);
    text.version = version;
    text.spans = Spans::from_vec(spans);
    is_said(alloc, &text, wanted)
}

/// The same of two spans of nodes and delays, in version 2.
fn both_are_said(alloc: Global, first: [u32; 4], second: [u32; 4], wanted: &str) -> bool {
    let spans = [span(first, None), span(second, None)];
    spans_are_said(alloc, Version::Two, &spans, wanted)
}

#[test]
fn spans_are_refused_where_they_are_at_fault(rt: HostRuntime) {
    let alloc = rt.alloc();
    assert!(rt; both_are_said(alloc, [0, 1, 1, 1], [1, 2, 1, 1], "accepted"));
    assert!(rt; both_are_said(alloc, [0, 2, 2, 2], [1, 2, 2, 2], "span 0"));
    assert!(rt; both_are_said(alloc, [1, 2, 2, 2], [1, 1, 2, 2], "span 1"));
    assert!(rt; both_are_said(alloc, [1, 2, 2, 2], [2, 1, 3, 3], "span 1"));
    assert!(rt; both_are_said(alloc, [1, 2, 2, 2], [1, 2, 3, 3], "span 1"));
    assert!(rt; both_are_said(alloc, [1, 2, 5, 4], [0, 1, 2, 2], "span 0"));
    assert!(rt; both_are_said(alloc, [1, 2, 0, 0], [0, 1, 2, 2], "span 0"));
    assert!(rt; both_are_said(alloc, [1, 2, 0, 65_537], [0, 1, 2, 2], "span 0"));
    assert!(rt; both_are_said(alloc, [1, 2, 0, 65_536], [0, 1, 2, 2], "age"));
    assert!(rt; both_are_said(alloc, [1, 2, 0, 13], [0, 1, 2, 2], "age"));
    assert!(rt; both_are_said(alloc, [1, 2, 0, 12], [0, 1, 2, 2], "accepted"));
    let short = span([1, 2, 2, 2], None);
    assert!(rt; spans_are_said(alloc, Version::One, &[short], "span 0"));
}

#[test]
fn a_kappa_of_a_span_is_compared_with_its_own_delays(rt: HostRuntime) {
    let low = span([1, 2, 2, 2], Some(22_528));
    assert!(rt; spans_are_said(rt.alloc(), Version::Two, &[low], "kappa"));
    let least = span([1, 2, 2, 2], Some(22_529));
    assert!(rt; spans_are_said(rt.alloc(), Version::Two, &[least], "accepted"));
}
