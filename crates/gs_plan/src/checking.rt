ghost use Rattle.std.specs.Prelude.{◌≡◌, ◌≢◌, ◌<◌, ◌^◌, ◌*◌, ◌+◌, ◌||◌, [], false, Err, IfErr, IfOk, IfSome, List, None, OnOk, Some, is_none, is_some, length, option_map, replicate, slice_index_or};
ghost use Rattle.std.specs.Bool.{then_some};
ghost use Rattle.std.specs.List.{list_any};
ghost use Rattle.gs_units.specs.Rates.{HasNumbers};
ghost use Rattle.gs_units.specs.Faults.{rate_fault};
ghost use Rattle.gs_topo.specs.Graph.{number_of};
ghost use Rattle.gs_plan.specs.Accepted.{IsAccepted};
ghost use Rattle.gs_plan.specs.Edges.{edges_given, own_given, span_given};
ghost use Rattle.gs_plan.specs.inside.Kept.{edge_spans};
ghost use Rattle.gs_plan.specs.Faults.{are_bad_delays, are_bad_ports, are_low_kappas, beacon_bound, fault_over, is_bad_span, is_low_kappa, is_one, is_outside, is_wide, plan_fault, span_fault};
ghost use Rattle.gs_plan.specs.Plans.{text_of};

use crate::bounds::{global, greatest_delay, greatest_kappa};
use crate::edge::{EdgeGiven, edges_given, own_given, span_given};
use crate::fault::PlanFault;
use crate::numbers::least_kappa;
use crate::plan::Plan;
use crate::shape::topology_of;
use gs_planfile::{EdgeSpan, PlanText, Version};
use gs_topo::Topology;
use gs_units::{END, Rate};
use std::alloc::{AllocError, Global};

/// The fault where the test holds.
fn refuse(test: bool, fault: PlanFault) -> Result<(), PlanFault>
    ensures ok { OnOk result (test ≡ false) }
    ensures err { IfErr result (λ e. then_some test fault ≡ Some e) }
{
    if test { Err(fault) } else { Ok(()) }
}

/// Whether `x` is outside of `low` to `high`.
fn is_outside(low: u32, high: u32, x: u32) -> bool
    ensures { result ≡ is_outside low high x }
{
    x < low || high < x
}

/// Whether delays are out of order or out of range.
fn are_bad_delays(least: u32, greatest: u32) -> bool
    ensures { result ≡ are_bad_delays least greatest }
{
    greatest < least || is_outside(1, 65_536, greatest)
}

/// The rate of a plan.
fn rate_of(text: &PlanText) -> Result<Rate, PlanFault>
    ensures numbers { IfOk result (HasNumbers text.now.lo text.now.hi text.now.mu) }
    ensures ok { OnOk result (rate_fault text.now.lo text.now.hi text.now.mu ≡ None) }
    ensures err { IfErr result (λ e.
        option_map PlanFault.Rate (rate_fault text.now.lo text.now.hi text.now.mu) ≡ Some e) }
{
    Rate::new(text.lo, text.hi, text.mu).map_err(PlanFault::Rate)
}

/// Whether a span that names an edge is at fault, where this is the edge's earlier span.
fn is_bad_again(version: Version, earlier: Option<EdgeSpan>, span: EdgeSpan) -> bool
    ensures { result ≡ is_one version
        || (is_some earlier || are_bad_delays span.delay_min span.delay_max) }
{
    version == Version::One || earlier.is_some() || are_bad_delays(span.delay_min, span.delay_max)
}

/// The number of the edge of a span that is not at fault, where these are the spans of the edges
/// before it.
#[tactic(auto, using(crate::proofs::SpanTable::bad_nowhere))]
fn free_edge(
    version: Version,
    topo: &Topology,
    found: &[Option<EdgeSpan>],
    span: EdgeSpan,
) -> Option<u32>
    requires { length found.now ≡ length topo.now.edges }
    ensures edge { IfSome result (λ e. number_of topo.now span.a span.b ≡ Some e) }
    ensures free { IfSome result (λ e. slice_index_or found.now e None ≡ None) }
    ensures bad { (earlier : List EdgeSpan) → found.now ≡ edge_spans earlier topo.now
        → is_bad_span version topo.now earlier span ≡ is_none result }
{
    let e = topo.edge_between(span.a, span.b)?;
    if is_bad_again(version, found[e as usize], span) {
        None
    } else {
        Some(e)
    }
}

/// No span for any of `edges` edges.
fn no_spans(alloc: Global, edges: usize) -> Result<Vec<Option<EdgeSpan>>, AllocError>
    ensures { IfOk result (λ found. found.items ≡ replicate edges None) }
{
    let mut found = Vec::new(alloc);
    for _edge in 0..edges {
        found.push(None)?;
    }
    Ok(found)
}

/// The span of each edge by the number of the edge, or the first span that is at fault.
#[tactic(auto, using(crate::proofs::Chain::spans))]
fn spans_by_edge(
    alloc: Global,
    text: &PlanText,
    topo: &Topology,
) -> Result<Vec<Option<EdgeSpan>>, PlanFault>
    ensures spans { IfOk result (λ found. found.items ≡ edge_spans text.now.spans topo.now) }
    ensures ok { OnOk result (span_fault text.now.version topo.now 0 [] text.now.spans ≡ None) }
    ensures err { IfErr result (λ e. e ≢ PlanFault.OutOfMemory
        → span_fault text.now.version topo.now 0 [] text.now.spans ≡ Some e) }
{
    let spans = text.spans.as_slice();
    let mut found = no_spans(alloc, topo.edges().len())?;
    for i in 0..spans.len() {
        let span = spans[i];
        let Some(e) = free_edge(text.version, topo, &found, span) else {
            // Each span before this one is that of another edge, so their number is small.
            return Err(PlanFault::Span(i as u32));
        };
        found[e as usize] = Some(span);
    }
    Ok(found)
}

/// The greatest gap between beacons of a node that are not lost, in quanta.
fn beacon_gap(losses: u32, every: u32, tick: u32) -> u128
    ensures value { result ≡ (losses + 1) * every * tick }
    ensures small { result < 2 ^ 97 }
{
    (u128::from(losses) + 1) * u128::from(every) * u128::from(tick)
}

/// The least age that lets beacons come in time, whatever is lost.
fn beacon_bound(text: &PlanText, topo: &Topology, edges: &[EdgeGiven]) -> u128
    requires { edges.now ≡ edges_given text.now topo.now }
    ensures { result ≡ beacon_bound text.now topo.now }
{
    beacon_gap(text.losses, text.every, text.tick) + u128::from(greatest_delay(text, topo, edges))
}

/// Whether the ports of nodes are out of range.
fn are_bad_ports(text: &PlanText, topo: &Topology) -> bool
    ensures { result ≡ are_bad_ports text.now topo.now }
{
    let edges = topo.edges().len() as u64;
    text.port < 1024 || u64::from(text.port) + 2 * edges + u64::from(topo.nodes()) > 65_536
}

/// Whether a kappa is given and too low.
fn is_low_kappa(text: &PlanText, rate: Rate, edge: EdgeGiven) -> bool
    requires { HasNumbers text.now.lo text.now.hi text.now.mu rate }
    ensures { result ≡ is_low_kappa text.now edge }
{
    match edge.kappa {
        Some(kappa) => u128::from(kappa) < least_kappa(text, rate, edge),
        None => false,
    }
}

/// Whether the kappa of a span is too low.
fn is_low_span(text: &PlanText, rate: Rate) -> bool
    requires { HasNumbers text.now.lo text.now.hi text.now.mu rate }
    ensures { result ≡ list_any (λ s. is_low_kappa text.now (span_given s)) text.now.spans }
{
    let spans = text.spans.as_slice();
    spans
        .iter()
        .any(|span| is_low_kappa(text, rate, span_given(span)))
}

/// Whether the plan's kappa or that of a span is too low.
fn are_low_kappas(text: &PlanText, rate: Rate) -> bool
    requires { HasNumbers text.now.lo text.now.hi text.now.mu rate }
    ensures { result ≡ are_low_kappas text.now }
{
    is_low_kappa(text, rate, own_given(text)) || is_low_span(text, rate)
}

/// Whether the bounds reach the end of clocks.
fn is_wide(text: &PlanText, rate: Rate, topo: &Topology, edges: &[EdgeGiven]) -> bool
    requires rate { HasNumbers text.now.lo text.now.hi text.now.mu rate }
    requires edges { edges.now ≡ edges_given text.now topo.now }
    ensures { result ≡ is_wide text.now topo.now }
{
    let kappa = greatest_kappa(text, rate, topo, edges);
    let levels = u128::from(text.levels);
    2 * levels * kappa + global(text, rate, topo, edges) >= u128::from(END)
}

/// What the plan says of its edges, where it has no fault over its graph.
#[tactic(auto, using(crate::proofs::Accepting::accepted_of, crate::proofs::SpanTable::texts_by_span))]
fn checked_edges(
    alloc: Global,
    text: &PlanText,
    rate: Rate,
    topo: &Topology,
) -> Result<Vec<EdgeGiven>, PlanFault>
    requires { HasNumbers text.now.lo text.now.hi text.now.mu rate }
    ensures edges { IfOk result (λ edges. edges.items ≡ edges_given text.now topo.now) }
    ensures ok { OnOk result (fault_over text.now topo.now ≡ None) }
    ensures accepted { OnOk result (IsAccepted text.now topo.now) }
    ensures err { IfErr result (λ e. e ≢ PlanFault.OutOfMemory → fault_over text.now topo.now ≡ Some e) }
{
    refuse(is_outside(1, 65_536, text.tick), PlanFault::Tick)?;
    refuse(
        are_bad_delays(text.delay_min, text.delay_max),
        PlanFault::Delay,
    )?;
    let spans = spans_by_edge(alloc, text, topo)?;
    let edges = edges_given(alloc, text, &spans)?;
    refuse(is_outside(1, 1024, text.every), PlanFault::Every)?;
    refuse(text.losses > 1024, PlanFault::Losses)?;
    let bound = beacon_bound(text, topo, &edges);
    refuse(u128::from(text.age) < bound, PlanFault::Age)?;
    refuse(is_outside(1, 32, text.levels), PlanFault::Levels)?;
    refuse(are_bad_ports(text, topo), PlanFault::Port)?;
    refuse(rate.q() < 2 * rate.r(), PlanFault::Weak)?;
    refuse(are_low_kappas(text, rate), PlanFault::Kappa)?;
    refuse(is_wide(text, rate, topo, &edges), PlanFault::Wide)?;
    Ok(edges)
}

/// Checks a plan: the numbers of its text against their ranges and against each other, in the order
/// of the variants of `PlanFault`. See `docs/MODEL.md`, "The numbers of a plan".
#[tactic(auto, unfolding(crate::specs::Faults::plan_fault))]
pub fn check(alloc: Global, text: &PlanText) -> Result<Plan, PlanFault>
    ensures text { IfOk result (λ plan. text_of plan ≡ text.now) }
    ensures ok { OnOk result (plan_fault text.now ≡ None) }
    ensures err { IfErr result (λ e. e ≢ PlanFault.OutOfMemory → plan_fault text.now ≡ Some e) }
{
    let rate = rate_of(text)?;
    let topo = topology_of(alloc, text)?;
    let edges = checked_edges(alloc, text, rate, &topo)?;
    Ok(Plan::of(alloc, text, rate, topo, &edges)?)
}
