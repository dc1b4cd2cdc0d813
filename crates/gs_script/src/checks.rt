ghost use Rattle.std.specs.Prelude.{◌&&◌, ◌≡◌, ◌≤◌, ◌<◌, IfOk, false};
ghost use Rattle.std.specs.List.{list_any};
ghost use Rattle.gs_plan.specs.Plans.{text_of};
ghost use Rattle.gs_script.specs.Checks.{delay_in, edge_in, flag_in, is_bad_delay, is_delay_outside, is_large};
ghost use Rattle.gs_script.specs.Checks.{may_be_joined, meets, quanta_in, span_in, value_within, who_in};
ghost use Rattle.gs_script.specs.inside.Kept.{IsKnown, IsSpan, links_of};

use crate::fault::ScriptFault;
use crate::fields::{NodeField, require};
use crate::line::{Span, Who};
use crate::links::{Link, graph};
use gs_plan::Plan;

/// The most quanta of a script.
const MAX_SCRIPT_QUANTA: u64 = 1_048_576;

/// The most work of a script: its quanta times the nodes and edges of the plan.
const MAX_WORK: u128 = 67_108_864;

/// Whether these are too many quanta, for the plan or at all.
fn is_large(plan: &Plan, quanta: u64) -> bool
    ensures { result ≡ is_large (text_of plan.now) quanta }
{
    let graph = graph(plan);
    let size = u128::from(graph.nodes()) + graph.edges().len() as u128;
    quanta > MAX_SCRIPT_QUANTA || u128::from(quanta) * size > MAX_WORK
}

/// A count of quanta, within the limits.
pub(crate) fn quanta_in(plan: &Plan, quanta: u64) -> Result<u32, ScriptFault>
    ensures value { result ≡ quanta_in (text_of plan.now) quanta }
    ensures fits { IfOk result (λ n. is_large (text_of plan.now) n ≡ false) }
{
    if is_large(plan, quanta) {
        Err(ScriptFault::Large)
    } else {
        Ok(quanta as u32)
    }
}

/// A node of the plan, or the star.
pub(crate) fn who_in(plan: &Plan, k: u32, node: NodeField) -> Result<Who, ScriptFault>
    ensures value { result ≡ who_in (text_of plan.now) k node }
    ensures known { IfOk result (IsKnown (text_of plan.now)) }
{
    match node {
        NodeField::Star => Ok(Who::Every),
        NodeField::Number(v) => {
            if v < u64::from(graph(plan).nodes()) {
                Ok(Who::One(v as u32))
            } else {
                Err(ScriptFault::Node(k))
            }
        }
    }
}

fn may_be_joined(plan: &Plan, v: Who, w: Who) -> bool
    requires first { IsKnown (text_of plan.now) v }
    requires second { IsKnown (text_of plan.now) w }
    ensures { result ≡ may_be_joined (text_of plan.now) v w }
{
    match (v, w) {
        (Who::One(v), Who::One(w)) => graph(plan).adjacent(v, w),
        _ => true,
    }
}

/// Refuses two nodes that no edge joins.
pub(crate) fn edge_in(plan: &Plan, k: u32, v: Who, w: Who) -> Result<(), ScriptFault>
    requires first { IsKnown (text_of plan.now) v }
    requires second { IsKnown (text_of plan.now) w }
    ensures { result ≡ edge_in (text_of plan.now) k v w }
{
    require(may_be_joined(plan, v, w), ScriptFault::Edge(k))
}

/// A span within the quanta of the script.
pub(crate) fn span_in(quanta: u32, k: u32, from: u64, to: u64) -> Result<Span, ScriptFault>
    ensures value { result ≡ span_in quanta k from to }
    ensures span { IfOk result IsSpan }
{
    if from == 0 || to < from || u64::from(quanta) < to {
        Err(ScriptFault::Span(k))
    } else {
        Ok(Span {
            from: from as u32,
            to: to as u32,
        })
    }
}

/// A value within `low` to `high`.
pub(crate) fn value_within(low: u32, high: u32, k: u32, x: u64) -> Result<u32, ScriptFault>
    ensures value { result ≡ value_within low high k x }
    ensures low { IfOk result (λ y. low ≤ y) }
    ensures high { IfOk result (λ y. y ≤ high) }
{
    if x < u64::from(low) || u64::from(high) < x {
        Err(ScriptFault::Bound(k))
    } else {
        Ok(x as u32)
    }
}

/// A flag, which is 0 or 1.
pub(crate) fn flag_in(k: u32, x: u64) -> Result<bool, ScriptFault>
    ensures { result ≡ flag_in k x }
{
    match x {
        0 => Ok(false),
        1 => Ok(true),
        _ => Err(ScriptFault::Bound(k)),
    }
}

fn is_bad_delay(delay_min: u32, delay_max: u32, delay: u64) -> bool
    ensures { result ≡ is_bad_delay delay_min delay_max delay }
{
    delay < u64::from(delay_min.max(1)) || u64::from(delay_max) < delay
}

impl Link {
    fn meets(self, v: Who, w: Who) -> bool
        ensures { result ≡ meets v w (self.a, self.b) }
    {
        (v.is_for(self.a) && w.is_for(self.b)) || (v.is_for(self.b) && w.is_for(self.a))
    }

    fn is_bad(self, delay: u64) -> bool
        ensures { result ≡ is_bad_delay self.delay_min self.delay_max delay }
    {
        is_bad_delay(self.delay_min, self.delay_max, delay)
    }
}

fn is_any_met(links: &[Link], v: Who, w: Who) -> bool
    ensures { result ≡ list_any (λ l. meets v w (l.a, l.b)) links.now }
{
    links.iter().any(|link| link.meets(v, w))
}

fn is_any_bad(links: &[Link], v: Who, w: Who, delay: u64) -> bool
    ensures { result ≡ list_any (λ l. meets v w (l.a, l.b) && is_bad_delay l.delay_min l.delay_max delay) links.now }
{
    links
        .iter()
        .any(|link| link.meets(v, w) && link.is_bad(delay))
}

/// Whether a delay between two nodes is out of the range of their edge or, where no edge joins them, of
/// the plan's own.
#[tactic(auto, using(crate::proofs::Between::between))]
fn is_outside_between(plan: &Plan, v: u32, w: u32, delay: u64) -> bool
    ensures { result ≡ is_delay_outside (text_of plan.now) (Who.One v) (Who.One w) delay }
{
    match graph(plan).edge_between(v, w) {
        Some(e) => {
            let numbers = plan.edge(e);
            is_bad_delay(numbers.delay_min, numbers.delay_max, delay)
        }
        None => is_bad_delay(plan.text().delay_min, plan.text().delay_max, delay),
    }
}

/// Whether a delay is out of the range of an edge that is met or, where none is met, of the plan's own.
#[tactic(auto, using(crate::proofs::Edges::ranges))]
fn is_outside_over(plan: &Plan, links: &[Link], v: Who, w: Who, delay: u64) -> bool
    requires { links.now ≡ links_of (text_of plan.now) }
    ensures { result ≡ is_delay_outside (text_of plan.now) v w delay }
{
    let text = plan.text();
    if is_any_met(links, v, w) {
        is_any_bad(links, v, w, delay)
    } else {
        is_bad_delay(text.delay_min, text.delay_max, delay)
    }
}

/// The same, where two nodes are looked up by their edge.
fn is_delay_outside(plan: &Plan, links: &[Link], v: Who, w: Who, delay: u64) -> bool
    requires { links.now ≡ links_of (text_of plan.now) }
    ensures { result ≡ is_delay_outside (text_of plan.now) v w delay }
{
    match (v, w) {
        (Who::One(v), Who::One(w)) => is_outside_between(plan, v, w, delay),
        _ => is_outside_over(plan, links, v, w, delay),
    }
}

/// A delay in its range.
pub(crate) fn delay_in(
    plan: &Plan,
    links: &[Link],
    k: u32,
    v: Who,
    w: Who,
    delay: u64,
) -> Result<u32, ScriptFault>
    requires { links.now ≡ links_of (text_of plan.now) }
    ensures value { result ≡ delay_in (text_of plan.now) k v w delay }
    ensures fits { IfOk result (λ d. is_delay_outside (text_of plan.now) v w d ≡ false) }
{
    if is_delay_outside(plan, links, v, w, delay) {
        Err(ScriptFault::Bound(k))
    } else {
        Ok(delay as u32)
    }
}
