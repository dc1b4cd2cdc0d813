ghost use Rattle.std.specs.Prelude.{◌≡◌, ◌≤◌, ℕ, ◌*◌, ◌-◌, ◌<◌, ◌^◌, fold, length, IfOk};
ghost use Rattle.gs_topo.specs.Graph.{Adjacent};
ghost use Rattle.gs_plan.specs.Plans.{graph_of, kappa_of, text_of, weight_of};
ghost use Rattle.gs_level.specs.Peaks.{peak_of};
ghost use Rattle.gs_level.specs.Reports.{peaks_of};
ghost use Rattle.gs_level.specs.inside.Running.{pairs_from, raised};

use crate::peak::{Peak, Peaks};
use gs_plan::Plan;
use gs_skew::global_skew;
use std::alloc::{AllocError, Global};

/// The peak of clocks that are all within their bounds.
const NO_LEAD: Peak = Peak {
    value: 0,
    v: 0,
    w: 0,
};

/// The potential of level `s`: the greatest, over all pairs, of how far one clock is ahead of the other
/// beyond `2*s` times the weight of the pair, in clock units, with the first pair that has it.
/// Where no two clocks differ by more than `2*s` times the least kappa, it is 0 without a look at the
/// pairs.
pub fn potential(plan: &Plan, clocks: &[u64], s: u32) -> Peak
    requires { length clocks.now ≡ (graph_of plan.now).nodes }
    ensures { result ≡ peak_of (weight_of plan.now) clocks.now s }
{
    let least = 2 * u128::from(s) * u128::from(least_kappa(plan));
    if u128::from(global_skew(clocks)) <= least {
        return NO_LEAD;
    }
    peak_over_pairs(plan, clocks, s)
}

/// A number that no kappa of an edge is below: the least of them, where there is an edge.
fn least_kappa(plan: &Plan) -> u64
    ensures { (v w : ℕ) → Adjacent (graph_of plan.now) v w → result ≤ kappa_of plan.now v w }
{
    let mut least = u64::MAX;
    for e in 0..plan.topo().edges().len() as u32 {
        least = least.min(plan.edge(e).kappa);
    }
    least
}

/// The potential of level `s`, by one pass over all pairs.
fn peak_over_pairs(plan: &Plan, clocks: &[u64], s: u32) -> Peak
    requires { length clocks.now ≡ (graph_of plan.now).nodes }
    ensures { result ≡ peak_of (weight_of plan.now) clocks.now s }
{
    let mut best = NO_LEAD;
    for v in 0..plan.topo().nodes() {
        best = best_from(plan, clocks, s, v, best);
    }
    best
}

/// A peak, or that of the pairs of `v` where it is greater.
#[tactic(auto, using(crate::proofs::Pairs::one_more_pair))]
fn best_from(plan: &Plan, clocks: &[u64], s: u32, v: u32, before: Peak) -> Peak
    requires count { length clocks.now ≡ (graph_of plan.now).nodes }
    requires node { v < length clocks.now }
    ensures { result ≡ fold (raised (weight_of plan.now) clocks.now s) before
        (pairs_from (length clocks.now) v) }
{
    let mut best = before;
    for w in 0..plan.topo().nodes() {
        best = better(plan, clocks, s, v, w, best);
    }
    best
}

/// A peak, or that of the pair where it is greater. Most pairs are done with without their weight.
#[tactic(auto, unfolding(crate::specs::inside::Running::raised))]
fn better(plan: &Plan, clocks: &[u64], s: u32, v: u32, w: u32, best: Peak) -> Peak
    requires count { length clocks.now ≡ (graph_of plan.now).nodes }
    requires nodes { (v < length clocks.now) × (w < length clocks.now) }
    ensures { result ≡ raised (weight_of plan.now) clocks.now s best (v, w) }
{
    let lead = clocks[w as usize].saturating_sub(clocks[v as usize]);
    if lead <= best.value {
        return best;
    }
    let value = less(lead, s, plan.weight(v, w));
    if value > best.value {
        Peak { value, v, w }
    } else {
        best
    }
}

/// A lead less `2*s` times a weight, down to 0.
fn less(lead: u64, s: u32, weight: u128) -> u64
    requires { weight < 2 ^ 70 }
    ensures { result ≡ lead - 2 * s * weight }
{
    u128::from(lead).saturating_sub(2 * u128::from(s) * weight) as u64
}

/// The potentials of the plan's levels.
pub(crate) fn peaks(alloc: Global, plan: &Plan, clocks: &[u64]) -> Result<Peaks, AllocError>
    requires { length clocks.now ≡ (graph_of plan.now).nodes }
    ensures { IfOk result
        (λ peaks. peaks ≡ peaks_of (text_of plan.now) (graph_of plan.now) clocks.now (text_of plan.now).levels) }
{
    let last = plan.text().levels;
    let mut peaks = Vec::new(alloc);
    for s in 0..last {
        peaks.push(potential(plan, clocks, s))?;
    }
    peaks.push(potential(plan, clocks, last))?;
    Ok(Peaks::from_vec(peaks))
}
