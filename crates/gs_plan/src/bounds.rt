ghost use Rattle.std.specs.Prelude.{◌≡◌, ◌<◌, ◌^◌};
ghost use Rattle.gs_units.specs.Rates.{HasNumbers};
ghost use Rattle.gs_plan.specs.Bounds.{greatest_delay_in, global_in, greatest_kappa_in, lambda_in, greatest_spread_in};
ghost use Rattle.gs_plan.specs.Edges.{edges_given, own_given};

use crate::edge::{EdgeGiven, own_given};
use crate::numbers::{iota, kappa, spread};
use gs_planfile::PlanText;
use gs_topo::Topology;
use gs_units::Rate;

/// The greatest delay of the plan and its edges.
pub(crate) fn greatest_delay(text: &PlanText, topo: &Topology, edges: &[EdgeGiven]) -> u32
    requires { edges.now ≡ edges_given text.now topo.now }
    ensures { result ≡ greatest_delay_in text.now topo.now }
{
    let mut most = own_given(text).delay_max;
    for edge in edges {
        most = most.max(edge.delay_max);
    }
    most
}

/// The greatest spread of the delays of the plan and its edges.
pub(crate) fn greatest_spread(text: &PlanText, topo: &Topology, edges: &[EdgeGiven]) -> u128
    requires { edges.now ≡ edges_given text.now topo.now }
    ensures value { result ≡ greatest_spread_in text.now topo.now }
    ensures small { result < 2 ^ 64 }
{
    let mut most = spread(text, own_given(text));
    for edge in edges {
        most = most.max(spread(text, *edge));
    }
    most
}

/// The greatest kappa of the plan and its edges.
pub(crate) fn greatest_kappa(
    text: &PlanText,
    rate: Rate,
    topo: &Topology,
    edges: &[EdgeGiven],
) -> u128
    requires rate { HasNumbers text.now.lo text.now.hi text.now.mu rate }
    requires edges { edges.now ≡ edges_given text.now topo.now }
    ensures value { result ≡ greatest_kappa_in text.now topo.now }
    ensures small { result < 2 ^ 68 }
{
    let mut most = kappa(text, rate, own_given(text));
    for edge in edges {
        most = most.max(kappa(text, rate, *edge));
    }
    most
}

/// How far a maximum may lag behind the greatest clock.
pub(crate) fn lambda(text: &PlanText, rate: Rate, topo: &Topology, edges: &[EdgeGiven]) -> u128
    requires rate { HasNumbers text.now.lo text.now.hi text.now.mu rate }
    requires edges { edges.now ≡ edges_given text.now topo.now }
    ensures value { result ≡ lambda_in text.now topo.now }
    ensures small { result < 2 ^ 98 }
{
    let lag = u128::from(u64::from(rate.hi()) - rate.g()) * u128::from(text.age);
    u128::from(topo.diameter()) * (lag + greatest_spread(text, topo, edges))
}

/// The bound of the difference of any two clocks.
pub(crate) fn global(text: &PlanText, rate: Rate, topo: &Topology, edges: &[EdgeGiven]) -> u128
    requires rate { HasNumbers text.now.lo text.now.hi text.now.mu rate }
    requires edges { edges.now ≡ edges_given text.now topo.now }
    ensures value { result ≡ global_in text.now topo.now }
    ensures small { result < 2 ^ 99 }
{
    lambda(text, rate, topo, edges)
        + iota(text, rate)
        + u128::from(rate.r()) * u128::from(text.tick)
}
