ghost use Rattle.std.specs.Prelude.{◌≡◌, ◌<◌, ◌^◌, ◌*◌, All, IfOk, map};
ghost use Rattle.gs_units.specs.Rates.{HasNumbers};
ghost use Rattle.gs_plan.specs.inside.Kept.{AreWords};
ghost use Rattle.gs_plan.specs.Numbers.{delta_in, drift_in, iota_in, jump_in, kappa_in, least_kappa_in, numbers_in, spread_in};

use crate::edge::{EdgeGiven, EdgeNumbers};
use gs_planfile::PlanText;
use gs_units::Rate;
use std::alloc::{AllocError, Global};

// The numbers of a text whose rate was accepted, before its bounds were: integers of 128 bits hold
// them, since `lo` and `hi` are at most 2^30 and all other numbers of a text are below 2^32, but for
// a given kappa, which is below 2^64. `small` says how far each comes.

/// How far two logical clocks may drift apart in one quantum.
pub(crate) fn drift(text: &PlanText, rate: Rate) -> u128
    requires { HasNumbers text.now.lo text.now.hi text.now.mu rate }
    ensures value { result ≡ drift_in text.now }
    ensures small { result < 2 ^ 31 }
{
    u128::from(rate.top() - u64::from(rate.lo()))
}

/// How far ahead the maximum has to be for a node to be fast by itself.
pub(crate) fn iota(text: &PlanText, rate: Rate) -> u128
    requires { HasNumbers text.now.lo text.now.hi text.now.mu rate }
    ensures value { result ≡ iota_in text.now }
    ensures small { result < 2 ^ 64 }
{
    drift(text, rate) * u128::from(text.tick) + 1
}

/// How far the delays of an edge spread, in clock units.
pub(crate) fn spread(text: &PlanText, edge: EdgeGiven) -> u128
    ensures value { result ≡ spread_in text.now edge }
    ensures small { result < 2 ^ 64 }
{
    u128::from(text.lo) * u128::from(edge.delay_max.saturating_sub(edge.delay_min))
}

/// What a beacon's maximum is raised by for its way.
fn jump(text: &PlanText, edge: EdgeGiven) -> u64
    ensures value { result ≡ jump_in text.now edge }
{
    u64::from(text.lo) * u64::from(edge.delay_min)
}

/// How far an offset may be off when it is used.
fn delta(text: &PlanText, rate: Rate, edge: EdgeGiven) -> u128
    requires { HasNumbers text.now.lo text.now.hi text.now.mu rate }
    ensures value { result ≡ delta_in text.now edge }
    ensures small { result < 2 ^ 66 }
{
    drift(text, rate) * (u128::from(text.age) + u128::from(text.tick))
        + spread(text, edge).div_ceil(2)
}

/// The least kappa that an edge may have.
pub(crate) fn least_kappa(text: &PlanText, rate: Rate, edge: EdgeGiven) -> u128
    requires { HasNumbers text.now.lo text.now.hi text.now.mu rate }
    ensures value { result ≡ least_kappa_in text.now edge }
    ensures small { result < 2 ^ 68 }
{
    2 * delta(text, rate, edge) + 1
}

/// The skew that one level allows at an edge.
pub(crate) fn kappa(text: &PlanText, rate: Rate, edge: EdgeGiven) -> u128
    requires { HasNumbers text.now.lo text.now.hi text.now.mu rate }
    ensures value { result ≡ kappa_in text.now edge }
    ensures small { result < 2 ^ 68 }
{
    match edge.kappa {
        Some(kappa) => u128::from(kappa),
        None => least_kappa(text, rate, edge),
    }
}

/// All numbers of an edge whose kappa is not too low and not too great.
pub(crate) fn edge_numbers(text: &PlanText, rate: Rate, edge: EdgeGiven) -> EdgeNumbers
    requires rate { HasNumbers text.now.lo text.now.hi text.now.mu rate }
    requires words { AreWords text.now edge }
    ensures { result ≡ numbers_in text.now edge }
{
    EdgeNumbers {
        delay_min: edge.delay_min,
        delay_max: edge.delay_max,
        kappa: kappa(text, rate, edge) as u64,
        delta: delta(text, rate, edge) as u64,
        comp: (u128::from(jump(text, edge)) + spread(text, edge) / 2) as u64,
        jump: jump(text, edge),
    }
}

/// The numbers of these edges.
pub(crate) fn all_numbers(
    alloc: Global,
    text: &PlanText,
    rate: Rate,
    edges: &[EdgeGiven],
) -> Result<Vec<EdgeNumbers>, AllocError>
    requires rate { HasNumbers text.now.lo text.now.hi text.now.mu rate }
    requires words { All (AreWords text.now) edges.now }
    ensures { IfOk result (λ numbers. numbers.items ≡ map (numbers_in text.now) edges.now) }
{
    let mut numbers = Vec::new(alloc);
    for edge in edges {
        numbers.push(edge_numbers(text, rate, *edge))?;
    }
    Ok(numbers)
}

/// The kappas of these edges.
pub(crate) fn kappas(alloc: Global, edges: &[EdgeNumbers]) -> Result<Vec<u64>, AllocError>
    ensures { IfOk result (λ kappas. kappas.items ≡ map (λ n. n.kappa) edges.now) }
{
    let mut kappas = Vec::new(alloc);
    for edge in edges {
        kappas.push(edge.kappa)?;
    }
    Ok(kappas)
}
