ghost use Rattle.std.specs.Prelude.{◌≡◌, ◌+◌, ◌-◌, ◌*◌, ◌<◌, ◌≤◌, ◌^◌, max, IfOk};
ghost use Rattle.std.specs.Int.{div_ceil};
ghost use Rattle.gs_units.specs.Rates.{drift_of};
ghost use Rattle.gs_plan.specs.Plans.{rate_of};
ghost use Rattle.gs_run.specs.Nets.{net_of};
ghost use Rattle.gs_settle.specs.Times.{heard_time, level_time, times_of};

use gs_plan::Plan;
use std::alloc::{AllocError, Global};

/// From this quantum on all that nodes decide by was really heard.
fn heard_time(plan: &Plan) -> u128
    ensures value { result ≡ heard_time (net_of plan.now) }
    ensures small { result < 2 ^ 66 }
{
    let text = plan.text();
    let hops = u128::from(plan.topo().diameter().max(1));
    hops * u128::from(text.age) + 2 * u128::from(text.tick) + 1
}

/// How far two clocks may be apart by then, from clocks that differ by at most `gamma`.
fn apart_by(plan: &Plan, gamma: u64, heard: u128) -> u128
    requires { heard < 2 ^ 66 }
    ensures value { result ≡ gamma + drift_of (rate_of plan.now) * heard }
    ensures small { result < 2 ^ 109 }
{
    let rate = plan.rate();
    let drift = u128::from(rate.top() - u64::from(rate.lo()));
    u128::from(gamma) + drift * heard
}

/// How many quanta it takes from `apart` down to `within`, by this in each.
fn caught_up(apart: u128, within: u64, fall: u64) -> u128
    requires { 0 < fall }
    ensures value { result ≡ div_ceil (apart - within) fall }
    ensures small { result ≤ apart }
{
    apart
        .saturating_sub(u128::from(within))
        .div_ceil(u128::from(fall))
}

/// From this quantum on all clocks are within `G(0)`, from clocks that differ by at most `gamma`.
fn first_time(plan: &Plan, gamma: u64) -> u128
    ensures value { result ≡ level_time (net_of plan.now) gamma 0 }
    ensures small { result < 2 ^ 110 }
{
    let rate = plan.rate();
    let heard = heard_time(plan);
    heard
        + caught_up(
            apart_by(plan, gamma, heard),
            plan.g_level(0),
            rate.q() - rate.r(),
        )
}

/// The quanta from which each level of the plan holds, from clocks that differ by at most `gamma`, in clock
/// units: see [`runs_settle`].
///
/// [`runs_settle`]: crate::runs_settle
pub fn times(alloc: Global, plan: &Plan, gamma: u64) -> Result<Vec<u128>, AllocError>
    ensures { IfOk result (λ times. times.items ≡ times_of plan.now gamma) }
{
    let rate = plan.rate();
    let mut at = first_time(plan, gamma);
    let mut times = Vec::new(alloc);
    times.push(at)?;
    for s in 0..plan.text().levels {
        at += u128::from(plan.g_level(s).div_ceil(rate.q()));
        times.push(at)?;
    }
    Ok(times)
}
