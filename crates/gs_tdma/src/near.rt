ghost use Rattle.std.specs.Prelude.{◌≡◌, ◌≤◌, ◌<◌, ◌^◌};
ghost use Rattle.gs_plan.specs.Plans.{text_of};
ghost use Rattle.gs_tdma.specs.Near.{bound_over, guard_in, near_in};

use gs_plan::Plan;

/// The bound of level `s` for two nodes that are at most `reach` steps apart, in clock units.
fn bound_over(plan: &Plan, reach: u32, s: u32) -> u128
    requires { s ≤ (text_of plan.now).levels }
    ensures { result ≡ bound_over plan.now reach s }
{
    let kappas = u128::from(reach) * u128::from(plan.greatest_kappa());
    2 * u128::from(s) * kappas + u128::from(plan.g_level(s))
}

/// How far the clocks of two nodes that are at most `reach` steps apart may differ: the least bound of the
/// plan's levels, in clock units.
fn near(plan: &Plan, reach: u32) -> u64
    ensures { result ≡ near_in plan.now reach }
{
    let mut near = plan.g_level(0);
    for below in 0..plan.text().levels {
        let bound = bound_over(plan, reach, below + 1);
        if bound < u128::from(near) {
            near = bound as u64;
        }
    }
    near
}

/// Half of that, rounded up.
pub(crate) fn guard(plan: &Plan, reach: u32) -> u64
    ensures value { result ≡ guard_in plan.now reach }
    ensures small { result ≤ 2 ^ 63 }
{
    near(plan, reach).div_ceil(2)
}
