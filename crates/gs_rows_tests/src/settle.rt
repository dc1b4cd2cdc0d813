ghost use Rattle.std.specs.Prelude.{◌≡◌, ◌≤◌, ◌^◌};
ghost use Rattle.gs_plan.specs.Plans.{text_of};

use gs_plan::{Plan, check};
use gs_planfile::base;
use gs_script::Script;
use gs_settle::{runs_settle, settle, times};
use std::alloc::Global;

/// The times at which the five levels of two nodes settle that are 1000000 apart.
const APART: [u128; 5] = [48_527, 53_684, 53_942, 53_955, 53_956];

/// The same from equal clocks.
const EQUAL: [u128; 5] = [613, 5_770, 6_028, 6_041, 6_042];

/// The same where the clocks are as far apart as they may be.
const FARTHEST: [u128; 5] = [
    121_360_158_379_663_998,
    121_360_158_379_669_155,
    121_360_158_379_669_413,
    121_360_158_379_669_426,
    121_360_158_379_669_427,
];

/// Whether the levels settle at these times.
fn times_are(alloc: Global, plan: &Plan, gamma: u64, wanted: [u128; 5]) -> bool {
    match times(alloc, plan, gamma) {
        Ok(times) => times.as_slice() == wanted.as_slice(),
        Err(_) => false,
    }
}

/// Whether a play has these times, with each of the five levels above its bound at this quantum last, and
/// so many quanta of nodes in fast mode.
fn settles(
    alloc: Global,
    plan: &Plan,
    script: &Script,
    gamma: u64,
    times: [u128; 5],
    last: Option<u32>,
    fast: u64,
) -> bool
    requires script { script.now.text ≡ text_of plan.now }
    requires gamma { gamma ≤ 2 ^ 61 }
{
    let Ok(settled) = settle(alloc, plan, script, gamma) else {
        return false;
    };
    settled.times.as_slice() == times.as_slice()
        && settled.last.as_slice() == [last; 5].as_slice()
        && settled.fast == fast
}

/// The same of a play of so many quanta without a drift.
fn steady_settles(
    alloc: Global,
    plan: &Plan,
    quanta: u64,
    gamma: u64,
    times: [u128; 5],
    last: Option<u32>,
    fast: u64,
) -> bool
    requires { gamma ≤ 2 ^ 61 }
{
    match Script::steady(alloc, quanta, plan) {
        Ok(script) => settles(alloc, plan, &script, gamma, times, last, fast),
        Err(_) => false,
    }
}

/// The start counts as quantum 0, and from equal clocks no level is above its bound. The node that is far
/// behind is in fast mode from where it first hears of the other.
#[test]
fn levels_settle_one_after_another(rt: HostRuntime) {
    let alloc = rt.alloc();
    let Ok(plan) = check(alloc, &base(alloc, 2)) else {
        panic!(rt; "the plan is refused");
    };
    let far = 2_305_843_009_213_693_952;
    assert!(rt; times_are(alloc, &plan, 1_000_000, APART));
    assert!(rt; steady_settles(alloc, &plan, 0, 1_000_000, APART, Some(0), 0));
    assert!(rt; steady_settles(alloc, &plan, 0, 0, EQUAL, None, 0));
    assert!(rt; steady_settles(alloc, &plan, 3_000, far, FARTHEST, Some(3_000), 2_800));
    runs_settle();
}
