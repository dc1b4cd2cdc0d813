ghost use Rattle.std.specs.Prelude.{◌≡◌};
ghost use Rattle.gs_plan.specs.Plans.{text_of};

use gs_order::{Pending, Timed, begin, commit_waits_order_events, finish, order_run};
use gs_plan::{Plan, check};
use gs_planfile::base;
use gs_script::Script;
use std::alloc::Global;

/// Whether a play with an event every 10 quanta has these.
fn has_events(alloc: Global, plan: &Plan, script: &Script, wanted: &[Timed]) -> bool
    requires { script.now.text ≡ text_of plan.now }
{
    match order_run(alloc, plan, script, 10) {
        Ok(events) => events.as_slice() == wanted,
        Err(_) => false,
    }
}

/// A steady play of two nodes over 30 quanta with an event every 10: the first finishes as soon as its
/// clock is above 100000 + 103125.
#[test]
fn events_wait_for_the_global_bound(rt: HostRuntime) {
    let alloc = rt.alloc();
    let Ok(plan) = check(alloc, &base(alloc, 2)) else {
        panic!(rt; "the plan is refused");
    };
    let Ok(script) = Script::steady(alloc, 30, &plan) else {
        panic!(rt; "the script is refused");
    };
    let wanted = [
        Timed {
            node: 0,
            begun: 10,
            stamp: 100_000,
            finished: Some(21),
        },
        Timed {
            node: 1,
            begun: 20,
            stamp: 200_000,
            finished: None,
        },
        Timed {
            node: 0,
            begun: 30,
            stamp: 300_000,
            finished: None,
        },
    ];
    assert!(rt; has_events(alloc, &plan, &script, &wanted));
    commit_waits_order_events();
}

/// Whether an event that began at 100000 is handed back at the last clock of its wait, and is finished at
/// the next.
fn waits(plan: &Plan) -> bool {
    let pending = begin(100_000);
    let early = finish(plan, pending, 203_125);
    let done = finish(plan, pending, 203_126);
    early == Err(Pending { stamp: 100_000 }) && done == Ok(100_000)
}

#[test]
fn wait_is_over_above_the_bound(rt: HostRuntime) {
    let alloc = rt.alloc();
    match check(alloc, &base(alloc, 2)) {
        Ok(plan) => assert!(rt; waits(&plan)),
        Err(_) => panic!(rt; "the plan is refused"),
    }
}
