ghost use Rattle.std.specs.Prelude.{◌≡◌};
ghost use Rattle.gs_plan.specs.Plans.{text_of};

use gs_plan::{Plan, check};
use gs_planfile::base;
use gs_rows::{Rows, rows_are_reported, rows_are_steady};
use gs_script::Script;
use std::alloc::Global;

/// Whether a play of one quantum on two nodes is taken on once, and then it is over.
fn is_taken_on_once(alloc: Global, plan: &Plan, script: &Script) -> bool
    requires { script.now.text ≡ text_of plan.now }
{
    let Ok(mut rows) = Rows::start(alloc, plan, script) else {
        return false;
    };
    let went_on = rows.next(alloc) == Ok(true);
    let has_row = rows.quanta() == 1 && rows.fast() == 0;
    let has_clocks = rows.clocks() == [10_000, 10_000].as_slice();
    went_on && has_row && has_clocks && rows.next(alloc) == Ok(false)
}

/// Whether a play of two nodes starts from clocks that are apart.
fn starts_apart(alloc: Global, plan: &Plan, script: &Script) -> bool
    requires { script.now.text ≡ text_of plan.now }
{
    let Ok(clocks) = Vec::from_array(alloc, [0, 1_000_000]) else {
        return false;
    };
    if plan.topo().nodes() != 2 {
        return false;
    }
    match Rows::start_each(alloc, plan, script, clocks) {
        Ok(rows) => rows.clocks() == [0, 1_000_000].as_slice(),
        Err(_) => false,
    }
}

#[test]
fn a_play_goes_on_quantum_by_quantum_from_any_clocks(rt: HostRuntime) {
    let alloc = rt.alloc();
    let Ok(plan) = check(alloc, &base(alloc, 2)) else {
        panic!(rt; "the plan is refused");
    };
    let Ok(script) = Script::steady(alloc, 1, &plan) else {
        panic!(rt; "the script is refused");
    };
    assert!(rt; is_taken_on_once(alloc, &plan, &script));
    assert!(rt; starts_apart(alloc, &plan, &script));
    rows_are_reported();
    rows_are_steady();
}
