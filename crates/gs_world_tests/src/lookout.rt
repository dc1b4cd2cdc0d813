ghost use Rattle.std.specs.Prelude.{◌≡◌, ◌-◌, ◌<◌, ◌^◌, List, ℕ, length};
ghost use Rattle.gs_plan.specs.Plans.{graph_of};
ghost use Rattle.gs_level.specs.Tallies.{rows_in};
ghost use Rattle.gs_lookout.specs.Lookouts.{IsLookout};

use gs_level::Tally;
use gs_lookout::Lookout;
use gs_plan::{Plan, check};
use gs_planfile::base;
use std::test::Fail;

/// One more row of the same clocks.
fn stays(lookout: &mut Lookout, plan: &Plan, clocks: &[u64])
    requires count { length clocks.now ≡ (graph_of plan.now).nodes }
    requires room { rows_in lookout.old.tally < 2 ^ 32 - 1 }
    requires row { (before : List (List ℕ)) × IsLookout (graph_of plan.now) before clocks.now lookout.old }
{
    lookout.add(plan, clocks, 0);
}

#[test]
fn a_row_that_stays_is_counted(rt: HostRuntime) -> Result<(), Fail> {
    let alloc = rt.alloc();
    let plan = check(alloc, &base(alloc, 3)).map_err(|_| "the plan is refused")?;
    let clocks = [10, 12, 17];
    if plan.topo().nodes() != 3 {
        return Err("not three nodes")?;
    }
    let mut lookout = Lookout::new(&plan, &clocks);
    stays(&mut lookout, &plan, &clocks);
    let mut tally = Tally::new(&plan, &clocks);
    tally.add(&plan, &clocks);
    assert!(rt; *lookout.tally() == tally);
    assert!(rt; tally.global() == 7 && tally.near() == 5);
    Ok(())
}
