ghost use Rattle.std.specs.Prelude.{◌≡◌, ◌+◌, ◌*◌, ◌<◌, ◌≤◌, ◌^◌, All, IfErr, IfOk, None, length, replicate};
ghost use Rattle.gs_plan.specs.Plans.{graph_of, text_of};
ghost use Rattle.gs_calendar.specs.Scripts.{breach_of_script};
ghost use Rattle.gs_calendar.specs.Stops.{StopsAt};
ghost use Rattle.gs_settle.specs.Plays.{AreInTime, PlaySettles, fast_from_gamma, first_clock, first_clocks};
ghost use Rattle.gs_settle.specs.Plays.{last_upto, rows_from_gamma};
ghost use Rattle.gs_settle.specs.inside.Running.{AreMarked, marked};
ghost use Rattle.gs_settle.specs.Times.{times_of};

use crate::timing::times;
use gs_calendar::PlayStop;
use gs_level::potential;
use gs_plan::Plan;
use gs_rows::Rows;
use gs_script::Script;
use std::alloc::{AllocError, Global};

/// How a play from unequal clocks settled.
#[derive(Drop)]
pub struct Settled {
    /// The quantum from which each level holds, which is known beforehand.
    pub times: Vec<u128>,
    /// The last quantum at whose end each level was above its bound, if there was one; the start counts as
    /// quantum 0.
    pub last: Vec<Option<u32>>,
    /// How many nodes took a quantum in fast mode, summed over all quanta.
    pub fast: u64,
}

/// The clock of node `v` at the start.
fn first_clock(gamma: u64, nodes: u32, v: u32) -> u64
    requires { v < nodes }
    ensures value { result ≡ first_clock gamma nodes v }
    ensures within { result ≤ gamma }
{
    let clock = u128::from(gamma) * u128::from(v) / u128::from((nodes - 1).max(1));
    clock as u64
}

/// The clocks of all nodes at the start: from 0 to `gamma`, in even steps.
fn first_clocks(alloc: Global, gamma: u64, nodes: u32) -> Result<Vec<u64>, AllocError>
    ensures value { IfOk result (λ clocks. clocks.items ≡ first_clocks gamma nodes) }
    ensures within { IfOk result (λ clocks. All (λ clock. clock ≤ gamma) clocks.items) }
{
    let mut clocks = Vec::new(alloc);
    for v in 0..nodes {
        clocks.push(first_clock(gamma, nodes, v))?;
    }
    Ok(clocks)
}

/// The last quantum at whose end level `s` was above its bound, with quantum `t`, at whose end these are
/// the clocks.
fn marked(plan: &Plan, clocks: &[u64], t: u32, s: u32, last: Option<u32>) -> Option<u32>
    requires level { s ≤ (text_of plan.now).levels }
    requires one_each { length clocks.now ≡ (graph_of plan.now).nodes }
    ensures { result ≡ marked plan.now clocks.now t s last }
{
    if potential(plan, clocks, s).value > plan.g_level(s) {
        Some(t)
    } else {
        last
    }
}

/// The same for all levels.
fn mark(plan: &Plan, levels: u32, clocks: &[u64], t: u32, last: &mut [Option<u32>])
    requires levels { levels ≡ (text_of plan.now).levels + 1 }
    requires one_each { length clocks.now ≡ (graph_of plan.now).nodes }
    requires last { length last.old ≡ levels }
    ensures { AreMarked plan.now clocks.now t last.old last.new }
{
    for s in 0..levels {
        last[s as usize] = marked(plan, clocks, t, s, last[s as usize]);
    }
}

/// A place for each of `levels` levels.
fn no_marks(alloc: Global, levels: u32) -> Result<Vec<Option<u32>>, AllocError>
    ensures { IfOk result (λ none. none.items ≡ replicate levels None) }
{
    let none = vec![in alloc; None; levels as usize]?;
    Ok(none)
}

/// The sum of the nodes in fast mode, with those of quantum `t`.
fn with_fast(fast: u64, t: u32, more: u32) -> u64
    requires { fast + 2 ^ 32 ≤ 2 ^ 32 * t }
    ensures value { result ≡ fast + more }
    ensures small { result ≤ 2 ^ 32 * t }
{
    fast + u64::from(more)
}

/// A play of a script from clocks that differ by `gamma` clock units at most: node v starts at reading 0 and
/// clock `gamma*v` over the greatest node, rounded down. Each level holds from its time on: see [`runs_settle`].
/// It stops at the script's first breach. The script was read for the plan.
///
/// [`runs_settle`]: crate::runs_settle
pub fn settle(alloc: Global, plan: &Plan, script: &Script, gamma: u64) -> Result<Settled, PlayStop>
    requires script { script.now.text ≡ text_of plan.now }
    requires gamma { gamma ≤ 2 ^ 61 }
    ensures times { IfOk result (λ settled. settled.times.items ≡ times_of plan.now gamma) }
    ensures last { IfOk result (λ settled. settled.last.items
        ≡ last_upto plan.now (rows_from_gamma plan.now script.now gamma) script.now.quanta) }
    ensures settles { IfOk result (λ settled. PlaySettles plan.now script.now gamma) }
    ensures in_time { IfOk result (λ settled. AreInTime plan.now gamma settled.last.items) }
    ensures fast { IfOk result (λ settled. settled.fast ≡ fast_from_gamma plan.now script.now gamma) }
    ensures no_breach { IfOk result (λ settled. breach_of_script plan.now script.now ≡ None) }
    ensures stop { IfErr result (StopsAt (breach_of_script plan.now script.now)) }
{
    let levels = plan.text().levels + 1;
    let times = times(alloc, plan, gamma)?;
    let clocks = first_clocks(alloc, gamma, plan.topo().nodes())?;
    let mut last = no_marks(alloc, levels)?;
    let mut rows = Rows::start_each(alloc, plan, script, clocks)?;
    let mut fast = 0;
    mark(plan, levels, rows.clocks(), 0, &mut last);
    while rows.next(alloc)? {
        let t = rows.quanta();
        mark(plan, levels, rows.clocks(), t, &mut last);
        fast = with_fast(fast, t, rows.fast());
    }
    Ok(Settled { times, last, fast })
}
