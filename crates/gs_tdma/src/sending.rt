ghost use Rattle.std.specs.Prelude.{◌≡◌, ◌+◌, ◌<◌, ◌≤◌, ◌^◌, All, IfErr, IfOk, None, length, replicate};
ghost use Rattle.gs_plan.specs.Plans.{text_of};
ghost use Rattle.gs_calendar.specs.Scripts.{breach_of_script};
ghost use Rattle.gs_calendar.specs.Stops.{StopsAt};
ghost use Rattle.gs_tdma.specs.inside.Kept.{AreCounted, with_clock};
ghost use Rattle.gs_tdma.specs.Laws.{NeverCollide};
ghost use Rattle.gs_tdma.specs.Slots.{AreSlots, sent_of};

use crate::slot_plan::SlotPlan;
use gs_calendar::PlayStop;
use gs_plan::Plan;
use gs_rows::Rows;
use gs_script::Script;
use std::alloc::{AllocError, Global};

/// A count of 0 for each of `nodes` nodes.
fn zeros(alloc: Global, nodes: u32) -> Result<Vec<u32>, AllocError>
    ensures { IfOk result (λ zeros. zeros.items ≡ replicate nodes 0) }
{
    let zeros = vec![in alloc; 0; nodes as usize]?;
    Ok(zeros)
}

/// The count of node `v` with a quantum more, at whose end this is its clock.
fn with_clock(slots: &SlotPlan, v: u32, clock: u64, sent: u32) -> u32
    requires node { v < length slots.now.colours }
    requires room { sent + 1 < 2 ^ 32 }
    ensures { result ≡ with_clock slots.now v clock sent }
{
    if slots.may_send(v, clock) {
        sent + 1
    } else {
        sent
    }
}

/// The counts of all nodes with quantum `t`, at whose end these are the clocks.
fn with_clocks(slots: &SlotPlan, nodes: u32, t: u32, clocks: &[u64], sent: &mut [u32])
    requires slots { length slots.now.colours ≡ nodes }
    requires one_each { length clocks.now ≡ nodes }
    requires counts { length sent.old ≡ nodes }
    requires few { All (λ n. n < t) sent.old }
    ensures { AreCounted slots.now clocks.now sent.old sent.new }
{
    for v in 0..nodes {
        let at = v as usize;
        sent[at] = with_clock(slots, v, clocks[at], sent[at]);
    }
}

/// For each node the number of quanta of a script, from clocks that are all 0, at whose end it may send. No two
/// nodes within reach may send at one such end. It stops at the script's first breach. The script was read for
/// the plan, and the slots are the plan's.
pub fn slot_run(
    alloc: Global,
    plan: &Plan,
    script: &Script,
    slots: &SlotPlan,
) -> Result<Vec<u32>, PlayStop>
    requires script { script.now.text ≡ text_of plan.now }
    requires slots { AreSlots plan.now slots.now }
    ensures sent { IfOk result (λ sent. sent.items ≡ sent_of plan.now script.now slots.now) }
    ensures apart { IfOk result (λ sent. NeverCollide plan.now script.now slots.now) }
    ensures no_breach { IfOk result (λ sent. breach_of_script plan.now script.now ≡ None) }
    ensures stop { IfErr result (StopsAt (breach_of_script plan.now script.now)) }
{
    let nodes = plan.topo().nodes();
    let mut rows = Rows::start(alloc, plan, script)?;
    let mut sent = zeros(alloc, nodes)?;
    while rows.next(alloc)? {
        let t = rows.quanta();
        with_clocks(slots, nodes, t, rows.clocks(), &mut sent);
    }
    Ok(sent)
}
