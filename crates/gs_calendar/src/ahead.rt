ghost use Rattle.std.specs.Prelude.{◌≡◌, ◌+◌, ◌^◌, ◌<◌, ℕ, suc, length, IfOk};
ghost use Rattle.gs_plan.specs.Plans.{text_of};
ghost use Rattle.gs_plan.specs.Shapes.{graph_of_text};
ghost use Rattle.gs_run.specs.Net.{Net};
ghost use Rattle.gs_run.specs.Nets.{net_of};
ghost use Rattle.gs_script.specs.Lasts.{Lasts};
ghost use Rattle.gs_script.specs.Script.{gap_of, inc_of};
ghost use Rattle.gs_calendar.specs.Course.{Course, course_of};
ghost use Rattle.gs_calendar.specs.Events.{incs_at};
ghost use Rattle.gs_calendar.specs.Scripts.{IsReadFor};
ghost use Rattle.gs_calendar.specs.inside.Coming.{AreAhead, IsAhead};

use gs_core::Incs;
use gs_plan::Plan;
use gs_script::{Run, Script};
use std::alloc::{AllocError, Global};

/// What a script says of a node in the next quantum, and up to which quantum it stays so.
#[derive(Clone, Copy, Debug)]
pub(crate) struct Ahead {
    /// What the hardware clock adds, in clock units.
    pub(crate) inc: Run,
    /// The gap between ticks that is asked for, in quanta.
    pub(crate) gap: Run,
}

/// What the script says of each node in the first quantum.
#[tactic(auto, using(crate::proofs::OnTheWay::said_node))]
pub(crate) fn first_ahead(
    alloc: Global,
    plan: &Plan,
    script: &Script,
) -> Result<Vec<Ahead>, AllocError>
    requires { IsReadFor (text_of plan.now) script.now }
    ensures { IfOk result (λ list. AreAhead (net_of plan.now) (course_of script.now) 1 list.items) }
{
    let nodes = plan.topo().nodes();
    let mut list = Vec::with_capacity(alloc, nodes as usize)?;
    for v in 0..nodes {
        list.push(Ahead {
            inc: script.inc_run(v, 1),
            gap: script.gap_run(v, 1),
        })?;
    }
    Ok(list)
}

/// Goes on to the quantum after `now`. The script is asked only where what is known ends.
pub(crate) fn go_on(plan: &Plan, script: &Script, ahead: &mut [Ahead], now: u32)
    requires read { IsReadFor (text_of plan.now) script.now }
    requires room { now + 1 < 2 ^ 32 }
    requires ahead { AreAhead (net_of plan.now) (course_of script.now) now ahead.old }
    ensures count { length ahead.new ≡ length ahead.old }
    ensures ahead { AreAhead (net_of plan.now) (course_of script.now) (suc now) ahead.new }
{
    for v in 0..plan.topo().nodes() {
        let known = ahead[v as usize];
        ahead[v as usize] = next(script, v, now, known);
    }
}

/// What the script says of node `v` in the quantum after `now`.
fn next(script: &Script, v: u32, now: u32, known: Ahead) -> Ahead
    requires room { now + 1 < 2 ^ 32 }
    requires node { v < (graph_of_text script.now.text).nodes }
    requires known { IsAhead (course_of script.now) v now known }
    ensures { IsAhead (course_of script.now) v (suc now) result }
{
    Ahead {
        inc: inc_from(script, v, now, known.inc),
        gap: gap_from(script, v, now, known.gap),
    }
}

/// What the clock of `v` adds in the quanta after `now`, where it is known up to `now`.
fn inc_from(script: &Script, v: u32, now: u32, known: Run) -> Run
    requires room { now + 1 < 2 ^ 32 }
    requires node { v < (graph_of_text script.now.text).nodes }
    requires known { Lasts (inc_of script.now v) now known.until known.value }
    ensures { Lasts (inc_of script.now v) (suc now) result.until result.value }
{
    if known.until > now {
        known
    } else {
        script.inc_run(v, now + 1)
    }
}

/// The gap that is asked of `v` in the quanta after `now`, where it is known up to `now`.
fn gap_from(script: &Script, v: u32, now: u32, known: Run) -> Run
    requires room { now + 1 < 2 ^ 32 }
    requires node { v < (graph_of_text script.now.text).nodes }
    requires known { Lasts (gap_of script.now v) now known.until known.value }
    ensures { Lasts (gap_of script.now v) (suc now) result.until result.value }
{
    if known.until > now {
        known
    } else {
        script.gap_run(v, now + 1)
    }
}

/// What each hardware clock adds.
pub(crate) fn incs_of(alloc: Global, ahead: &[Ahead]) -> Result<Incs, AllocError>
    ensures { (net : Net) (c : Course) (t : ℕ) → AreAhead net c t ahead.now
        → IfOk result (λ incs. incs ≡ incs_at net c t) }
{
    let mut incs = Vec::with_capacity(alloc, ahead.len())?;
    for v in 0..ahead.len() {
        incs.push(ahead[v].inc.value)?;
    }
    Ok(Incs::from_vec(incs))
}
