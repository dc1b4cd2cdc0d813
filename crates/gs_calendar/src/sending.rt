ghost use Rattle.std.specs.Prelude.{◌≡◌, ◌+◌, ◌^◌, ◌<◌, ℕ, suc, length, OnErr, OnOk, Some};
ghost use Rattle.gs_topo.specs.Graph.{Adjacent};
ghost use Rattle.gs_plan.specs.Plans.{text_of};
ghost use Rattle.gs_plan.specs.Shapes.{graph_of_text};
ghost use Rattle.gs_script.specs.Script.{delay_of};
ghost use Rattle.gs_run.specs.Nets.{net_of};
ghost use Rattle.gs_calendar.specs.Calendar.{sent_at, turn};
ghost use Rattle.gs_calendar.specs.Course.{Course, course_of};
ghost use Rattle.gs_calendar.specs.inside.Coming.{AreAhead};
ghost use Rattle.gs_calendar.specs.inside.Feeds.{AllSent, AreTurns, Grows, HasSentAll, sent_to};
ghost use Rattle.gs_calendar.specs.Scripts.{IsReadFor};

use crate::ahead::Ahead;
use crate::transit::{InTransit, Transit};
use crate::turn::NodeTurn;
use gs_plan::Plan;
use gs_script::Script;
use std::alloc::AllocError;

/// Puts the beacon that `from` sends in quantum `now` on its way to `to`, unless it is lost.
fn send_to(
    script: &Script,
    from: u32,
    to: u32,
    now: u32,
    seq: u64,
    waiting: &mut [Transit],
) -> Result<(), AllocError>
    requires nodes { (from < (graph_of_text script.now.text).nodes) × (to < (graph_of_text script.now.text).nodes) }
    requires neighbours { Adjacent (graph_of_text script.now.text) from to }
    requires receiver { to < length waiting.old }
    requires soon { now + delay_of script.now from to now < 2 ^ 32 }
    ensures ok { OnOk result (waiting.new ≡ sent_to (course_of script.now) from to now seq waiting.old) }
    ensures err { OnErr result (waiting.new ≡ waiting.old) }
{
    if script.lost(from, to, now) {
        return Ok(());
    }
    let due = now + script.delay(from, to, now);
    waiting[to as usize].put(InTransit { due, from, seq })
}

/// Puts the beacon that `from` sends in quantum `t + 1` on its way to all neighbours.
fn send(
    plan: &Plan,
    script: &Script,
    from: u32,
    t: u32,
    seq: u64,
    waiting: &mut [Transit],
) -> Result<(), AllocError>
    requires read { IsReadFor (text_of plan.now) script.now }
    requires sender { from < (net_of plan.now).nodes }
    requires before { t < script.now.quanta }
    requires sent { sent_at (net_of plan.now) (course_of script.now) from (suc t) ≡ Some seq }
    requires lists { length waiting.old ≡ (net_of plan.now).nodes }
    ensures grows { Grows (net_of plan.now) (course_of script.now) t waiting.old waiting.new }
    ensures ok { OnOk result (HasSentAll (net_of plan.now) (course_of script.now) (suc t) from waiting.new) }
{
    for to in plan.topo().neighbours(from) {
        send_to(script, from, *to, t + 1, seq, waiting)?;
    }
    Ok(())
}

/// The turn of a node after quantum `t + 1`, in which this gap between ticks is asked for.
#[tactic(auto, using(crate::proofs::OnTheWay::turns))]
fn turn_after(plan: &Plan, gap: u32, t: u32, before: NodeTurn) -> NodeTurn
    requires { (c : Course) × (v : ℕ) × (t < 2 ^ 31) × (before ≡ turn (net_of plan.now) c v t) }
    ensures { (c : Course) (v : ℕ) → gap ≡ c.gap v (t + 1) → before ≡ turn (net_of plan.now) c v t
        → result ≡ turn (net_of plan.now) c v (suc t) }
{
    before.next(plan.text().every, gap, t + 1)
}

/// Puts the beacon that `from` sends in quantum `t + 1` on its way, if its turn gave one.
#[tactic(auto, using(crate::proofs::OnTheWay::giving))]
fn send_given(
    plan: &Plan,
    script: &Script,
    from: u32,
    t: u32,
    before: NodeTurn,
    after: NodeTurn,
    waiting: &mut [Transit],
) -> Result<(), AllocError>
    requires read { IsReadFor (text_of plan.now) script.now }
    requires sender { from < (net_of plan.now).nodes }
    requires end { t < script.now.quanta }
    requires before { before ≡ turn (net_of plan.now) (course_of script.now) from t }
    requires after { after ≡ turn (net_of plan.now) (course_of script.now) from (suc t) }
    requires lists { length waiting.old ≡ (net_of plan.now).nodes }
    ensures grows { Grows (net_of plan.now) (course_of script.now) t waiting.old waiting.new }
    ensures ok { OnOk result (HasSentAll (net_of plan.now) (course_of script.now) (suc t) from waiting.new) }
{
    if after.seq() == before.seq() {
        return Ok(());
    }
    send(plan, script, from, t, after.seq(), waiting)
}

/// Works out all turns after quantum `t + 1`, and puts all beacons of that quantum on their way.
pub(crate) fn send_all(
    plan: &Plan,
    script: &Script,
    t: u32,
    ahead: &[Ahead],
    turns: &[NodeTurn],
    next: &mut [NodeTurn],
    waiting: &mut [Transit],
) -> Result<(), AllocError>
    requires read { IsReadFor (text_of plan.now) script.now }
    requires end { t < script.now.quanta }
    requires counts { (length turns.now ≡ (net_of plan.now).nodes) × (length next.old ≡ (net_of plan.now).nodes) }
    requires lists { length waiting.old ≡ (net_of plan.now).nodes }
    requires ahead { AreAhead (net_of plan.now) (course_of script.now) (suc t) ahead.now }
    requires turns { AreTurns (net_of plan.now) (course_of script.now) t turns.now }
    ensures grows { Grows (net_of plan.now) (course_of script.now) t waiting.old waiting.new }
    ensures turns { OnOk result (AreTurns (net_of plan.now) (course_of script.now) (suc t) next.new) }
    ensures sent { OnOk result (AllSent (net_of plan.now) (course_of script.now) (suc t) waiting.new) }
{
    for v in 0..turns.len() {
        let before = turns[v];
        let after = turn_after(plan, ahead[v].gap.value, t, before);
        next[v] = after;
        send_given(plan, script, v as u32, t, before, after, waiting)?;
    }
    Ok(())
}
