ghost use Rattle.std.specs.Prelude.{◌≡◌, ℕ, ◌+◌, ◌<◌, ◌≤◌, ◌%◌, ◌^◌, All, IfErr, IfOk, OnOk, None, length, map};
ghost use Rattle.gs_plan.specs.Plans.{text_of};
ghost use Rattle.gs_calendar.specs.Scripts.{breach_of_script};
ghost use Rattle.gs_calendar.specs.Stops.{StopsAt};
ghost use Rattle.gs_order.specs.declared.timed.Timed.{Timed};
ghost use Rattle.gs_order.specs.Waits.{wait_of};
ghost use Rattle.gs_order.specs.Orders.{AreOrdered, order_of};
ghost use Rattle.gs_order.specs.inside.UnderWay.{AreDone, after_clocks, after_row, begun_at, with_due};

use crate::pending::{Pending, begin, finish};
use crate::timed::Timed;
use gs_calendar::PlayStop;
use gs_plan::Plan;
use gs_rows::Rows;
use gs_script::Script;
use std::alloc::{AllocError, Global};

/// Plays a script on its plan from clocks that are all 0, with an event every `every` quanta: event `i`, from 0
/// on, begins at the end of quantum `(i + 1) * every` at node `i` modulo the count of nodes. It finishes at the
/// end of the first later quantum at which [`finish`] succeeds, if there is one. It stops at the script's first
/// breach.
///
/// Where an event has finished by the time that another begins, at whatever node, its stamp is the lesser: see
/// [`commit_waits_order_events`].
///
/// [`commit_waits_order_events`]: crate::commit_waits_order_events
pub fn order_run(
    alloc: Global,
    plan: &Plan,
    script: &Script,
    every: u32,
) -> Result<Vec<Timed>, PlayStop>
    requires every { 1 ≤ every }
    requires script { script.now.text ≡ text_of plan.now }
    ensures events { IfOk result (λ events. events.items ≡ order_of plan.now script.now every) }
    ensures ordered { IfOk result (λ events. AreOrdered events.items) }
    ensures no_breach { OnOk result (breach_of_script plan.now script.now ≡ None) }
    ensures stop { IfErr result (StopsAt (breach_of_script plan.now script.now)) }
{
    let nodes = plan.topo().nodes();
    let mut rows = Rows::start(alloc, plan, script)?;
    let mut events = Vec::new(alloc);
    let mut done = 0;
    while rows.next(alloc)? {
        let t = rows.quanta();
        done = after_quantum(plan, every, t, nodes, rows.clocks(), &mut events, done)?;
    }
    Ok(events)
}

/// All events by the end of quantum `t`, at which these are the clocks, and how many of them at the front are
/// known to have finished.
fn after_quantum(
    plan: &Plan,
    every: u32,
    t: u32,
    nodes: u32,
    clocks: &[u64],
    events: &mut Vec<Timed>,
    done: usize,
) -> Result<usize, AllocError>
    requires every { 1 ≤ every }
    requires some { 0 < nodes }
    requires one_each { length clocks.now ≡ nodes }
    requires later { 1 ≤ t }
    requires known { All (λ event. event.node < nodes) events.old.items }
    requires done { AreDone events.old.items done }
    ensures events { OnOk result (events.new.items ≡ with_due every t nodes clocks.now
        (map (after_clocks (wait_of plan.now) t clocks.now) events.old.items)) }
    ensures done { IfOk result (AreDone events.new.items) }
{
    finish_open(plan, events, done, t, clocks);
    let done = first_open(events, done);
    begin_due(events, every, t, nodes, clocks)?;
    Ok(done)
}

/// The events by the end of quantum `t`, at which these are the clocks. Those below `done` have finished.
fn finish_open(plan: &Plan, events: &mut [Timed], done: usize, t: u32, clocks: &[u64])
    requires done { AreDone events.old done }
    requires nodes { All (λ event. event.node < length clocks.now) events.old }
    ensures { events.new ≡ map (after_clocks (wait_of plan.now) t clocks.now) events.old }
{
    for i in done..events.len() {
        let event = events[i];
        events[i] = finished_at(plan, event, t, clocks[event.node as usize]);
    }
}

/// An event by the end of quantum `t`, at which the clock of its node is this.
fn finished_at(plan: &Plan, event: Timed, t: u32, clock: u64) -> Timed
    ensures { result ≡ after_row (wait_of plan.now) t clock event }
{
    if event.finished.is_some() {
        return event;
    }
    match finish(plan, Pending { stamp: event.stamp }, clock) {
        Ok(stamp) => Timed {
            node: event.node,
            begun: event.begun,
            stamp,
            finished: Some(t),
        },
        Err(_) => event,
    }
}

/// The first event from `done` on that has not finished.
fn first_open(events: &[Timed], done: usize) -> usize
    requires { AreDone events.now done }
    ensures { AreDone events.now result }
{
    for i in done..events.len() {
        if events[i].finished.is_none() {
            return i;
        }
    }
    events.len()
}

/// One event more, where one begins at the end of quantum `t`.
fn begin_due(
    events: &mut Vec<Timed>,
    every: u32,
    t: u32,
    nodes: u32,
    clocks: &[u64],
) -> Result<(), AllocError>
    requires every { 1 ≤ every }
    requires some { 0 < nodes }
    requires one_each { length clocks.now ≡ nodes }
    requires later { 1 ≤ t }
    ensures { OnOk result (events.new.items ≡ with_due every t nodes clocks.now events.old.items) }
{
    if t % every == 0 {
        events.push(begun_at(every, t, nodes, clocks))?;
    }
    Ok(())
}

/// The event that begins at the end of quantum `t`, at which these are the clocks.
fn begun_at(every: u32, t: u32, nodes: u32, clocks: &[u64]) -> Timed
    requires every { 1 ≤ every }
    requires due { every ≤ t }
    requires some { 0 < nodes }
    requires one_each { length clocks.now ≡ nodes }
    ensures { result ≡ begun_at every t nodes clocks.now }
{
    let node = (t / every - 1) % nodes;
    Timed {
        node,
        begun: t,
        stamp: begin(clocks[node as usize]).stamp,
        finished: None,
    }
}
