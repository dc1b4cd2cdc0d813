ghost use Rattle.std.specs.Prelude.{◌≡◌, ◌<◌, ◌≤◌, ℕ, true, IfOk};
ghost use Rattle.gs_plan.specs.Plans.{text_of};
ghost use Rattle.gs_run.specs.Net.{neighbours};
ghost use Rattle.gs_run.specs.Nets.{net_of};
ghost use Rattle.gs_calendar.specs.Course.{course_of};
ghost use Rattle.gs_calendar.specs.Scripts.{IsReadFor};
ghost use Rattle.gs_calendar.specs.Transits.{Has};
ghost use Rattle.gs_seat.specs.Seats.{IsSeatIn};

use crate::Seat;
use gs_plan::{Plan, check};
use gs_planfile::base;
use gs_script::{Script, read_script};
use std::alloc::Global;
use std::test::Fail;

/// A script of these records.
fn script_of(alloc: Global, plan: &Plan, records: &str) -> Result<Script, Fail>
    ensures { IfOk result (IsReadFor (text_of plan.now)) }
{
    let script = read_script(alloc, records.as_bytes(), plan).map_err(|_| "the script is refused")?;
    Ok(script)
}

/// Whether node 0 has node 1 as a neighbour, and what is heard stays fresh for a quantum at least.
fn can_send(plan: &Plan) -> bool
    ensures { result ≡ true → (1 < (net_of plan.now).nodes) × Has 1 (neighbours (net_of plan.now) 0)
        × (1 ≤ (net_of plan.now).age) }
{
    let topo = plan.topo();
    if topo.nodes() < 2 {
        return false;
    }
    if !topo.adjacent(0, 1) {
        return false;
    }
    plan.text().age > 0
}

/// The first quantum of node `v`, and its clock at the end of it.
fn first_quantum(plan: &Plan, script: &Script, v: u32, seat: &mut Seat) -> u64
    requires read { IsReadFor (text_of plan.now) script.now }
    requires node { v < (net_of plan.now).nodes }
    requires end { 1 ≤ script.now.quanta }
    requires age { 1 ≤ (net_of plan.now).age }
    requires seat { IsSeatIn (net_of plan.now) (course_of script.now) v 0 0 seat.old }
    ensures { IsSeatIn (net_of plan.now) (course_of script.now) v 0 1 seat.new }
{
    let clock = seat.next_clock(0);
    seat.turn(plan, script, v, 0);
    clock
}

/// What is seen of the two: what the first sent and forgets, when they wake up, and what the second goes by.
fn seen(alloc: Global, plan: &Plan, one: &mut Seat, two: &Seat) -> Result<String, Fail> {
    let mut text = String::new(alloc);
    for sent in one.sent() {
        let beacon = sent.beacon();
        text.push_str(&format!(in alloc;
            "sent {} {} {}, ",
            sent.quantum(),
            beacon.seq,
            beacon.l
        )?)?;
    }
    one.end_window();
    text.push_str(&format!(in alloc; "left {}, ", one.sent().len())?)?;
    text.push_str(&format!(in alloc; "wake {} {}, ", one.wake(), two.wake())?)?;
    text.push_str(&format!(in alloc; "step {} {}, ", two.step(), two.is_fast())?)?;
    let stale = (
        two.first_stale(plan, 411).is_some(),
        two.first_stale(plan, 412).is_some(),
    );
    text.push_str(&format!(in alloc; "heard {} {} {}", two.oldest(), stale.0, stale.1)?)?;
    Ok(text)
}

/// The clocks of nodes 0 and 1 after the first quantum, and what is seen of the two once the second has taken
/// over what the first sent.
fn told(alloc: Global, plan: &Plan, script: &Script) -> Result<String, Fail>
    requires { IsReadFor (text_of plan.now) script.now }
{
    if !can_send(plan) {
        return Err("node 0 cannot send")?;
    }
    if script.quanta() == 0 {
        return Err("no quantum")?;
    }
    let mut one = Seat::start(alloc, plan, script, 0)?;
    let mut two = Seat::start(alloc, plan, script, 1)?;
    let first = first_quantum(plan, script, 0, &mut one);
    let second = first_quantum(plan, script, 1, &mut two);
    two.take_over(plan, script, 0, 1, one.sent())?;
    let text = seen(alloc, plan, &mut one, &two)?;
    Ok(format!(in alloc; "clocks {first} {second}, {text}")?)
}

#[test]
fn a_beacon_wakes_a_neighbour(rt: HostRuntime) -> Result<(), Fail> {
    let alloc = rt.alloc();
    let plan = check(alloc, &base(alloc, 2)).map_err(|_| "the plan is refused")?;
    let script = script_of(alloc, &plan, "quanta,8\ntick,0,1,1,1\ndrift,1,1,8,10001\n")?;
    let text = told(alloc, &plan, &script)?;
    assert_eq!(rt;
        text.as_str(),
        "clocks 10000 10001, sent 1 1 10000, left 0, wake 101 3, step 10001 false, heard 0 false true"
    );
    Ok(())
}
