ghost use Rattle.std.specs.Prelude.{◌≡◌, IfOk};
ghost use Rattle.gs_plan.specs.Plans.{text_of};

use crate::{Feed, few_losses_never_breach, scripts_are_calm};
use gs_core::Event;
use gs_plan::{Plan, check};
use gs_planfile::base;
use gs_script::{Script, read_script};
use std::alloc::Global;
use std::test::Fail;

/// A line of `n` nodes with the numbers of the built-in plans: a beacon at each tick, and delays from 2
/// to 12.
fn line(alloc: Global, n: u32) -> Result<Plan, Fail> {
    Ok(check(alloc, &base(alloc, n)).map_err(|_| "the plan is refused")?)
}

/// An event in words: `q` with the increments, `d` with sender, receiver and sequence, `t` with the
/// node.
fn words(alloc: Global, event: &Event) -> Result<String, Fail> {
    match event {
        Event::Quantum(incs) => {
            let mut text = String::from_str(alloc, "q")?;
            for inc in incs.as_slice() {
                text.push_str(&format!(in alloc; " {}", inc)?)?;
            }
            Ok(text)
        }
        Event::Tick(v) => Ok(format!(in alloc; "t {}", v)?),
        Event::Deliver { from, to, seq } => Ok(format!(in alloc; "d {} {} {}", from, to, seq)?),
    }
}

/// The events of a feed, in words.
fn told(alloc: Global, feed: &mut Feed<'_>) -> Result<String, Fail> {
    let mut text = String::new(alloc);
    for _ in 0..100_000 {
        let Some(event) = feed.next(alloc)? else {
            return Ok(text);
        };
        text.push_str(&words(alloc, &event)?)?;
        text.push_str("; ")?;
    }
    Err("the events do not end")?
}

/// The script of a text for a plan.
fn script(alloc: Global, plan: &Plan, text: &str) -> Result<Script, Fail>
    ensures { IfOk result (λ s. s.text ≡ text_of plan.now) }
{
    Ok(read_script(alloc, text.as_bytes(), plan).map_err(|_| "the script is refused")?)
}

/// The events of a script for a line of `n` nodes, in words.
fn events(alloc: Global, n: u32, text: &str) -> Result<String, Fail> {
    let plan = line(alloc, n)?;
    let script = script(alloc, &plan, text)?;
    let mut feed = Feed::new(alloc, &plan, &script)?;
    told(alloc, &mut feed)
}

/// Scripts for a line of some nodes, with their events.
const CASES: [(u32, &str, &str); 7] = [
    (2, "quanta,0\n", ""),
    // deliveries come before ticks, and a gap counts from the last tick
    (
        2,
        "quanta,6\ntick,*,1,6,3\ndrift,1,2,2,10001\n",
        "q 10000 10000; q 10000 10001; q 10000 10000; t 0; t 1; q 10000 10000; \
         q 10000 10000; d 1 0 1; d 0 1 1; q 10000 10000; t 0; t 1; ",
    ),
    // a gap holds in the quantum that it is said of
    (
        1,
        "quanta,6\ntick,0,3,3,1\ntick,0,5,6,2\n",
        "q 10000; q 10000; q 10000; t 0; q 10000; q 10000; t 0; q 10000; ",
    ),
    // deliveries go by receiver and then by sender
    (
        3,
        "quanta,4\ntick,*,2,2,2\n",
        "q 10000 10000 10000; q 10000 10000 10000; t 0; t 1; t 2; q 10000 10000 10000; \
         q 10000 10000 10000; d 1 0 1; d 0 1 1; d 2 1 1; d 1 2 1; ",
    ),
    // a later beacon comes first, and two that come together go by sequence
    (
        2,
        "quanta,6\ntick,0,1,4,1\ndelay,0,1,1,1,5\ndelay,0,1,2,2,4\n",
        "q 10000 10000; t 0; q 10000 10000; t 0; q 10000 10000; t 0; q 10000 10000; t 0; \
         q 10000 10000; d 0 1 3; q 10000 10000; d 0 1 1; d 0 1 2; d 0 1 4; ",
    ),
    // a lost beacon does not come, and its sequence stays its own
    (
        2,
        "quanta,5\ntick,0,1,3,1\nloss,0,1,2,2,1\n",
        "q 10000 10000; t 0; q 10000 10000; t 0; q 10000 10000; d 0 1 1; t 0; q 10000 10000; \
         q 10000 10000; d 0 1 3; ",
    ),
    // what is due later than the last quantum does not come
    (
        2,
        "quanta,2\ntick,0,1,1,1\n",
        "q 10000 10000; t 0; q 10000 10000; ",
    ),
];

#[test]
fn feeds_give_the_events_of_scripts(rt: HostRuntime) -> Result<(), Fail> {
    let alloc = rt.alloc();
    for (nodes, script, wanted) in CASES {
        let events = events(alloc, nodes, script)?;
        assert_eq!(rt; events.as_str(), wanted, "of {script}");
    }
    Ok(())
}

#[test]
fn laws_cost_nothing(_rt: HostRuntime) {
    scripts_are_calm();
    few_losses_never_breach();
}
