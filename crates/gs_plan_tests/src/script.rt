ghost use Rattle.std.specs.Prelude.{◌≡◌};
ghost use Rattle.gs_plan.specs.Plans.{text_of};

use gs_plan::{Plan, check};
use gs_planfile::{EdgeSpan, Shape, Spans, Version, base};
use gs_script::{Script, ScriptFault, read_script, scripts_are_within};
use std::alloc::{AllocError, Global};
use std::process::Abort;

/// A ring of `n` nodes with the numbers of the built-in plans.
fn ring(alloc: Global, n: u32) -> Option<Plan> {
    let mut text = base(alloc, n);
    text.shape = Shape::Ring(n);
    check(alloc, &text).ok()
}

/// A line of three nodes whose second edge has the delays 3 to 4.
fn spanned(alloc: Global) -> Option<Plan> {
    let span = EdgeSpan {
        a: 1,
        b: 2,
        delay_min: 3,
        delay_max: 4,
        kappa: None,
    };
    let spans = Vec::from_slice(alloc, &[span]).ok()?;
    let mut text = base(alloc, 3);
    text.version = Version::Two;
    text.spans = Spans::from_vec(spans);
    check(alloc, &text).ok()
}

/// Whether a script is refused so for a plan, or `read`.
fn is_said(alloc: Global, plan: &Plan, bytes: &[u8], wanted: &str) -> bool {
    match read_script(alloc, bytes, plan) {
        Ok(_) => wanted == "read",
        Err(fault) => is_told(alloc, fault, wanted),
    }
}

/// Whether a fault is told in these words.
fn is_told(alloc: Global, fault: ScriptFault, words: &str) -> bool {
    match fault.to_string(alloc) {
        Ok(told) => told.as_str() == words,
        Err(_) => false,
    }
}

/// This record behind these.
fn behind(alloc: Global, before: &str, record: &str) -> Result<String, AllocError> {
    let mut script = String::from_str(alloc, before)?;
    script.push_str(record)?;
    Ok(script)
}

/// Whether the record of a case, behind these, has the fault that the case tells.
fn holds(alloc: Global, plan: &Plan, before: &str, case: &str) -> bool {
    let Some((record, wanted)) = case.split_once(" -> ") else {
        return false;
    };
    match behind(alloc, before, record) {
        Ok(script) => is_said(alloc, plan, script.as_bytes(), wanted),
        Err(_) => false,
    }
}

/// First records of scripts for a line of three nodes, with the fault of each. The fault that is named
/// stands before any other that holds.
const FIRST_RECORDS: &str = " -> first
drift,0,1,1,10000 -> first
Quanta,100 -> first
quanta -> fields 1
quanta,100,1 -> fields 1
quanta,x,1 -> fields 1
quanta,x -> number 1
quanta,007 -> number 1
quanta,* -> number 1
quanta,18446744073709551616 -> number 1
quanta,1048577 -> large
";

/// The same for second records, behind `quanta,100`.
const SECOND_RECORDS: &str = " -> read
drift,*,1,100,10001 -> read
\"drift\",0,1,1,10000 -> read
delay,1,2,1,100,12 -> read
dance -> word 2
# -> word 2
 drift,0,1,1,10000 -> word 2
quanta -> again 2
quanta,100 -> again 2
drift,0,1,1 -> fields 2
drift,0,1,1,10000, -> fields 2
tick,x,1,1 -> fields 2
loss,0,1,1,1 -> fields 2
drift,x,1,1,10000 -> number 2
drift,0,*,1,10000 -> number 2
drift,0,1,*,10000 -> number 2
drift,0,1,1,* -> number 2
drift, 0,1,1,10000 -> number 2
tick,18446744073709551616,1,1,1 -> number 2
drift,3,1,1,x -> number 2
delay,3,x,1,1,5 -> number 2
drift,3,1,1,10000 -> node 2
tick,18446744073709551615,1,1,1 -> node 2
delay,0,3,1,1,5 -> node 2
loss,3,0,1,1,1 -> node 2
drift,3,0,1,10000 -> node 2
delay,0,2,1,1,5 -> edge 2
loss,1,1,1,1,1 -> edge 2
loss,2,0,0,1,1 -> edge 2
drift,0,0,1,10000 -> span 2
drift,0,2,1,10000 -> span 2
drift,0,1,101,10000 -> span 2
tick,0,0,1,0 -> span 2
delay,0,1,100,101,0 -> span 2
drift,0,1,1,9999 -> bound 2
drift,1,1,100,10002 -> bound 2
tick,*,1,1,0 -> bound 2
tick,*,1,1,101 -> bound 2
loss,*,*,1,1,2 -> bound 2
delay,0,1,1,1,1 -> bound 2
delay,*,1,1,1,13 -> bound 2
delay,1,*,1,100,4294967298 -> bound 2
";

#[test]
fn the_first_fault_of_a_record_is_named(rt: HostRuntime) {
    let alloc = rt.alloc();
    let Ok(plan) = check(alloc, &base(alloc, 3)) else {
        panic!(rt; "the plan is refused");
    };
    for case in FIRST_RECORDS.lines() {
        assert!(rt; holds(alloc, &plan, "", case), "{case}");
    }
    for case in SECOND_RECORDS.lines() {
        assert!(rt; holds(alloc, &plan, "quanta,100\n", case), "{case}");
    }
}

#[test]
fn the_first_record_at_fault_is_named(rt: HostRuntime) {
    let alloc = rt.alloc();
    let Ok(plan) = check(alloc, &base(alloc, 3)) else {
        panic!(rt; "the plan is refused");
    };
    assert!(rt; is_said(alloc, &plan, b"", "first"));
    assert!(rt; is_said(alloc, &plan, b"\xff,100", "csv 1"));
    assert!(rt; is_said(alloc, &plan, b"quanta,\xff", "csv 1"));
    assert!(rt; is_said(alloc, &plan, b"quanta,100\ndance,\xff\ndance", "csv 2"));
    assert!(rt;
        is_said(
            alloc,
            &plan,
            b"quanta,100\ndrift,0,1,1,10000\ndance\n\xff",
            "word 3"
        )
    );
    assert!(rt; is_told(alloc, ScriptFault::OutOfMemory, "out of memory"));
}

/// Records for the line with a short edge, and whether their delays are in range.
const DELAYS: &str = "delay,*,*,1,9,4 -> read
delay,*,*,1,9,5 -> bound 2
delay,*,*,1,9,2 -> bound 2
delay,0,*,1,9,5 -> read
delay,*,0,1,9,12 -> read
delay,2,*,1,9,5 -> bound 2
delay,*,1,1,9,5 -> bound 2
delay,1,0,1,9,12 -> read
delay,1,2,1,9,3 -> read
delay,2,1,1,9,5 -> bound 2
";

/// The same for a plan with no edge, whose own delays are 2 to 12.
const NO_EDGE: &str = "delay,*,*,1,9,12 -> read
delay,*,*,1,9,1 -> bound 2
delay,0,*,1,9,13 -> bound 2
delay,0,0,1,9,5 -> edge 2
";

#[test]
fn delays_are_in_the_range_of_each_edge(rt: HostRuntime) {
    let alloc = rt.alloc();
    let Some(plan) = spanned(alloc) else {
        panic!(rt; "the plan is refused");
    };
    for case in DELAYS.lines() {
        assert!(rt; holds(alloc, &plan, "quanta,9\n", case), "{case}");
    }
}

#[test]
fn delays_with_no_edge_are_in_the_range_of_the_plan(rt: HostRuntime) {
    let alloc = rt.alloc();
    let Ok(plan) = check(alloc, &base(alloc, 1)) else {
        panic!(rt; "the plan is refused");
    };
    for case in NO_EDGE.lines() {
        assert!(rt; holds(alloc, &plan, "quanta,9\n", case), "{case}");
    }
}

/// As many records as a script may have, and then this one.
fn behind_4096(alloc: Global, record: &[u8]) -> Result<Vec<u8>, AllocError> {
    let mut script = Vec::from_slice(alloc, b"quanta,100\n")?;
    for _ in 0..4095u32 {
        script.extend_from_slice(b"loss,0,1,1,100,1\n")?;
    }
    script.extend_from_slice(record)?;
    Ok(script)
}

/// Whether such a script is refused so, or `read`.
fn is_said_behind_4096(alloc: Global, plan: &Plan, record: &[u8], wanted: &str) -> bool {
    match behind_4096(alloc, record) {
        Ok(script) => is_said(alloc, plan, &script, wanted),
        Err(_) => false,
    }
}

#[test]
fn a_script_has_4096_records(rt: HostRuntime) {
    let alloc = rt.alloc();
    let Ok(plan) = check(alloc, &base(alloc, 2)) else {
        panic!(rt; "the plan is refused");
    };
    assert!(rt; is_said_behind_4096(alloc, &plan, b"", "read"));
    assert!(rt; is_said_behind_4096(alloc, &plan, b"loss,0,1,1,100,1\n", "large"));
    assert!(rt; is_said_behind_4096(alloc, &plan, b"dance\n", "large"));
    assert!(rt; is_said_behind_4096(alloc, &plan, b"\xff\n", "csv 4097"));
}

/// Whether a script says this of a node in a quantum: its increment and its tick gap.
fn node_has(plan: &Plan, script: &Script, v: u32, t: u32, inc: u32, gap: u32) -> bool
    requires { script.now.text ≡ text_of plan.now }
{
    v < plan.topo().nodes() && script.inc(v, t) == inc && script.gap(v, t) == gap
}

/// Whether it says this of a beacon that is sent in a quantum: its delay, and whether it is lost.
fn beacon_has(
    plan: &Plan,
    script: &Script,
    from: u32,
    to: u32,
    t: u32,
    delay: u32,
    lost: bool,
) -> bool
    requires { script.now.text ≡ text_of plan.now }
{
    let graph = plan.topo();
    if from < graph.nodes() && to < graph.nodes() && graph.adjacent(from, to) {
        script.delay(from, to, t) == delay && script.lost(from, to, t) == lost
    } else {
        false
    }
}

const RECORDS: &str = "quanta,100
drift,*,1,100,10001
drift,0,50,100,10000
tick,1,5,7,60
tick,*,7,7,61
tick,1,7,7,62
delay,*,*,3,100,3
delay,1,*,4,4,4
delay,*,1,5,6,4
delay,0,1,6,6,3
loss,0,*,1,5,1
loss,0,1,3,3,0
loss,*,2,100,100,1
";

/// Asserts what `RECORDS` say of nodes.
fn last_record_of_a_node_wins(rt: &impl Abort, plan: &Plan, script: &Script)
    requires { script.now.text ≡ text_of plan.now }
{
    assert!(rt; node_has(plan, script, 0, 1, 10_001, 100));
    assert!(rt; node_has(plan, script, 0, 49, 10_001, 100));
    assert!(rt; node_has(plan, script, 0, 50, 10_000, 100));
    assert!(rt; node_has(plan, script, 0, 100, 10_000, 100));
    assert!(rt; node_has(plan, script, 1, 50, 10_001, 100));
    assert!(rt; node_has(plan, script, 1, 4, 10_001, 100));
    assert!(rt; node_has(plan, script, 1, 5, 10_001, 60));
    assert!(rt; node_has(plan, script, 1, 7, 10_001, 62));
    assert!(rt; node_has(plan, script, 2, 7, 10_001, 61));
    assert!(rt; node_has(plan, script, 1, 8, 10_001, 100));
}

/// And of beacons.
fn last_record_of_a_beacon_wins(rt: &impl Abort, plan: &Plan, script: &Script)
    requires { script.now.text ≡ text_of plan.now }
{
    assert!(rt; beacon_has(plan, script, 0, 1, 2, 2, true));
    assert!(rt; beacon_has(plan, script, 2, 1, 2, 3, false));
    assert!(rt; beacon_has(plan, script, 0, 1, 3, 3, false));
    assert!(rt; beacon_has(plan, script, 1, 0, 4, 4, false));
    assert!(rt; beacon_has(plan, script, 0, 1, 4, 3, true));
    assert!(rt; beacon_has(plan, script, 0, 1, 5, 4, true));
    assert!(rt; beacon_has(plan, script, 0, 1, 6, 3, false));
    assert!(rt; beacon_has(plan, script, 2, 1, 6, 4, false));
    assert!(rt; beacon_has(plan, script, 1, 2, 6, 3, false));
    assert!(rt; beacon_has(plan, script, 1, 2, 99, 3, false));
    assert!(rt; beacon_has(plan, script, 1, 2, 100, 3, true));
    assert!(rt; beacon_has(plan, script, 2, 1, 100, 3, false));
}

/// Whether the increment and the tick gap of a node last so long.
fn node_lasts(plan: &Plan, script: &Script, v: u32, t: u32, inc: u32, gap: u32) -> bool
    requires { script.now.text ≡ text_of plan.now }
{
    v < plan.topo().nodes()
        && script.inc_run(v, t).until == inc
        && script.gap_run(v, t).until == gap
}

/// Whether the delay and the loss of a beacon do.
fn beacon_lasts(plan: &Plan, script: &Script, from: u32, to: u32, t: u32, until: u32) -> bool
    requires { script.now.text ≡ text_of plan.now }
{
    let graph = plan.topo();
    if from < graph.nodes() && to < graph.nodes() && graph.adjacent(from, to) {
        script.way_run(from, to, t).until == until
    } else {
        false
    }
}

/// Asserts how long what `RECORDS` say lasts.
fn runs_end_where_a_record_does(rt: &impl Abort, plan: &Plan, script: &Script)
    requires { script.now.text ≡ text_of plan.now }
{
    assert!(rt; node_lasts(plan, script, 0, 1, 49, 6));
    assert!(rt; node_lasts(plan, script, 0, 50, 100, u32::MAX));
    assert!(rt; node_lasts(plan, script, 1, 5, 100, 6));
    assert!(rt; node_lasts(plan, script, 1, 7, 100, 7));
    assert!(rt; node_lasts(plan, script, 2, 101, u32::MAX, u32::MAX));
    assert!(rt; beacon_lasts(plan, script, 0, 1, 1, 2));
    assert!(rt; beacon_lasts(plan, script, 0, 1, 3, 3));
    assert!(rt; beacon_lasts(plan, script, 1, 2, 5, 99));
    assert!(rt; beacon_lasts(plan, script, 1, 2, 100, 100));
}

#[test]
fn the_last_record_that_matches_wins_until_one_begins_or_ends(rt: HostRuntime) {
    let alloc = rt.alloc();
    let Some(plan) = spanned(alloc) else {
        panic!(rt; "the plan is refused");
    };
    let Ok(script) = read_script(alloc, RECORDS.as_bytes(), &plan) else {
        panic!(rt; "the script is refused");
    };
    assert_eq!(rt; script.quanta(), 100);
    last_record_of_a_node_wins(&rt, &plan, &script);
    last_record_of_a_beacon_wins(&rt, &plan, &script);
    runs_end_where_a_record_does(&rt, &plan, &script);
}

#[test]
fn a_steady_script_has_the_defaults(rt: HostRuntime) {
    let alloc = rt.alloc();
    let mut text = base(alloc, 2);
    text.delay_min = 0;
    let Ok(plan) = check(alloc, &text) else {
        panic!(rt; "the plan is refused");
    };
    let Ok(script) = Script::steady(alloc, 10, &plan) else {
        panic!(rt; "the script is refused");
    };
    assert_eq!(rt; script.quanta(), 10);
    assert!(rt; node_has(&plan, &script, 1, 10, 10_000, 100));
    assert!(rt; beacon_has(&plan, &script, 1, 0, 1, 1, false));
    scripts_are_within();
}

/// Whether a script of so many quanta, made or read, is refused so, or is taken.
fn has_fault(alloc: Global, plan: &Plan, quanta: u64, wanted: Option<ScriptFault>) -> bool {
    match format!(in alloc; "quanta,{quanta}") {
        Ok(script) => {
            Script::steady(alloc, quanta, plan).err() == wanted
                && read_script(alloc, script.as_bytes(), plan).err() == wanted
        }
        Err(_) => false,
    }
}

/// The same on a ring of so many nodes.
fn ring_has_fault(alloc: Global, nodes: u32, quanta: u64, wanted: Option<ScriptFault>) -> bool {
    match ring(alloc, nodes) {
        Some(plan) => has_fault(alloc, &plan, quanta, wanted),
        None => false,
    }
}

#[test]
fn quanta_and_work_have_their_limits(rt: HostRuntime) {
    let alloc = rt.alloc();
    let large = Some(ScriptFault::Large);
    assert!(rt; ring_has_fault(alloc, 3, 0, None));
    assert!(rt; ring_has_fault(alloc, 3, 1_048_576, None));
    assert!(rt; ring_has_fault(alloc, 3, 1_048_577, large));
    assert!(rt; ring_has_fault(alloc, 3, u64::MAX, large));
    assert!(rt; ring_has_fault(alloc, 32, 1_048_576, None));
    assert!(rt; ring_has_fault(alloc, 64, 524_288, None));
    assert!(rt; ring_has_fault(alloc, 64, 524_289, large));
    assert!(rt; ring_has_fault(alloc, 64, 1_048_576, large));
}
