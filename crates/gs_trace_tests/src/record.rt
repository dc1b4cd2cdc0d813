ghost use Rattle.std.specs.Prelude.{◌≡◌};
ghost use Rattle.gs_plan.specs.Plans.{text_of};

use gs_io::MemSink;
use gs_plan::{Plan, check};
use gs_planfile::base;
use gs_record::{RecordStop, record_script};
use gs_script::{Script, read_script};
use std::alloc::Global;

/// Whether the trace of a script ends so, with so many bytes; the write of number `fails` fails.
fn ends(
    alloc: Global,
    plan: &Plan,
    script: &Script,
    fails: u64,
    wanted: Result<(), RecordStop>,
    bytes: usize,
) -> bool
    requires { script.now.text ≡ text_of plan.now }
{
    let Ok(failing) = vec![in alloc; fails] else {
        return false;
    };
    let mut out = MemSink::new(alloc, failing);
    let ended = record_script(alloc, plan, script, &mut out);
    ended == wanted && out.bytes().len() == bytes
}

/// The same of the script of these records.
fn records_end(
    alloc: Global,
    plan: &Plan,
    records: &str,
    fails: u64,
    wanted: Result<(), RecordStop>,
    bytes: usize,
) -> bool {
    match read_script(alloc, records.as_bytes(), plan) {
        Ok(script) => ends(alloc, plan, &script, fails, wanted, bytes),
        Err(_) => false,
    }
}

#[test]
fn a_trace_ends_with_the_script_a_breach_or_a_fault(rt: HostRuntime) {
    let alloc = rt.alloc();
    let Ok(plan) = check(alloc, &base(alloc, 2)) else {
        panic!(rt; "the plan is refused");
    };
    assert!(rt; records_end(alloc, &plan, "quanta,0\n", 9, Ok(()), 40));
    assert!(rt; records_end(alloc, &plan, "quanta,2\n", 9, Ok(()), 58));
    assert!(rt; records_end(alloc, &plan, "quanta,2\n", 1, Err(RecordStop::Failed), 0));
    assert!(rt; records_end(alloc, &plan, "quanta,2\n", 3, Err(RecordStop::Failed), 49));
    let lost = "quanta,1000\nloss,0,1,1,1000,1\n";
    assert!(rt; records_end(alloc, &plan, lost, 9999, Err(RecordStop::Breach), 3865));
}
