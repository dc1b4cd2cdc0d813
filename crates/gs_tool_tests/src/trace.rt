use crate::running::{gives, run_with};
use gs_cli::Status;
use std::thread::Threads;
use std::time::Clock;

/// The head of the traces of scripts on two nodes.
const HEAD: &str =
    "GCSW\0\x01\0\0\0\0\0\x07\0\0\0\x02\0\0\0\0\0\0\0\0\0\0\0\0\0\0\0\0\0\0\0\0\0\0\0\0";

/// A quantum in which both go on at the slowest rate.
const SLOW: &str = "\x01\0\0\x27\x10\0\0\x27\x10";

/// Whether a trace over this script has this status and so many bytes, of which the last are a slow quantum.
fn traces(
    rt: &(impl AllocGlobal + Clock + Threads + Sync),
    line: &str,
    files: &[(&str, &[u8])],
    status: Status,
    bytes: usize,
) -> bool {
    match run_with(rt, line, files, &[], &[]) {
        Ok((answered, trace)) => {
            answered == status
                && trace.len() == bytes
                && trace.starts_with(HEAD.as_bytes())
                && trace.ends_with(SLOW.as_bytes())
        }
        Err(_) => false,
    }
}

/// After a breach the trace ends with the quantum that is not allowed, and has no line.
#[test]
fn a_trace_is_its_head_and_its_events(rt: HostRuntime) {
    let lost = [("s.csv", b"quanta,1000\nloss,0,1,1,1000,1\n".as_slice())];
    assert!(rt; gives(&rt, "trace base:2 steady:0", &[], Status::Done, HEAD));
    assert!(rt; traces(&rt, "trace base:2 steady:1", &[], Status::Done, 49));
    assert!(rt; traces(&rt, "trace base:2 s.csv", &lost, Status::Breach, 3865));
}

/// Whether a trace of two events, whose write of this number fails, ends so with so many bytes.
fn ends(
    rt: &(impl AllocGlobal + Clock + Threads + Sync),
    fails: u64,
    status: Status,
    bytes: usize,
) -> bool {
    match run_with(rt, "trace base:2 steady:2", &[], &[], &[fails]) {
        Ok((answered, trace)) => answered == status && trace.len() == bytes,
        Err(_) => false,
    }
}

/// The head is one write, and each event is one.
#[test]
fn a_write_that_fails_cuts_the_trace(rt: HostRuntime) {
    assert!(rt; ends(&rt, 1, Status::WriteFault, 0));
    assert!(rt; ends(&rt, 2, Status::WriteFault, 40));
    assert!(rt; ends(&rt, 3, Status::WriteFault, 49));
    assert!(rt; ends(&rt, 4, Status::Done, 58));
}

#[test]
fn a_trace_of_refused_inputs_is_their_line(rt: HostRuntime) {
    let missing = "read failed: missing\n";
    assert!(rt; gives(&rt, "trace missing s.csv", &[], Status::ReadFault, missing));
    let missing = "read failed: s.csv\n";
    assert!(rt; gives(&rt, "trace base:2 s.csv", &[], Status::ReadFault, missing));
    let refused = "plan refused: number\n";
    assert!(rt;
        gives(
            &rt,
            "trace base:x steady:1",
            &[],
            Status::PlanRefused,
            refused
        )
    );
    let refused = "script refused: number 1\n";
    assert!(rt;
        gives(
            &rt,
            "trace base:2 steady:x",
            &[],
            Status::InputRefused,
            refused
        )
    );
}
