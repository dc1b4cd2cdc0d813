use crate::running::{done, gives, gives_with, holds};
use gs_cli::Status;
use std::alloc::AllocError;
use std::thread::Threads;
use std::time::Clock;

/// The report of two nodes, of which the second is ahead.
fn report(
    rt: &(impl AllocGlobal + Clock + Threads + Sync),
    quanta: u32,
    skew: (u32, u32),
    potential: u32,
    fast: u32,
) -> Result<String, AllocError> {
    let (greatest, at) = skew;
    let pair = if potential == 0 { "0 0" } else { "0 1" };
    format!(in rt.alloc();
        "nodes 2 edges 1 quanta {quanta}
global {greatest} at {at} bound 103125
neighbour {greatest} at {at} edge 0 1 bound 103125 level 0
level 0 potential {potential} pair {pair} bound 103125
level 1 potential 0 pair 0 0 bound 5158
level 2 potential 0 pair 0 0 bound 259
level 3 potential 0 pair 0 0 bound 14
level 4 potential 0 pair 0 0 bound 2
fast {fast}
"
    )
}

/// Whether a line over one file has this report.
pub(crate) fn reports(
    rt: &(impl AllocGlobal + Clock + Threads + Sync),
    line: &str,
    file: (&str, &[u8]),
    quanta: u32,
    skew: (u32, u32),
    potential: u32,
    fast: u32,
) -> bool {
    match report(rt, quanta, skew, potential, fast) {
        Ok(text) => gives(rt, line, &[file], Status::Done, text.as_str()),
        Err(_) => false,
    }
}

const ALONE: &str = "nodes 1 edges 0 quanta 0
global 0 at 0 bound 2301
neighbour 0 at 0 edge none bound 2301 level 0
level 0 potential 0 pair 0 0 bound 2301
level 1 potential 0 pair 0 0 bound 117
level 2 potential 0 pair 0 0 bound 7
level 3 potential 0 pair 0 0 bound 2
level 4 potential 0 pair 0 0 bound 2
fast 0
";

const AHEAD: &[u8] = b"quanta,100\ndrift,1,1,100,10001\n";

const LONG_AHEAD: &[u8] = b"quanta,20000\ndrift,1,1,20000,10001\n";

const BEHIND: &[u8] = b"quanta,100\ndrift,*,1,100,10001\ndrift,0,50,100,10000\n";

const LOST: &[u8] = b"quanta,1000\nloss,0,1,1,1000,1\n";

#[test]
fn a_script_gives_its_report_or_its_breach(rt: HostRuntime) {
    let line = "play base:2 s.csv 1";
    let breach = "breach at quantum 413: stale 0 1\n";
    assert!(rt; gives(&rt, "play base:1 steady:0 1", &[], Status::Done, ALONE));
    assert!(rt;
        reports(
            &rt,
            "play base:2 steady:1000 1",
            ("s.csv", b""),
            1000,
            (0, 0),
            0,
            0
        )
    );
    assert!(rt; reports(&rt, line, ("s.csv", AHEAD), 100, (100, 100), 100, 0));
    assert!(rt;
        reports(
            &rt,
            line,
            ("s.csv", LONG_AHEAD),
            20000,
            (2400, 2400),
            2000,
            900
        )
    );
    assert!(rt; reports(&rt, line, ("s.csv", BEHIND), 100, (51, 100), 51, 0));
    assert!(rt; gives(&rt, line, &[("s.csv", LOST)], Status::Breach, breach));
}

/// A ring of 12, and a script in which its first clock is ahead.
const RING: [(&str, &[u8]); 2] = [
    (
        "ring.toml",
        b"version = 1
cluster = 7
topology = \"ring\"
nodes = 12
lo = 10000
hi = 10001
mu = 2000
tick = 100
delay_min = 2
delay_max = 12
every = 1
losses = 3
age = 412
",
    ),
    ("first.csv", b"quanta,2000\ndrift,0,1,2000,10001\n"),
];

/// Whether a line over the ring writes this.
fn writes(rt: &(impl AllocGlobal + Clock + Threads + Sync), line: &str, wanted: &[u8]) -> bool {
    match done(rt, line, &RING) {
        Some(written) => written.as_slice() == wanted,
        None => false,
    }
}

#[test]
fn every_number_of_workers_writes_the_same(rt: HostRuntime) {
    let Some(alone) = done(&rt, "play ring.toml first.csv 1", &RING) else {
        panic!(rt; "not played");
    };
    assert!(rt; writes(&rt, "play ring.toml first.csv 2", &alone));
    assert!(rt; writes(&rt, "play ring.toml first.csv 7", &alone));
    assert!(rt; writes(&rt, "play ring.toml first.csv 64", &alone));
}

/// Whether a script is refused for a plan, for this reason.
fn refuses(
    rt: &(impl AllocGlobal + Clock + Threads + Sync),
    plan: &str,
    script: &str,
    why: &str,
) -> bool {
    match format!(in rt.alloc(); "play {plan} s.csv 1 -> script refused: {why}") {
        Ok(case) => {
            let files = [("s.csv", script.as_bytes())];
            holds(rt, &files, Status::InputRefused, case.as_str())
        }
        Err(_) => false,
    }
}

/// Counts of quanta that are refused, and why.
const REFUSED: &str = "play base:2 steady:x 1 -> script refused: number 1
play base:2 steady: 1 -> script refused: number 1
play base:2 steady:18446744073709551616 1 -> script refused: number 1
play base:2 steady:1048577 1 -> script refused: large
";

#[test]
fn a_script_that_is_refused_names_its_record(rt: HostRuntime) {
    assert!(rt;
        refuses(
            &rt,
            "base:2",
            "quanta,100\ndrift,1,1,100,10002\n",
            "bound 2"
        )
    );
    assert!(rt; refuses(&rt, "base:2", "quanta,18446744073709551616\n", "number 1"));
    assert!(rt; refuses(&rt, "base:2", "quanta,1048577\n", "large"));
    assert!(rt; refuses(&rt, "base:64", "quanta,1048576\n", "large"));
    assert!(rt; refuses(&rt, "base:2", "", "first"));
    assert!(rt;
        refuses(
            &rt,
            "base:2",
            "quanta,9\nloss,0,1,1,9,1\nquanta,9\n",
            "again 3"
        )
    );
    assert!(rt; refuses(&rt, "base:3", "quanta,9\nloss,0,2,1,9,1\n", "edge 2"));
    for case in REFUSED.lines() {
        assert!(rt; holds(&rt, &[], Status::InputRefused, case), "{case}");
    }
}

/// The plan's file is read, then the script's, and then the plan is looked into, and then the script.
#[test]
fn the_first_input_at_fault_is_answered(rt: HostRuntime) {
    let Ok(long) = vec![in rt.alloc(); b'q'; 1_048_577] else {
        panic!(rt; "out of memory");
    };
    let files = [
        ("p.toml", b"version = 3".as_slice()),
        ("s.csv", b"dance".as_slice()),
        ("long.csv", long.as_slice()),
    ];
    let line = "play p.toml s.csv 1";
    let (failed, long) = (Status::ReadFault, Status::TooLong);
    let refused = "plan refused: range version\n";
    assert!(rt; gives_with(&rt, line, &files, &[1], failed, "read failed: p.toml\n"));
    assert!(rt; gives_with(&rt, line, &files, &[2], failed, "read failed: s.csv\n"));
    assert!(rt; gives(&rt, line, &files, Status::PlanRefused, refused));
    let line = "play missing.toml missing.csv 1";
    assert!(rt; gives(&rt, line, &files, failed, "read failed: missing.toml\n"));
    let line = "play base:x missing.csv 1";
    assert!(rt; gives(&rt, line, &files, failed, "read failed: missing.csv\n"));
    let line = "play p.toml long.csv 1";
    assert!(rt; gives(&rt, line, &files, long, "too long: long.csv\n"));
    let line = "play long.csv missing.csv 1";
    assert!(rt; gives(&rt, line, &files, long, "too long: long.csv\n"));
    let line = "play base:2 s.csv 1";
    assert!(rt;
        gives(
            &rt,
            line,
            &files,
            Status::InputRefused,
            "script refused: first\n"
        )
    );
}
