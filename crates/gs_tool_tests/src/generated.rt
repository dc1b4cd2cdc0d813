use crate::running::{done, gives, run_with};
use gs_cli::Status;
use std::thread::Threads;
use std::time::Clock;

const PLAN: &str = "version = 1
cluster = 7
topology = \"ring\"
nodes = 3
lo = 10000
hi = 10001
mu = 2000
tick = 100
delay_min = 2
delay_max = 12
every = 1
losses = 3
age = 412
";

const SCRIPT: &str = "quanta,4000
drift,0,1,4000,10000
tick,0,1,4000,84
delay,0,1,1,4000,2
drift,1,1,4000,10001
tick,1,1,4000,88
delay,1,2,1,4000,8
drift,2,1,4000,10001
tick,2,1,4000,51
delay,2,0,1,4000,3
loss,0,1,1,50,1
";

const THREE: &str = "nodes 3 edges 3 quanta 4000
global 2442 at 3922 bound 103125
neighbour 2442 at 3922 edge 0 1 bound 103125 level 0
level 0 potential 2200 pair 2 0 bound 103125
level 1 potential 0 pair 0 0 bound 5158
level 2 potential 0 pair 0 0 bound 259
level 3 potential 0 pair 0 0 bound 14
level 4 potential 0 pair 0 0 bound 2
fast 238
";

const THIRTY_TWO: &str = "nodes 32 edges 32 quanta 4000
global 2698 at 2698 bound 1615485
neighbour 2698 at 2698 edge 0 1 bound 325834 level 1
level 0 potential 2400 pair 30 0 bound 1615485
level 1 potential 0 pair 0 0 bound 80776
level 2 potential 0 pair 0 0 bound 4040
level 3 potential 0 pair 0 0 bound 203
level 4 potential 0 pair 0 0 bound 12
fast 1911
";

const FIVE_HUNDRED_AND_TWELVE: &str = "nodes 512 edges 512 quanta 4000
global 2660 at 2660 bound 25813245
neighbour 2660 at 2660 edge 274 275 bound 554651 level 2
level 0 potential 2660 pair 235 0 bound 25813245
level 1 potential 0 pair 0 0 bound 1290664
level 2 potential 0 pair 0 0 bound 64535
level 3 potential 0 pair 0 0 bound 3228
level 4 potential 0 pair 0 0 bound 163
fast 27117
";

#[test]
fn what_is_generated_is_accepted_and_has_no_breach(rt: HostRuntime) {
    let done = Status::Done;
    assert!(rt; gives(&rt, "gen 18446744073709551615 3 plan", &[], done, PLAN));
    assert!(rt; gives(&rt, "gen 18446744073709551615 3 script", &[], done, SCRIPT));
    assert!(rt; gives(&rt, "gen 0 3 run", &[], done, THREE));
    assert!(rt; gives(&rt, "gen 7 32 run", &[], done, THIRTY_TWO));
    assert!(rt; gives(&rt, "gen 3 512 run", &[], done, FIVE_HUNDRED_AND_TWELVE));
}

/// What is reported of a play of these two texts.
fn report_of(
    rt: &(impl AllocGlobal + Clock + Threads + Sync),
    plan: &[u8],
    script: &[u8],
) -> Option<Vec<u8>> {
    done(
        rt,
        "play p.toml s.csv 1",
        &[("p.toml", plan), ("s.csv", script)],
    )
}

#[test]
fn a_generated_run_is_the_play_of_its_two_texts(rt: HostRuntime) {
    let (Some(plan), Some(script)) = (
        done(&rt, "gen 1 32 plan", &[]),
        done(&rt, "gen 1 32 script", &[]),
    ) else {
        panic!(rt; "nothing is generated");
    };
    let (Some(played), Some(run)) = (
        report_of(&rt, &plan, &script),
        done(&rt, "gen 1 32 run", &[]),
    ) else {
        panic!(rt; "no report");
    };
    assert!(rt; run.as_slice() == played.as_slice());
}

#[test]
fn a_generated_text_is_one_line_a_write(rt: HostRuntime) {
    match run_with(&rt, "gen 1 3 script", &[], &[], &[2]) {
        Ok((status, written)) => {
            assert!(rt; status == Status::WriteFault);
            assert!(rt; written.as_slice() == b"quanta,4000\n".as_slice());
        }
        Err(_) => panic!(rt; "out of memory"),
    }
}
