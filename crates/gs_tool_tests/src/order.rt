use crate::running::gives;
use gs_cli::Status;

const STEADY: &str = "nodes 2 quanta 30 wait 103125
event 0 node 0 begun 10 stamp 100000 finished 21
event 1 node 1 begun 20 stamp 200000 finished none
event 2 node 0 begun 30 stamp 300000 finished none
finished 1
";

const NONE: &str = "nodes 2 quanta 9 wait 103125
finished 0
";

#[test]
fn an_order_is_its_events_its_breach_or_its_refusal(rt: HostRuntime) {
    assert!(rt; gives(&rt, "order base:2 steady:30 10", &[], Status::Done, STEADY));
    assert!(rt; gives(&rt, "order base:2 steady:9 10", &[], Status::Done, NONE));
    let lost = [("s.csv", b"quanta,1000\nloss,0,1,1,1000,1\n".as_slice())];
    let breach = "breach at quantum 413: stale 0 1\n";
    assert!(rt; gives(&rt, "order base:2 s.csv 100", &lost, Status::Breach, breach));
    let line = "order base:2 steady:1048577 1048576";
    assert!(rt;
        gives(
            &rt,
            line,
            &[],
            Status::InputRefused,
            "script refused: large\n"
        )
    );
    let line = "order base:x missing.csv 1";
    assert!(rt;
        gives(
            &rt,
            line,
            &[],
            Status::ReadFault,
            "read failed: missing.csv\n"
        )
    );
}
