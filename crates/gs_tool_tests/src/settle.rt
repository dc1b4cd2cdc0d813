use crate::running::gives;
use gs_cli::Status;

const APART: &str = "nodes 2 edges 1 quanta 0 gamma 1000000
level 0 time 48527 bound 103125 last 0
level 1 time 53684 bound 5158 last 0
level 2 time 53942 bound 259 last 0
level 3 time 53955 bound 14 last 0
level 4 time 53956 bound 2 last 0
fast 0
";

const EQUAL: &str = "nodes 2 edges 1 quanta 0 gamma 0
level 0 time 613 bound 103125 last none
level 1 time 5770 bound 5158 last none
level 2 time 6028 bound 259 last none
level 3 time 6041 bound 14 last none
level 4 time 6042 bound 2 last none
fast 0
";

const FARTHEST: &str = "nodes 2 edges 1 quanta 3000 gamma 2305843009213693952
level 0 time 121360158379663998 bound 103125 last 3000
level 1 time 121360158379669155 bound 5158 last 3000
level 2 time 121360158379669413 bound 259 last 3000
level 3 time 121360158379669426 bound 14 last 3000
level 4 time 121360158379669427 bound 2 last 3000
fast 2800
";

#[test]
fn clocks_apart_settle(rt: HostRuntime) {
    assert!(rt;
        gives(
            &rt,
            "settle base:2 steady:0 1000000",
            &[],
            Status::Done,
            APART
        )
    );
    assert!(rt; gives(&rt, "settle base:2 steady:0 0", &[], Status::Done, EQUAL));
    let line = "settle base:2 steady:3000 2305843009213693952";
    assert!(rt; gives(&rt, line, &[], Status::Done, FARTHEST));
    let refused = "script refused: number 1\n";
    assert!(rt;
        gives(
            &rt,
            "settle base:2 steady:x 7",
            &[],
            Status::InputRefused,
            refused
        )
    );
    let lost = [("s.csv", b"quanta,1000\nloss,0,1,1,1000,1\n".as_slice())];
    let breach = "breach at quantum 413: stale 0 1\n";
    assert!(rt; gives(&rt, "settle base:2 s.csv 7", &lost, Status::Breach, breach));
}
