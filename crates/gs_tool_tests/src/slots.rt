use crate::running::{gives, holds};
use gs_cli::Status;

const TWO_NODES: &str = "nodes 2 colours 2 slot 200000 guard 51563 reach 1
node 0 colour 0 sent 27
node 1 colour 1 sent 18
";

/// Slots that are refused, and why.
const REFUSED: &str = "slots base:2 steady:100 1 103126 -> slot refused: slot
slots base:2 steady:100 1 281474976710656 -> slot refused: slot
slots base:2 steady:100 0 0 -> slot refused: reach
slots base:2 steady:9 4294967295 18446744073709551615 -> slot refused: reach
slots base:2 steady:x 0 0 -> script refused: number 1
";

/// The script is refused before the reach and the slot, and these before the play.
#[test]
fn slots_are_planned_and_played(rt: HostRuntime) {
    let line = "slots base:2 steady:100 1 200000";
    assert!(rt; gives(&rt, line, &[], Status::Done, TWO_NODES));
    for case in REFUSED.lines() {
        assert!(rt; holds(&rt, &[], Status::InputRefused, case), "{case}");
    }
    let lost = [("s.csv", b"quanta,1000\nloss,0,1,1,1000,1\n".as_slice())];
    let breach = "breach at quantum 413: stale 0 1\n";
    let line = "slots base:2 s.csv 1 200000";
    assert!(rt; gives(&rt, line, &lost, Status::Breach, breach));
}
