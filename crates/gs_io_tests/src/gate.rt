use gs_gate::{Gate, PlainGate};

#[test]
fn a_plain_gate_holds_nobody(rt: HostRuntime) {
    let gate = PlainGate::new(&rt);
    gate.enter(0);
    gate.rest(1);
    gate.leave(0);
}
