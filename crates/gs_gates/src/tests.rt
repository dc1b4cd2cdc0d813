use super::*;
use gs_gate::Gate;
use std::thread::{Threads, join};

#[test]
fn enters_are_counted(rt: HostRuntime) {
    let gate = CountGate::new();
    gate.enter(0);
    gate.leave(0);
    gate.enter(7);
    gate.rest(1);
    assert_eq!(rt; gate.entered(), 2);
}

#[test]
fn pieces_that_run_at_the_same_time_meet(rt: HostRuntime) {
    let gate = Rendezvous::new();
    join(&rt, || gate.enter(0), || gate.enter(1));
    assert!(rt; gate.met());
    gate.enter(0);
    gate.leave(0);
    gate.rest(1);
}

#[test]
fn pieces_one_after_another_do_not_meet(rt: HostRuntime) {
    let gate = Rendezvous::within(1000);
    gate.enter(0);
    gate.leave(0);
    gate.enter(1);
    gate.leave(1);
    gate.enter(0);
    assert!(rt; !gate.met());
}

#[test]
fn pairs_meet_each_time(rt: HostRuntime) {
    let gate = PairGate::new();
    for _ in 0..3 {
        join(&rt, || gate.enter(0), || gate.enter(1));
    }
    assert_eq!(rt; gate.met(), 3);
    gate.enter(2);
    gate.leave(0);
    gate.rest(1);
}

#[test]
fn pairs_one_after_another_do_not_meet(rt: HostRuntime) {
    let gate = PairGate::within(1000);
    for _ in 0..3 {
        gate.enter(0);
        gate.enter(1);
    }
    assert_eq!(rt; gate.met(), 0);
}

/// Rests while another thread waits for the rest and then sets the flag. Tells whether it saw one.
fn rest_until_set<R: Threads>(rt: &R, gate: &HoldGate) -> bool {
    join(
        rt,
        || gate.rest(1),
        || {
            let rested = gate.wait_rested();
            gate.set();
            rested
        },
    )
    .1
}

#[test]
fn a_rest_is_held_until_the_flag_is_set(rt: HostRuntime) {
    let gate = HoldGate::new();
    gate.enter(0);
    gate.leave(0);
    assert!(rt; rest_until_set(&rt, &gate));
    gate.rest(1);
    assert!(rt; gate.met());
}

#[test]
fn a_hold_gives_up_at_its_limit(rt: HostRuntime) {
    let gate = HoldGate::within(1000);
    assert!(rt; !gate.wait_rested());
    assert!(rt; gate.met());
    gate.rest(1);
    assert!(rt; !gate.met());
    assert!(rt; gate.wait_rested());
}
