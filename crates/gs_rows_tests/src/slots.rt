use gs_plan::{Plan, check};
use gs_planfile::base;
use gs_tdma::{SlotFault, slots, slots_never_collide};
use std::alloc::Global;

/// Whether a plan has no slots of this reach and length, for this reason.
fn is_refused(alloc: Global, plan: &Plan, reach: u32, slot: u64, wanted: SlotFault) -> bool {
    match slots(alloc, plan, reach, slot) {
        Ok(_) => false,
        Err(fault) => fault == wanted,
    }
}

/// Whether the slots of two nodes are the shortest that have room for their guards, and each node may send
/// in the middle of its own alone.
fn send_off_their_guards(alloc: Global, plan: &Plan) -> bool {
    if plan.topo().nodes() != 2 {
        return false;
    }
    let Ok(slots) = slots(alloc, plan, 1, 103_127) else {
        return false;
    };
    let may_send = [
        slots.may_send(0, 51_562),
        slots.may_send(0, 51_563),
        slots.may_send(0, 51_564),
        slots.may_send(1, 154_690),
    ];
    slots.guard() == 51_563
        && slots.slot() == 103_127
        && slots.colours() == 2
        && may_send == [false, true, false, true]
}

#[test]
fn a_slot_is_longer_than_its_guards(rt: HostRuntime) {
    let alloc = rt.alloc();
    let Ok(plan) = check(alloc, &base(alloc, 2)) else {
        panic!(rt; "the plan is refused");
    };
    assert!(rt; is_refused(alloc, &plan, 1, 103_126, SlotFault::Slot));
    assert!(rt; is_refused(alloc, &plan, 1, 281_474_976_710_656, SlotFault::Slot));
    assert!(rt; is_refused(alloc, &plan, 0, 103_126, SlotFault::Reach));
    assert!(rt; is_refused(alloc, &plan, 5, 200_000, SlotFault::Reach));
    assert!(rt; send_off_their_guards(alloc, &plan));
    slots_never_collide();
}

/// Whether the slots over two steps of a line have three colours, and the guard of level 1.
fn take_three_colours(alloc: Global, plan: &Plan) -> bool {
    if plan.topo().nodes() != 33 {
        return false;
    }
    let Ok(slots) = slots(alloc, plan, 2, 1_000_000) else {
        return false;
    };
    let first = slots.next(0, 0);
    let second = slots.next(0, 674_224);
    slots.colours() == 3
        && slots.guard() == 325_776
        && first == Some(325_776)
        && second == Some(3_325_776)
}

/// Over two steps the bound of level 1 is less than that of level 0, and nodes two apart have two colours.
#[test]
fn reach_of_two_steps_takes_three_colours(rt: HostRuntime) {
    let alloc = rt.alloc();
    match check(alloc, &base(alloc, 33)) {
        Ok(plan) => assert!(rt; take_three_colours(alloc, &plan)),
        Err(_) => panic!(rt; "the plan is refused"),
    }
}
