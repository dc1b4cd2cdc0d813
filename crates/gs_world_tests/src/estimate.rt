use gs_estimate::{Entry, Heard, Slots};
use std::test::Fail;

/// Node 0 of a pair of nodes starts at reading 0 with the clock 0, and hears node 1.
#[test]
fn keeps_the_newest_beacon(rt: HostRuntime) -> Result<(), Fail> {
    let mut slots = Slots::new(rt.alloc(), 1, 0, 0)?;
    let start = Entry {
        seq: 0,
        value: 0,
        at: 0,
    };
    assert_eq!(rt; *slots.entry(0), start);
    assert_eq!(rt; slots.as_slice(), [start].as_slice());

    let newest = Entry {
        seq: 2,
        value: 1_070_100,
        at: 1_020_000,
    };
    assert_eq!(rt; slots.hear(0, 2, 1_070_100, 1_020_000), Heard::Fresh);
    assert_eq!(rt; slots.hear(0, 2, 1_070_100, 1_020_000), Heard::Old);
    assert_eq!(rt; slots.hear(0, 1, 1_070_000, 1_030_000), Heard::Old);
    assert_eq!(rt; *slots.entry(0), newest);

    assert_eq!(rt; slots.offset(0, 1_020_000, 1_020_000), 50_100);
    let mut offsets = [0];
    slots.write_offsets(2_000_000, 2_000_000, &mut offsets);
    assert_eq!(rt; offsets, [50_100]);

    let mut copy = Slots::new(rt.alloc(), 1, 7, 7)?;
    copy.copy_from(&slots);
    assert_eq!(rt; *copy.entry(0), newest);
    Ok(())
}
