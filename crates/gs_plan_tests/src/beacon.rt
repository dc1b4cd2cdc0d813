use gs_beacon::{
    Beacon, BeaconFault, LENGTH, decode, encode, numbers_in_bytes, spelling, u32_at, u64_at,
};
use std::test::Fail;

/// The beacon of cluster 7, sender 3, sequence 1, with clock and maximum 1000000.
const SPELLED: [u8; LENGTH] =
    *b"GCS1\0\0\0\x07\0\0\0\x03\0\0\0\0\0\0\0\0\0\0\0\x01\0\0\0\0\0\x0f\x42\x40\0\0\0\0\0\x0f\x42\x40";

/// These bytes with others at some places.
fn edited(edits: &[(usize, u8)]) -> [u8; LENGTH] {
    let mut bytes = SPELLED;
    for (place, byte) in edits.iter().copied() {
        if place < LENGTH {
            bytes[place] = byte;
        }
    }
    bytes
}

#[test]
fn a_beacon_is_spelled_and_read_back(rt: HostRuntime) -> Result<(), Fail> {
    let beacon = Beacon {
        cluster: 7,
        sender: 3,
        seq: 1,
        l: 1_000_000,
        m: 1_000_000,
    };
    assert_eq!(rt; encode(&beacon), SPELLED);
    assert_eq!(rt; decode(&SPELLED), Ok(beacon));
    Ok(())
}

#[test]
fn the_first_fault_of_a_beacon_is_named(rt: HostRuntime) {
    assert_eq!(rt; decode(&SPELLED[..39]), Err(BeaconFault::Length));
    assert_eq!(rt; decode(&[0; 41]), Err(BeaconFault::Length));
    let cases: [(&[(usize, u8)], BeaconFault); 9] = [
        (&[(0, 0x48)], BeaconFault::Magic),
        (&[(15, 1)], BeaconFault::Zero),
        (&[(12, 1)], BeaconFault::Zero),
        (&[(0, 0x48), (15, 1)], BeaconFault::Magic),
        (&[(23, 0)], BeaconFault::Sequence),
        (&[(39, 0x3f)], BeaconFault::Order),
        (&[(23, 0), (39, 0x3f)], BeaconFault::Sequence),
        (&[(24, 0x40), (32, 0x40)], BeaconFault::Far),
        (&[(24, 0x80), (32, 0x40)], BeaconFault::Order),
    ];
    for (edits, fault) in cases {
        assert_eq!(rt; decode(&edited(edits)), Err(fault), "at {edits:?}");
    }
}

#[test]
fn numbers_are_read_highest_byte_first(rt: HostRuntime) {
    let bytes = [0, 1, 2, 3, 4, 5, 6, 7, 8];
    assert_eq!(rt; u32_at(&bytes, 5), 0x0506_0708);
    assert_eq!(rt; u64_at(&bytes, 1), 0x0102_0304_0506_0708);
}

#[test]
fn laws_cost_nothing() {
    spelling();
    numbers_in_bytes();
}
