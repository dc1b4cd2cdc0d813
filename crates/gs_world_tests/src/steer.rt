use gs_steer::decide;
use gs_units::{Link, Mode};

// Each case has the offset of the only neighbour, how far the clock is behind the maximum, and the
// mode.
#[test]
fn the_mode_is_by_the_triggers_and_then_by_the_maximum(rt: HostRuntime) {
    let links = [Link {
        node: 1,
        comp: 70_000,
        jump: 20_000,
        kappa: 122_529,
        delta: 61_264,
    }];
    let cases = [
        (0i64, 2201u32, Mode::Fast),
        (0, 2200, Mode::Slow),
        (61_265, 0, Mode::Fast),
        (61_264, 0, Mode::Slow),
        (-183_794, 2201, Mode::Slow),
        (-183_793, 2201, Mode::Fast),
    ];
    for (offset, behind, mode) in cases {
        let l = 1_000_000;
        let offsets = [i128::from(offset)];
        assert_eq!(rt;
            decide(&links, 2201, &offsets, l + u64::from(behind), l),
            mode,
            "{offset}"
        );
    }
    assert_eq!(rt; decide(&[], 2201, &[], 2201, 0), Mode::Fast);
    assert_eq!(rt; decide(&[], 2201, &[], 2200, 0), Mode::Slow);
}
