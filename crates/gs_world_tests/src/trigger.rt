ghost use Rattle.std.specs.Prelude.{◌≡◌};

use gs_trigger::{fast, slow};
use gs_units::Link;

fn link(kappa: u64, delta: u64) -> Link
    ensures { (result.kappa ≡ kappa) × (result.delta ≡ delta) }
{
    Link {
        node: 1,
        comp: 0,
        jump: 0,
        kappa,
        delta,
    }
}

// Each case has the offsets, and the levels of the fast and of the slow trigger.

#[test]
fn one_neighbour_decides_alone_and_none_never(rt: HostRuntime) {
    assert_eq!(rt; (fast(&[], &[]), slow(&[], &[])), (None, None));
    let links = [link(122_529, 61_264)];
    let cases = [
        (61_265i64, Some(1u64), None),
        (61_264, None, None),
        (-183_793, None, None),
        (-183_794, None, Some(1u64)),
    ];
    for (offset, ahead, behind) in cases {
        let offsets = [i128::from(offset)];
        assert_eq!(rt;
            (fast(&links, &offsets), slow(&links, &offsets)),
            (ahead, behind),
            "at {offset}"
        );
    }
}

#[test]
fn one_neighbour_keeps_the_other(rt: HostRuntime) {
    let links = [link(122_529, 61_264), link(122_529, 61_264)];
    let cases = [
        (61_265i64, -183_793i64, Some(1u64), None),
        (61_265, -183_794, None, Some(1u64)),
        (-183_794, 306_322, None, Some(1)),
        (306_323, -183_794, Some(2), None),
    ];
    for (a, b, ahead, behind) in cases {
        let offsets = [i128::from(a), i128::from(b)];
        assert_eq!(rt;
            (fast(&links, &offsets), slow(&links, &offsets)),
            (ahead, behind),
            "at {a} {b}"
        );
    }
}

#[test]
fn each_link_counts_by_its_own_kappa_and_delta(rt: HostRuntime) {
    let links = [link(100, 10), link(1000, 100)];
    let cases = [
        (90i64, 0i64, Some(1u64), None),
        (89, 0, None, None),
        (290, -1101, Some(2), None),
        (289, -1101, None, None),
        (-190, 0, None, Some(1u64)),
        (211, -1900, None, None),
        (211, -3900, None, Some(2)),
    ];
    for (a, b, ahead, behind) in cases {
        let offsets = [i128::from(a), i128::from(b)];
        assert_eq!(rt;
            (fast(&links, &offsets), slow(&links, &offsets)),
            (ahead, behind),
            "at {a} {b}"
        );
    }
}
