use gs_maximum::Max;
use gs_units::Rate;
use std::test::Fail;

/// Node 0 of a pair of nodes starts at reading 0 with the clock 0, and hears the maximum 1000100 of
/// node 1, which is raised by 20000 for its way.
#[test]
fn keeps_the_greatest_maximum(rt: HostRuntime) -> Result<(), Fail> {
    let rate = Rate::new(10_000, 10_001, 2_000)?;
    let mut max = Max { base: 0, at: 0 };
    assert_eq!(rt; max.value(&rate, 1_020_000, 1_020_000), 1_020_000);

    max.hear(&rate, 1_020_100, 1_020_000);
    let heard = Max {
        base: 1_020_100,
        at: 1_020_000,
    };
    assert_eq!(rt; max, heard);
    assert_eq!(rt; max.value(&rate, 1_020_000, 1_020_000), 1_020_100);

    // Its creep to this reading is 980000 * 10000 / 10001, rounded down to 979902.
    assert_eq!(rt; max.value(&rate, 2_000_000, 2_000_000), 2_000_002);
    max.hear(&rate, 2_000_002, 2_000_000);
    assert_eq!(rt; max, heard);
    max.hear(&rate, 2_000_003, 2_000_000);
    assert_eq!(rt;
        max,
        Max {
            base: 2_000_003,
            at: 2_000_000
        }
    );
    Ok(())
}
