use gs_skew::{
    ClockRange, first_edge, global_skew, levels_keep_bounds, neighbour_skew, potentials_are_skews,
    premises_can_be_met, skew_between,
};
use gs_topo::Topology;
use std::test::Fail;

#[test]
fn skews_are_the_greatest_differences(rt: HostRuntime) -> Result<(), Fail> {
    let clocks = [3, 9, 5];
    assert_eq!(rt; (global_skew(&clocks), global_skew(&[])), (6, 0));
    assert_eq!(rt;
        (skew_between(&clocks, 0, 2), skew_between(&clocks, 1, 2)),
        (2, 4)
    );
    let mut range = ClockRange::of(5);
    range.add(3);
    range.add(9);
    assert_eq!(rt; range.width(), 6);
    let line = Topology::new(rt.alloc(), 3, &[(0, 2), (1, 2)])?;
    if line.nodes() == 3 {
        assert_eq!(rt; neighbour_skew(&line, &clocks), 4);
        assert_eq!(rt; first_edge(&line, &clocks, 4), Some((1, 2)));
        assert_eq!(rt; first_edge(&line, &clocks, 6), None);
    }
    Ok(())
}

#[test]
fn laws_cost_nothing(_rt: HostRuntime) {
    levels_keep_bounds();
    premises_can_be_met();
    potentials_are_skews();
}
