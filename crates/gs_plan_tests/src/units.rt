use gs_units::{END, Link, Links, Mode, NodeParams, Rate, RateFault, growth};
use std::alloc::Global;
use std::test::Fail;

#[test]
fn each_fault_has_its_words(rt: HostRuntime) -> Result<(), Fail> {
    for (fault, words) in [
        (RateFault::Low, "low"),
        (RateFault::High, "high"),
        (RateFault::Boost, "boost"),
    ] {
        assert_eq!(rt; fault.to_string(rt.alloc())?.as_str(), words);
    }
    Ok(())
}

#[test]
fn rates_are_refused_in_order(rt: HostRuntime) {
    for (lo, hi, mu, fault) in [
        (0, 0, 0, Some(RateFault::Low)),
        (1, 1, 0, Some(RateFault::High)),
        (1, 0, 1, Some(RateFault::High)),
        (1, (1 << 30) + 1, 1, Some(RateFault::High)),
        (1, 2, 0, Some(RateFault::Boost)),
        (1, 2, 100_001, Some(RateFault::Boost)),
        (1, 2, 1, None),
        ((1 << 30) - 1, 1 << 30, 100_000, None),
    ] {
        assert_eq!(rt; Rate::new(lo, hi, mu).err(), fault, "of {lo} {hi} {mu}");
    }
}

/// The numbers of a rate with a drift of 100 parts per million, worked out by hand.
#[test]
fn a_rate_has_its_numbers(rt: HostRuntime) {
    let rate = Rate::new(10_000, 10_001, 2_000).expect(&rt, "it is accepted");
    assert_eq!(rt; (rate.lo(), rate.hi(), rate.mu()), (10_000, 10_001, 2_000));
    assert_eq!(rt; (rate.r(), rate.q(), rate.g()), (1, 20, 9_999));
    assert_eq!(rt; (rate.top(), rate.sigma()), (10_022, 20));
    assert_eq!(rt; (rate.boost(499), rate.boost(500)), (0, 1));
    assert_eq!(rt; rate.boost(END - 1), 9_223_372_036_854_775);
    assert_eq!(rt; (rate.creep(980_000), rate.creep(0)), (979_902, 0));
    assert_eq!(rt; rate.creep(1 << 33), 8_589_075_684);
    assert_eq!(rt;
        (rate.steer(Mode::Slow, 1_000), rate.steer(Mode::Fast, 1_000)),
        (1_000, 1_002)
    );
}

#[test]
fn laws_cost_nothing() {
    growth();
}

fn link(node: u32) -> Link {
    Link {
        node,
        comp: 70_000,
        jump: 20_000,
        kappa: 122_529,
        delta: 61_264,
    }
}

/// Node 1 between the nodes 0 and `last` of cluster 7.
fn params(alloc: Global, last: u32) -> Result<NodeParams, Fail> {
    Ok(NodeParams {
        cluster: 7,
        node: 1,
        links: Links::from_vec([link(0), link(last)].to_vec(alloc)?),
        rate: Rate::new(10_000, 10_001, 2_000)?,
        iota: 2_201,
        every: 1,
    })
}

#[test]
fn links_keep_their_order(rt: HostRuntime) -> Result<(), Fail> {
    let params = params(rt.alloc(), 2)?;
    assert_eq!(rt; params.links.as_slice(), [link(0), link(2)].as_slice());
    Ok(())
}

#[test]
fn copies_are_equal_and_others_are_not(rt: HostRuntime) -> Result<(), Fail> {
    let one = params(rt.alloc(), 2)?;
    let other = params(rt.alloc(), 3)?;
    let copy = one.copy(rt.alloc())?;
    assert!(rt; copy == one && copy.links == one.links);
    assert!(rt; other != one && other.links != one.links);
    Ok(())
}
