ghost use Rattle.std.specs.Prelude.{◌≡◌, ◌≤◌, [], ◌∷◌, IfOk};
ghost use Rattle.gs_units.specs.Params.{AreValid};
ghost use Rattle.gs_beacon.specs.Beacons.{IsBeacon};

use gs_beacon::Beacon;
use gs_core::{Core, CoreFault, Heard, Incs, NodeEvent, Reply, Ticked, replay_laws};
use gs_units::{END, Link, Links, Mode, NodeParams, Rate};
use std::alloc::{AllocError, Global};
use std::test::Fail;

/// Node 0 of a pair of nodes in cluster 7, which sends a beacon at every `every`-th tick.
fn pair(alloc: Global, rate: Rate, every: u32) -> Result<NodeParams, AllocError>
    requires { 1 ≤ every }
    ensures valid { IfOk result AreValid }
    ensures same { IfOk result (λ p. p ≡ record {
      cluster = 7;
      node = 0;
      links = record { node = 1; comp = 70000; jump = 20000; kappa = 122529; delta = 61264 } ∷ [];
      rate = rate;
      iota = 2201;
      every = every;
    }) }
{
    let link = Link {
        node: 1,
        comp: 70_000,
        jump: 20_000,
        kappa: 122_529,
        delta: 61_264,
    };
    Ok(NodeParams {
        cluster: 7,
        node: 0,
        links: Links::from_vec([link].to_vec(alloc)?),
        rate,
        iota: 2_201,
        every,
    })
}

/// A beacon whose maximum is this far below the greatest one that there is, and whose clock is so far
/// behind its maximum.
fn beacon(cluster: u32, sender: u32, below_end: u32, behind: u32) -> Beacon
    ensures { IsBeacon result }
{
    let m = END - 1 - u64::from(below_end);
    Beacon {
        cluster,
        sender,
        seq: 1,
        l: m - u64::from(behind),
        m,
    }
}

/// The clock and the maximum at the last reading.
fn values(core: &Core) -> (u64, u64) {
    let last = core.last();
    (core.clock(last), core.maximum(last))
}

/// Node 0 starts at reading 0 with the clock 0, hears node 1 at 1020000 and ticks at 2000000.
#[test]
fn hears_a_neighbour_and_ticks(rt: HostRuntime) -> Result<(), Fail> {
    let rate = Rate::new(10_000, 10_001, 2_000)?;
    let mut core = Core::start(rt.alloc(), pair(rt.alloc(), rate, 1)?, 0, 0)?;
    for (later, answer) in [(1u32, Heard::Fresh), (1, Heard::Old), (0, Heard::Old)] {
        let told = Beacon {
            cluster: 7,
            sender: 1,
            seq: 1 + u64::from(later),
            l: 1_000_100,
            m: 1_000_100,
        };
        assert_eq!(rt; core.deliver(&told, 1_020_000), Ok(answer));
        assert_eq!(rt; values(&core), (1_020_000, 1_020_100));
    }

    let reply = Ticked {
        l: 2_000_000,
        m: 2_000_002,
        mode: Mode::Slow,
        beacon: Some(Beacon {
            cluster: 7,
            sender: 0,
            seq: 1,
            l: 2_000_000,
            m: 2_000_002,
        }),
    };
    assert_eq!(rt; core.tick(2_000_000), Ok(reply));
    assert_eq!(rt; values(&core), (2_000_000, 2_000_002));
    assert_eq!(rt; core.mode(), Mode::Slow);
    assert_eq!(rt; core.params().node, 0);
    Ok(())
}

/// An offset of 70000 is above the delta of the link, so the fast trigger holds.
#[test]
fn is_fast_behind_a_neighbour(rt: HostRuntime) -> Result<(), Fail> {
    let rate = Rate::new(10_000, 10_001, 2_000)?;
    let mut core = Core::start(rt.alloc(), pair(rt.alloc(), rate, 1)?, 0, 0)?;
    let told = Beacon {
        cluster: 7,
        sender: 1,
        seq: 1,
        l: 10_000,
        m: 10_000,
    };
    assert_eq!(rt; core.deliver(&told, 10_000), Ok(Heard::Fresh));
    assert_eq!(rt; core.tick(10_000)?.mode, Mode::Fast);
    assert_eq!(rt; core.tick(20_000)?.l, 20_020);
    Ok(())
}

#[test]
fn a_beacon_is_refused_by_the_first_cause_in_order(rt: HostRuntime) -> Result<(), Fail> {
    let rate = Rate::new(10_000, 10_001, 2_000)?;
    let mut core = Core::start(rt.alloc(), pair(rt.alloc(), rate, 1)?, 1_000, 1_000)?;
    let fell = CoreFault::Backward {
        last: 1_000,
        now: 999,
    };
    // Each case has the beacon's cluster and sender, how far its maximum is below the greatest one and
    // its clock behind it, the reading, and the answer.
    let cases = [
        (8, 2, 0, 0, 999, Err(CoreFault::Cluster)),
        (7, 2, 0, 0, 999, Err(CoreFault::Stranger(2))),
        (7, 0, 0, 0, 999, Err(CoreFault::Stranger(0))),
        (7, 1, 0, 0, 999, Err(fell)),
        (7, 1, 0, 0, END, Err(CoreFault::Far)),
        (7, 1, 69_999, 0, 1_000, Err(CoreFault::Ahead)),
        (7, 1, 19_999, 50_001, 1_000, Err(CoreFault::Ahead)),
        (7, 1, 20_000, 50_000, 1_000, Ok(Heard::Fresh)),
        (7, 1, 20_000, 50_000, 1_000, Ok(Heard::Old)),
    ];
    for (cluster, sender, below_end, behind, now, answer) in cases {
        let told = beacon(cluster, sender, below_end, behind);
        assert_eq!(rt;
            core.deliver(&told, now),
            answer,
            "{cluster} {sender} {below_end} {now}"
        );
    }
    // The maximum is now the greatest one, and a creep of 2 adds 1.
    for (now, fault) in [
        (999, Some(fell)),
        (END, Some(CoreFault::Far)),
        (1_002, Some(CoreFault::Far)),
        (1_001, None),
    ] {
        assert_eq!(rt; core.tick(now).err(), fault, "at {now}");
    }
    Ok(())
}

#[test]
fn refuses_a_clock_at_the_end(rt: HostRuntime) -> Result<(), Fail> {
    let rate = Rate::new(10_000, 10_001, 2_000)?;
    let mut core = Core::start(rt.alloc(), pair(rt.alloc(), rate, 1)?, 0, END - 1)?;
    assert_eq!(rt; core.tick(1), Err(CoreFault::Far));
    assert_eq!(rt; values(&core), (END - 1, END - 1));
    Ok(())
}

#[test]
fn sends_a_beacon_at_every_second_tick(rt: HostRuntime) -> Result<(), Fail> {
    let rate = Rate::new(10_000, 10_001, 2_000)?;
    let mut core = Core::start(rt.alloc(), pair(rt.alloc(), rate, 2)?, 0, 0)?;
    for (now, seq) in [
        (1_000, None),
        (2_000, Some(1)),
        (3_000, None),
        (4_000, Some(2)),
    ] {
        let told = core.tick(now)?.beacon.map(|told| told.seq);
        assert_eq!(rt; told, seq, "at {now}");
    }
    Ok(())
}

#[test]
fn a_step_is_a_tick_or_a_delivery(rt: HostRuntime) -> Result<(), Fail> {
    let rate = Rate::new(10_000, 10_001, 2_000)?;
    let mut core = Core::start(rt.alloc(), pair(rt.alloc(), rate, 2)?, 0, 0)?;
    assert_eq!(rt; core.newest(0), 0);
    let told = NodeEvent::Deliver {
        hw: 1_020_000,
        beacon: beacon(7, 1, 100_000, 0),
    };
    let silent = Ticked {
        l: 1_020_000,
        m: END - 80_001,
        mode: Mode::Fast,
        beacon: None,
    };
    let fell = CoreFault::Backward {
        last: 1_020_000,
        now: 999,
    };
    for (event, answer) in [
        (told, Ok(Reply::Heard(Heard::Fresh))),
        (told, Ok(Reply::Heard(Heard::Old))),
        (NodeEvent::Tick { hw: 1_020_000 }, Ok(Reply::Ticked(silent))),
        (NodeEvent::Tick { hw: 999 }, Err(fell)),
    ] {
        assert_eq!(rt; core.step(&event), answer);
    }
    Ok(())
}

#[test]
fn replays_go_on_by_law(_rt: HostRuntime) {
    replay_laws();
}

#[test]
fn a_copy_goes_on_alike(rt: HostRuntime) -> Result<(), Fail> {
    let rate = Rate::new(10_000, 10_001, 2_000)?;
    let mut core = Core::start(rt.alloc(), pair(rt.alloc(), rate, 1)?, 1_000, 2_000)?;
    let mut copy = Core::start(rt.alloc(), pair(rt.alloc(), rate, 1)?, 5, 5)?;
    copy.copy_from(&core);
    assert_eq!(rt; copy.last(), 1_000);
    assert_eq!(rt; values(&copy), (2_000, 2_000));
    assert_eq!(rt; copy.tick(3_000), core.tick(3_000));
    Ok(())
}

#[test]
fn increments_keep_their_order(rt: HostRuntime) -> Result<(), Fail> {
    let incs = Incs::from_vec([10_001, 10_000].to_vec(rt.alloc())?);
    assert_eq!(rt; incs.as_slice(), [10_001, 10_000].as_slice());
    Ok(())
}

#[test]
fn faults_have_their_words(rt: HostRuntime) -> Result<(), Fail> {
    let fell = CoreFault::Backward {
        last: 1_000,
        now: 999,
    };
    for (fault, words) in [
        (CoreFault::Cluster, "cluster"),
        (CoreFault::Stranger(4_294_967_295), "stranger 4294967295"),
        (fell, "backward 1000 999"),
        (CoreFault::Far, "far"),
        (CoreFault::Ahead, "ahead"),
    ] {
        let text = fault.to_string(rt.alloc())?;
        assert_eq!(rt; text.as_str(), words);
    }
    Ok(())
}
