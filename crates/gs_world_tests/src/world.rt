ghost use Rattle.std.specs.Prelude.{◌≡◌};

use gs_core::{Event, Incs};
use gs_plan::{Plan, check};
use gs_planfile::base;
use gs_units::Mode;
use gs_world::{MAX_QUANTA, Refused, World, reports_keep_bounds};
use std::alloc::{AllocError, Global};

/// An event of a line of two nodes.
#[derive(Clone, Copy)]
enum Step {
    Quantum(u32, u32),
    Tick(u32),
    Deliver(u32, u32, u64),
}

/// The beacon of a word as `0>1:7`: from node 0 to node 1, the seventh.
fn beacon_of(from: &str, rest: &str) -> Option<Step> {
    let (to, seq) = rest.split_once(':')?;
    let from = from.parse::<u32>().ok()?;
    let to = to.parse::<u32>().ok()?;
    let seq = seq.parse::<u64>().ok()?;
    Some(Step::Deliver(from, to, seq))
}

/// The quantum of a word as `10000/10001`.
fn quantum_of(first: &str, second: &str) -> Option<Step> {
    let first = first.parse::<u32>().ok()?;
    let second = second.parse::<u32>().ok()?;
    Some(Step::Quantum(first, second))
}

/// The event of a word: a quantum at the slowest rate, a tick, or one of those above.
fn step_of(word: &str) -> Option<Step> {
    if let Some((from, rest)) = word.split_once('>') {
        return beacon_of(from, rest);
    }
    if let Some((first, second)) = word.split_once('/') {
        return quantum_of(first, second);
    }
    match word {
        "slow" => Some(Step::Quantum(10_000, 10_000)),
        "tick0" => Some(Step::Tick(0)),
        "tick1" => Some(Step::Tick(1)),
        "tick2" => Some(Step::Tick(2)),
        _ => None,
    }
}

/// Adds a step so many times.
fn add(steps: &mut Vec<Step>, step: Step, times: u32) -> Result<(), AllocError> {
    for _ in 0..times {
        steps.push(step)?;
    }
    Ok(())
}

/// The steps of a line of words, of which each may have a number of times.
fn steps_of(alloc: Global, line: &str) -> Option<Vec<Step>> {
    let mut steps = Vec::new(alloc);
    for word in line.split_whitespace() {
        let (name, times) = word.split_once('*').unwrap_or((word, "1"));
        add(&mut steps, step_of(name)?, times.parse::<u32>().ok()?).ok()?;
    }
    Some(steps)
}

/// Takes a step in a world.
fn take(alloc: Global, world: &mut World<'_>, step: Step) -> Result<(), Refused> {
    match step {
        Step::Quantum(first, second) => match Vec::from_slice(alloc, &[first, second]) {
            Ok(incs) => world.step(&Event::Quantum(Incs::from_vec(incs))),
            Err(_) => Err(Refused::OutOfMemory),
        },
        Step::Tick(v) => world.step(&Event::Tick(v)),
        Step::Deliver(from, to, seq) => world.step(&Event::Deliver { from, to, seq }),
    }
}

/// What is seen of a world.
fn seen(world: &World<'_>) -> (u32, u64, u32) {
    (world.quanta(), world.global_skew(), world.fast_nodes())
}

/// Whether the first refusal of these steps is at this place, for this, and leaves the world as it was.
fn refuses(
    alloc: Global,
    world: &mut World<'_>,
    steps: &[Step],
    place: usize,
    why: Refused,
) -> bool {
    for (i, step) in steps.iter().enumerate() {
        let before = seen(world);
        if let Err(refused) = take(alloc, world, *step) {
            return i == place && refused == why && seen(world) == before;
        }
    }
    false
}

/// Whether no step is refused.
fn takes(alloc: Global, world: &mut World<'_>, steps: &[Step]) -> bool {
    for step in steps {
        if take(alloc, world, *step).is_err() {
            return false;
        }
    }
    true
}

/// Whether the world of two nodes that starts at readings 0 refuses so the first of these steps that it does.
fn is_refused(alloc: Global, plan: &Plan, line: &str, place: usize, why: Refused) -> bool {
    if plan.topo().nodes() != 2 {
        return false;
    }
    let Some(steps) = steps_of(alloc, line) else {
        return false;
    };
    match World::start(alloc, plan, &[0, 0], 0) {
        Ok(mut world) => refuses(alloc, &mut world, &steps, place, why),
        Err(_) => false,
    }
}

/// Whether it takes them all.
fn is_taken(alloc: Global, plan: &Plan, line: &str) -> bool {
    if plan.topo().nodes() != 2 {
        return false;
    }
    let Some(steps) = steps_of(alloc, line) else {
        return false;
    };
    match World::start(alloc, plan, &[0, 0], 0) {
        Ok(mut world) => takes(alloc, &mut world, &steps),
        Err(_) => false,
    }
}

/// Neither node hears the other, and both tick in time.
const DEAF: &str =
    "slow*100 tick0 tick1 slow*100 tick0 tick1 slow*100 tick0 tick1 slow*100 tick0 tick1 slow*13";

/// Node 0 hears node 1 once.
const HEARS_ONCE: &str =
    "slow*100 tick0 tick1 slow*2 1>0:1 slow*98 tick0 tick1 slow*100 tick0 tick1 slow*100 tick0 tick1 slow*13";

/// A tick is due 100 quanta after the last, and what was heard is stale 412 quanta after it was sent, or
/// after the start. Places count all steps, ticks and deliveries too.
#[test]
fn quanta_are_refused_in_order(rt: HostRuntime) {
    let alloc = rt.alloc();
    let Ok(plan) = check(alloc, &base(alloc, 2)) else {
        panic!(rt; "the plan is refused");
    };
    assert!(rt; is_taken(alloc, &plan, "10000/10001"));
    assert!(rt; is_refused(alloc, &plan, "10000/10002", 0, Refused::Drift(1)));
    assert!(rt; is_refused(alloc, &plan, "9999/10002", 0, Refused::Drift(0)));
    // An increment out of bounds comes before a tick that is due, and both ticks are due.
    assert!(rt; is_refused(alloc, &plan, "slow*100 10000/9999", 100, Refused::Drift(1)));
    assert!(rt; is_refused(alloc, &plan, "slow*101", 100, Refused::TickDue(0)));
    assert!(rt;
        is_refused(
            alloc,
            &plan,
            "slow*50 tick0 slow*51",
            101,
            Refused::TickDue(1)
        )
    );
    assert!(rt; is_refused(alloc, &plan, DEAF, 420, Refused::Stale(1, 0)));
    assert!(rt; is_refused(alloc, &plan, HEARS_ONCE, 421, Refused::Stale(0, 1)));
}

#[test]
fn deliveries_are_refused_in_order(rt: HostRuntime) {
    let alloc = rt.alloc();
    let Ok(plan) = check(alloc, &base(alloc, 2)) else {
        panic!(rt; "the plan is refused");
    };
    assert!(rt; is_refused(alloc, &plan, "tick2", 0, Refused::Shape));
    assert!(rt; is_refused(alloc, &plan, "0>2:1", 0, Refused::Shape));
    assert!(rt; is_refused(alloc, &plan, "2>1:1", 0, Refused::Shape));
    assert!(rt; is_refused(alloc, &plan, "0>0:1", 0, Refused::Shape));
    assert!(rt; is_refused(alloc, &plan, "0>1:1", 0, Refused::Unknown));
    assert!(rt; is_refused(alloc, &plan, "tick0 slow*2 0>1:0", 3, Refused::Unknown));
    assert!(rt; is_refused(alloc, &plan, "tick0 slow*2 0>1:2", 3, Refused::Unknown));
    assert!(rt; is_refused(alloc, &plan, "tick0 0>1:1", 1, Refused::Early));
    assert!(rt; is_refused(alloc, &plan, "tick0 slow 0>1:1", 2, Refused::Early));
    assert!(rt; is_taken(alloc, &plan, "tick0 slow*2 0>1:1"));
    assert!(rt; is_refused(alloc, &plan, "tick0 slow*13 0>1:1", 14, Refused::Late));
    // What was heard already may come at any time.
    assert!(rt; is_taken(alloc, &plan, "tick0 slow*12 0>1:1*2 slow*50 0>1:1"));
    assert!(rt; is_taken(alloc, &plan, "tick0*2 slow*2 0>1:2 slow*50 0>1:1"));
}

/// Whether a world takes all quanta, with a tick of node 0 in time.
fn takes_all_quanta(world: &mut World<'_>) -> bool {
    for t in 0..MAX_QUANTA {
        if t % 65_536 == 0 && world.step(&Event::Tick(0)).is_err() {
            return false;
        }
        if world.advance(&[10_000]).is_err() {
            return false;
        }
    }
    true
}

/// Whether it refuses one more.
fn is_at_the_end(world: &mut World<'_>) -> bool {
    let one_more = world.advance(&[10_000]);
    let of_two = world.advance(&[10_000, 10_000]);
    one_more == Err(Refused::End) && of_two == Err(Refused::Shape) && world.quanta() == MAX_QUANTA
}

/// Whether the world of one node takes its quanta and no more.
fn ends(alloc: Global, plan: &Plan) -> bool {
    if plan.topo().nodes() != 1 {
        return false;
    }
    match World::start(alloc, plan, &[0], 0) {
        Ok(mut world) => takes_all_quanta(&mut world) && is_at_the_end(&mut world),
        Err(_) => false,
    }
}

/// A world of one node takes all its quanta, where it ticks in time.
#[test]
fn a_world_takes_all_its_quanta_and_no_more(rt: HostRuntime) {
    let alloc = rt.alloc();
    let mut text = base(alloc, 1);
    text.tick = 65_536;
    text.age = 300_000;
    let Ok(plan) = check(alloc, &text) else {
        panic!(rt; "the plan is refused");
    };
    assert!(rt; ends(alloc, &plan));
}

/// Whether a world has come to the clocks at which node 1 catches up.
fn has_run(world: &World<'_>) -> bool {
    world.clocks() == [130_001, 30_022].as_slice()
        && (world.quanta(), world.global_skew()) == (3, 99_979)
}

/// Node 0 ticks, and node 1 hears it two quanta later.
fn is_heard(world: &mut World<'_>) -> bool
    ensures { world.new.plan ≡ world.old.plan }
{
    let sent = world.step(&Event::Tick(0)).is_ok();
    let first = world.advance(&[10_000, 10_001]).is_ok();
    let second = world.advance(&[10_000, 10_001]).is_ok();
    let beacon = Event::Deliver {
        from: 0,
        to: 1,
        seq: 1,
    };
    sent && first && second && world.step(&beacon).is_ok()
}

/// Whether node 1, which starts 100,000 clock units behind node 0, runs fast from the tick on that follows
/// a beacon.
fn runs_fast(alloc: Global, plan: &Plan) -> bool {
    if plan.topo().nodes() != 2 || plan.topo().edges().len() != 1 {
        return false;
    }
    let Ok(mut world) = World::start_each(alloc, plan, &[5, 7], &[100_000, 0]) else {
        return false;
    };
    let begun = (world.reading(0), world.reading(1)) == (5, 7)
        && (world.global_skew(), world.edge_skew(0)) == (100_000, 100_000);
    let heard = is_heard(&mut world) && world.fast_nodes() == 0;
    let ticked = world.step(&Event::Tick(1)).is_ok() && world.fast_nodes() == 1;
    let ran = world.advance(&[10_001, 10_000]).is_ok() && has_run(&world);
    let mut clocks = [0; 2];
    world.write_clocks(&mut clocks);
    let shown = (world.clock(0), world.clock(1)) == (130_001, 30_022)
        && clocks == [130_001, 30_022]
        && (world.mode(0), world.mode(1)) == (Mode::Slow, Mode::Fast);
    begun && heard && ticked && ran && shown
}

#[test]
fn a_node_behind_runs_fast(rt: HostRuntime) {
    let Ok(plan) = check(rt.alloc(), &base(rt.alloc(), 2)) else {
        panic!(rt; "the plan is refused");
    };
    assert!(rt; runs_fast(rt.alloc(), &plan));
    reports_keep_bounds();
}
