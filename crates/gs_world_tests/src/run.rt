use gs_run::{
    Refused, clocks_never_fall, nodes_are_replayed, plans_have_numbers, plans_keep_bounds,
    refusals_are_named, runs_are_bounded, runs_keep_the_budget,
};
use std::test::Fail;

#[test]
fn refusals_have_their_words(rt: HostRuntime) -> Result<(), Fail> {
    for (refused, words) in [
        (Refused::Shape, "shape"),
        (Refused::End, "end"),
        (Refused::Drift(0), "drift 0"),
        (Refused::TickDue(4_294_967_295), "due 4294967295"),
        (Refused::Stale(7, 12), "stale 7 12"),
        (Refused::Unknown, "unknown"),
        (Refused::Early, "early"),
        (Refused::Late, "late"),
        (Refused::OutOfMemory, "out of memory"),
    ] {
        let text = refused.to_string(rt.alloc())?;
        assert_eq!(rt; text.as_str(), words);
    }
    Ok(())
}

#[test]
fn laws_cost_nothing(_rt: HostRuntime) {
    plans_keep_bounds();
    refusals_are_named();
    clocks_never_fall();
    runs_are_bounded();
    runs_keep_the_budget();
    nodes_are_replayed();
    plans_have_numbers();
}
