//! A network of nodes in one place: true hardware readings, the states of all nodes and all beacons ever
//! sent. Events move it where the bounds of its plan allow them. See `docs/MODEL.md`, "The rules of the
//! world".
#![tactic(auto)]

pub use gs_run::{
    Refused, clocks_never_fall, nodes_are_replayed, plans_have_numbers, plans_keep_bounds,
    refusals_are_named, runs_are_bounded, runs_keep_the_budget,
};
pub use laws::reports_keep_bounds;
pub use world::{MAX_QUANTA, World};

mod clocks;
mod deadlines;
mod delay;
mod laws;
mod member;
mod quantum;
mod sent;
mod world;
