//! Runs of a network of nodes, as data: the numbers of a plan as functions of nodes, what an event does to
//! the world and why it is not allowed, and the laws of all allowed runs: how far clocks can be apart, and
//! that a node is the replay of what it saw. See `docs/MODEL.md`, "The rules of the world".
#![tactic(auto)]

pub use laws::{
    clocks_never_fall, nodes_are_replayed, plans_keep_bounds, refusals_are_named, runs_are_bounded,
    runs_keep_the_budget,
};
pub use plans::plans_have_numbers;
pub use refused::Refused;

mod laws;
mod plans;
mod refused;
