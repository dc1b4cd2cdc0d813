//! How far clocks are apart, and the laws of the levels: what bounds the clocks of a network keep that is
//! steered by the fast and slow conditions. Numbers and lists of clocks alone, without a plan or a node.
#![tactic(auto)]

pub use laws::{levels_keep_bounds, potentials_are_skews, premises_can_be_met};
pub use range::ClockRange;
pub use skew::{first_edge, global_skew, neighbour_skew, skew_between};

mod laws;
mod range;
mod skew;
