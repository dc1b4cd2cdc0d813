//! Plans: the numbers of a network, checked, and the bounds on the skew that follow from them.
#![tactic(auto)]

pub use checking::check;
pub use edge::EdgeNumbers;
pub use fault::PlanFault;
pub use laws::{accepted_plans, weights_are_least_sums};
pub use plan::Plan;

mod bounds;
mod checking;
mod edge;
mod fault;
mod laws;
mod levels;
mod numbers;
mod plan;
mod shape;
