//! Rates of clocks, modes and the parameters of a node: the numbers that every other crate speaks of.
#![tactic(auto)]

pub use laws::growth;
pub use params::{Link, Links, NodeParams};
pub use rate::{END, Mode, Rate, RateFault};

mod laws;
mod params;
mod rate;
