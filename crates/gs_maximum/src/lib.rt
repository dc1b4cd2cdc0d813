//! What a node knows of the greatest clock: a base that beacons raise and that creeps on between them.
#![tactic(auto)]

pub use laws::{lag_per_hop, never_ahead};
pub use maximum::Max;

mod laws;
mod maximum;
