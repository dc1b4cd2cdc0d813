//! The mode of a node, decided by the two triggers and by how far its clock is behind the maximum.
#![tactic(auto)]

pub use laws::mode_laws;
pub use steer::{decide, follow_maximum};

mod laws;
mod steer;
