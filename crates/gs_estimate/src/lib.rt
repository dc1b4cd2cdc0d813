//! What a node knows of its neighbours' clocks: the newest entry of each, and the offsets that these give.
#![tactic(auto)]

pub use laws::edge_error;
pub use slots::{Entry, Heard, Slots};

mod laws;
mod slots;
