//! The triggers of a node: whether some neighbour is so far ahead (fast) or behind (slow) that the node
//! has to follow it, and no neighbour on the other side is too far away to allow that. The idea is that of
//! Lenzen, Locher and Wattenhofer (JACM 2010) and of Kuhn, Lenzen, Locher and Oshman (PODC 2010); the
//! conditions are those of `docs/MODEL.md`, where each neighbour counts by its own link.
#![tactic(auto)]

pub use laws::trigger_laws;
pub use levels::{fast, slow};

mod laws;
mod levels;
mod trigger;
