//! Settling: how long clocks that start apart take until the bounds of each level hold.
#![tactic(auto)]

pub use laws::runs_settle;
pub use settling::{Settled, settle};
pub use timing::times;

mod laws;
mod settling;
mod timing;
