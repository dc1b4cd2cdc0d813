//! The player of scripts: it owns the nodes in pieces, takes each through a window of quanta, by threads where
//! that pays, and hands beacons over after it. It reports the skews of the clocks, and every play keeps the
//! bounds of its plan.
#![tactic(auto)]

pub use gs_calendar::{Feed, PlayStop, few_losses_never_breach, scripts_are_calm};
pub use laws::scripts_keep_bounds;
pub use playing::play;

mod gathering;
mod handing;
mod laws;
mod load;
mod player;
mod playing;
mod running;
mod staleness;
mod starting;
#[cfg(test)]
mod tests;
mod totals;
mod window;
