//! The events of a script, in order: when the nodes of a plan tick and send, and what comes when. No clock
//! is in it: a script and its plan decide it all. And what holds of these events: nothing is refused but
//! stale quanta, and none is where few beacons are lost.
#![tactic(auto)]

pub use feed::Feed;
pub use laws::{few_losses_never_breach, scripts_are_calm};
pub use stop::PlayStop;

mod ahead;
mod feed;
mod laws;
mod round;
mod sending;
mod stop;
#[cfg(test)]
mod tests;
mod transit;
mod turn;
