//! One node of a play alone: its seat, its sleep and its turn. A seat sleeps until something happens to
//! its node, and needs nothing of the other nodes but the beacons that they hand over after a window of
//! quanta.
#![tactic(auto)]

pub use seat::{MAX_WINDOW, Seat};
pub use sent::SentBeacon;

mod heard;
mod mail;
mod seat;
mod sent;
mod sleeper;
#[cfg(test)]
mod tests;
mod transit;
mod ways;
