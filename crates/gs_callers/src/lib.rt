//! The callers of a node's board: receivers, which take the datagrams of one neighbour each and deliver
//! their beacons, and the timer, which ticks, sends and publishes. What is known of one of them when it
//! has stopped is what its values keep. See `docs/ARCHITECTURE.md`.
#![tactic(auto)]

pub use listening::{Left, Listening, ReceiverName};
pub use receiver::{Receiver, Refusal, Stop};
pub use timer::{TimerStop, run_turns};
pub use wanting::wanted_beacon;

mod listening;
mod receiver;
mod rooms;
mod sending;
#[cfg(test)]
mod tests;
mod timer;
mod wanting;
