//! The judges of traces: an audit of the events of a world, and a replay of those of one node. Each answers
//! what the events come to, or the first that is not allowed and why. See `docs/THEOREMS.md`.
#![tactic(auto)]

pub use audits::{audit, audit_scan};
pub use replays::{replay, replay_scan};
pub use verdict::{NodeVerdict, Verdict};

mod auditing;
mod audits;
mod replaying;
mod replays;
mod verdict;
