//! Clocks that are read: in memory for tests, and the monotonic clock of the machine. A clock counts its
//! faults, and where it tells its readings, contracts know which one each call gives. See
//! `docs/MODEL.md`, "The outside".
#![tactic(auto)]

pub use clocks::Clock;
pub use in_memory::MemClock;
pub use monotonic::MonoClock;

mod clocks;
mod in_memory;
mod monotonic;
