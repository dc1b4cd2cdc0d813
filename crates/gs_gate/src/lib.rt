//! Gates: what the threads of a run pass, so that a test can hold them there. No contract speaks of
//! one. See `docs/MODEL.md`, "The outside".
#![tactic(auto)]

pub use gates::{Gate, PlainGate};

mod gates;
