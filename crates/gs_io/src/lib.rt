//! The outside as traits: files and sinks, which tell what they hold and count their faults, each
//! in memory for tests and over the real thing; and, from `gs_gate`, gates, at which a test can hold
//! a run. See `docs/MODEL.md`, "The outside".
#![tactic(auto)]

pub use failed::Failed;
pub use file_set::{FileStop, Files, MemFiles, OsFiles};
pub use gs_gate::{Gate, PlainGate};
pub use sinks::{MemSink, Sink, StdSink, write_lines};

mod failed;
mod file_set;
mod sinks;
#[cfg(test)]
mod tests;
