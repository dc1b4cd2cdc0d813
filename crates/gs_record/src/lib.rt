//! The trace of a script, written event by event while it is played: in memory that does not grow with the
//! trace. See `docs/FORMATS.md`, "The trace of a world".
#![tactic(auto)]

pub use record::{RecordStop, record_script};

mod record;
