//! The command `stamp`: stamps from a store, one line each. See `docs/FORMATS.md`, "Stamps".
#![tactic(auto)]

pub use run::{StampEnd, run_stamp};

mod issuing;
mod lines;
mod run;
mod words;
