//! The commands that `gradsync` does and ends: which command some words are, what it reads, what it
//! answers, and the run that writes the answer. See `docs/FORMATS.md`.
#![tactic(auto)]

pub use gs_cli::Status;
pub use tool::run_tool;

mod answers;
mod audited;
mod command;
mod generated;
mod order;
mod order_text;
mod plan_text;
mod settle;
mod settle_text;
mod slot_text;
mod slots;
mod tool;
mod trace_input;
mod tracing;
