//! Generated networks: the plan of a ring, and a script for it whose drifts, gaps and delays are drawn from
//! the generator PCG32 of a number. The texts are functions of number and size: `docs/FORMATS.md`,
//! "Generated runs".
#![tactic(auto)]

pub use plan::plan_text;
pub use script::script_text;

mod draws;
mod plan;
mod records;
mod script;
