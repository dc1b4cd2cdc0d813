//! The levels of a plan: the potentials of clocks, the tally of their skews over a play, and its report.
#![tactic(auto)]

pub use gs_plan::weights_are_least_sums;
pub use gs_skew::{
    ClockRange, global_skew, levels_keep_bounds, potentials_are_skews, premises_can_be_met,
    skew_between,
};
pub use laws::edges_are_named;
pub use peak::{Peak, Peaks};
pub use potentials::potential;
pub use report::Report;
pub use tally::Tally;

mod laws;
mod peak;
mod potentials;
mod report;
mod report_text;
mod tally;
