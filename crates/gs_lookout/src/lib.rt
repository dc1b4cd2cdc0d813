//! The tally of a play that looks at a row of clocks only where the row may raise it: no quantum lets two
//! clocks move apart by more than a plan allows, so most rows are known to be within what was seen.
#![tactic(auto)]

pub use lookout::Lookout;

mod apart;
mod lookout;
