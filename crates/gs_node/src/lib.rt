//! The daemon of a node: receivers, a responder and a timer beside each other over one board, and what is
//! known of all of it when they have stopped. See `docs/THEOREMS.md`, "Daemons".
#![tactic(auto)]

pub use ends::End;
pub use laws::completeness;
pub use serving::{Served, serve};

mod choosing;
mod ends;
mod finishing;
mod hands;
mod joins;
mod laws;
mod running;
mod seating;
mod serving;
mod starts;
#[cfg(test)]
mod tests;
#[cfg(test)]
mod tests_asked;
#[cfg(test)]
mod tests_star;
