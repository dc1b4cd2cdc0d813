//! External order: an event is stamped with the clock of its node when it begins, and finishes only after a
//! commit wait that no skew outlasts. So whatever begins after it has finished has a greater stamp, wherever it
//! is. The idea is the commit wait of Spanner (Corbett et al., OSDI 2012), with a bound that is proved in place
//! of one that is measured.
#![tactic(auto)]

pub use laws::commit_waits_order_events;
pub use ordering::order_run;
pub use pending::{Pending, begin, finish};
pub use timed::Timed;

mod laws;
mod ordering;
mod pending;
mod timed;
