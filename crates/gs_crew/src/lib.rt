//! Tasks that run beside their starter, and the crews that start them: threads, and for tests a crew
//! that refuses some starts. What is known of a task that comes back is its name and what its type
//! keeps. See `docs/MODEL.md`, "The outside".
#![tactic(auto)]

pub use crews::Crew;
pub use short_crew::ShortCrew;
pub use tasks::{Refused, Running, Task};
pub use thread_crew::ThreadCrew;

mod crews;
mod short_crew;
mod tasks;
mod thread_crew;
