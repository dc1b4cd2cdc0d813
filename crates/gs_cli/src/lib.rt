//! What the commands of the program share: the numbers that words spell, the exit statuses, and an answer
//! with its writing. See `docs/FORMATS.md`, "Commands", "Statuses" and "Fault lines".
#![tactic(auto)]

pub use reply::Reply;
pub use status::Status;
pub use stop::Stop;
pub use word::number_within;

mod reply;
mod status;
mod stop;
mod word;
