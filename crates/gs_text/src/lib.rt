//! Plain decimals, read from bytes, and texts, written word by word.
#![tactic(auto)]

pub use number::read_u64;
pub use writing::Lines;

mod number;
mod writing;
