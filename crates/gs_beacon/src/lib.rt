//! The beacons that nodes send to their neighbours, and their one spelling in 40 bytes; and the numbers in
//! bytes of all formats.
#![tactic(auto)]

pub use beacon::{Beacon, BeaconFault, decode, encode};
pub use laws::{numbers_in_bytes, spelling};
pub use layout::LENGTH;
pub use number::{u32_at, u64_at};

mod beacon;
mod laws;
mod layout;
mod number;
