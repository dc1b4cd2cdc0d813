//! Gates for tests, which hold a run until its threads stand where the test wants them, and one that
//! counts. No contract speaks of them. See `docs/MODEL.md`, "The outside".
#![tactic(auto)]

pub use counting::CountGate;
pub use holding::HoldGate;
pub use meeting::Rendezvous;
pub use pairing::PairGate;

mod counting;
mod holding;
mod meeting;
mod pairing;
#[cfg(test)]
mod tests;
mod waiting;
