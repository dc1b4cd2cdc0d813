//! Tests of generated networks, of traces and boards, and of audits and records. A crate with tests is proved twice,
//! so they stand in a crate of their own.
#![tactic(auto)]

#[cfg(test)]
mod audit;
#[cfg(test)]
mod board;
#[cfg(test)]
mod generated;
#[cfg(test)]
mod record;
#[cfg(test)]
mod trace;
