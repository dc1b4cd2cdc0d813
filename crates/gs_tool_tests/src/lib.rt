//! Tests of the commands, each run as the program runs it, over files in memory. A crate with tests is proved twice,
//! so they stand in a crate of their own.
#![tactic(auto)]

#[cfg(test)]
mod audit;
#[cfg(test)]
mod generated;
#[cfg(test)]
mod order;
#[cfg(test)]
mod play;
#[cfg(test)]
mod reads;
#[cfg(test)]
mod running;
#[cfg(test)]
mod settle;
#[cfg(test)]
mod slots;
#[cfg(test)]
mod trace;
