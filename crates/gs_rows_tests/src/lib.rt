//! Tests of the pieces of a play, and of what is seen of it between its quanta: rows, orders, slots and settling.
//! A crate with tests is proved twice, so they stand in a crate of their own.
#![tactic(auto)]

#[cfg(test)]
mod order;
#[cfg(test)]
mod pieces;
#[cfg(test)]
mod rows;
#[cfg(test)]
mod settle;
#[cfg(test)]
mod slots;
