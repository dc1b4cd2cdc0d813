//! Tests of numbers, texts, beacons, networks, plans and scripts. A crate with tests is proved twice, so they
//! stand in a crate of their own.
#![tactic(auto)]

#[cfg(test)]
mod beacon;
#[cfg(test)]
mod plan;
#[cfg(test)]
mod plan_faults;
#[cfg(test)]
mod planfile;
#[cfg(test)]
mod script;
#[cfg(test)]
mod text;
#[cfg(test)]
mod topo;
#[cfg(test)]
mod units;
