//! Tests of one node, of skews, levels and reports, and of worlds. A crate with tests is proved twice, so they
//! stand in a crate of their own.
#![tactic(auto)]

#[cfg(test)]
mod estimate;
#[cfg(test)]
mod level;
#[cfg(test)]
mod lookout;
#[cfg(test)]
mod maximum;
#[cfg(test)]
mod node;
#[cfg(test)]
mod run;
#[cfg(test)]
mod skew;
#[cfg(test)]
mod steer;
#[cfg(test)]
mod trigger;
#[cfg(test)]
mod world;
