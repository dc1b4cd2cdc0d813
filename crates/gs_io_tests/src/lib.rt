//! Tests of gates, clocks, crews, inlets and outlets, stores, views, words and stamps. A crate with tests is proved
//! twice, so they stand in a crate of their own.
#![tactic(auto)]

#[cfg(test)]
mod cli;
#[cfg(test)]
mod clock;
#[cfg(test)]
mod crew;
#[cfg(test)]
mod gate;
#[cfg(test)]
mod net;
#[cfg(test)]
mod stamp;
#[cfg(test)]
mod stamp_run;
#[cfg(test)]
mod view;
