//! The links of a node as traits: inlets, from which datagrams are taken, doors, which also answer,
//! outlets, to which they are sent, and the ports that lend all three and take them back; each in
//! memory, for tests. See `docs/MODEL.md`, "The outside".
#![tactic(auto)]

pub use inlets::{Door, Inlet};
pub use items::{Got, Item, LinkStop, Payload};
pub use lending::{Ask, Ports, Routes};
pub use mem_door::MemDoor;
pub use mem_inlet::MemInlet;
pub use mem_outlet::MemOutlet;
pub use mem_ports::{Held, MemPorts};
pub use outlets::Outlet;

mod calls;
mod inlets;
mod items;
mod lending;
mod mem_door;
mod mem_inlet;
mod mem_outlet;
mod mem_ports;
mod outlets;
mod returns;
mod shelf;
