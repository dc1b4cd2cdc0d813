//! The links of a node over UDP (RFC 768) on 127.0.0.1, and nowhere else. A receive waits for at most
//! 20 milliseconds, so that a thread which does nothing else can still be stopped. What the links do
//! with a socket is proved over any socket that tells what it takes and gives; those of the kernel
//! tell nothing: a datagram may be lost, repeated or late. See `docs/MODEL.md`, "The outside".
#![tactic(auto)]

pub use socket_door::SocketDoor;
pub use socket_inlet::SocketInlet;
pub use socket_outlet::SocketOutlet;
pub use sockets::Socket;
pub use udp_ports::{UdpDoor, UdpInlet, UdpOutlet, UdpPorts};

mod socket_door;
mod socket_inlet;
mod socket_outlet;
mod sockets;
#[cfg(test)]
mod tests;
mod udp_ports;
