ghost use Rattle.std.specs.Prelude.{◌≡◌, ◌<◌, ◌≤◌, None};
ghost use Rattle.gs_io.specs.Causes.{Rose, counted};

use crate::socket_door::SocketDoor;
use crate::socket_inlet::SocketInlet;
use crate::socket_outlet::SocketOutlet;
use crate::sockets::bound;
use gs_net::{LinkStop, Ports};
use std::alloc::Global;
use std::net::{Net, UdpSocket};

/// An inlet at a UDP port of 127.0.0.1.
pub type UdpInlet = SocketInlet<UdpSocket>;

/// An outlet to UDP ports of 127.0.0.1.
pub type UdpOutlet = SocketOutlet<UdpSocket>;

/// A door at a UDP port of 127.0.0.1.
pub type UdpDoor = SocketDoor<UdpSocket>;

/// The UDP ports of 127.0.0.1. They tell nothing but their numbers: what was asked and what came
/// back is not kept.
#[derive(Drop)]
pub struct UdpPorts<R> {
    net: R,
    faults: u64,
    inlets_out: u64,
    outlets_out: u64,
    doors_out: u64,
}

impl<R: Net> UdpPorts<R> {
    /// Ports whose sockets this runtime opens.
    pub fn new(net: R) -> Self
        ensures faults { ⟦<UdpPorts<R> as Ports>⟧.faults result ≡ 0 }
        ensures inlets { ⟦<UdpPorts<R> as Ports>⟧.inlets_out result ≡ 0 }
        ensures outlets { ⟦<UdpPorts<R> as Ports>⟧.outlets_out result ≡ 0 }
        ensures doors { ⟦<UdpPorts<R> as Ports>⟧.doors_out result ≡ 0 }
    {
        UdpPorts {
            net,
            faults: 0,
            inlets_out: 0,
            outlets_out: 0,
            doors_out: 0,
        }
    }

    /// Counts a fault.
    fn fault(&mut self) -> LinkStop
        ensures stop { result ≡ LinkStop.Failed }
        ensures counted { self.new ≡ record self.old { faults = counted self.old.faults } }
        ensures rose { Rose self.old.faults self.new.faults }
        ensures never_falls { self.old.faults ≤ self.new.faults }
    {
        self.faults = self.faults.saturating_add(1);
        LinkStop::Failed
    }

    /// Counts a fault where a returned object had any.
    fn count(&mut self, faults: u64)
        ensures rose { 0 < faults → Rose self.old.faults self.new.faults }
        ensures none { faults ≡ 0 → self.new ≡ self.old }
        ensures never_falls { self.old.faults ≤ self.new.faults }
        ensures inlets { self.new.inlets_out ≡ self.old.inlets_out }
        ensures outlets { self.new.outlets_out ≡ self.old.outlets_out }
        ensures doors { self.new.doors_out ≡ self.old.doors_out }
    {
        if faults > 0 {
            self.fault();
        }
    }
}

impl<R: Net> Ports for UdpPorts<R> {
    type In = UdpInlet;

    type Out = UdpOutlet;

    type Asked = UdpDoor;

    ghost faults = { λ ports. ports.faults };

    ghost inlets_out = { λ ports. ports.inlets_out };

    ghost outlets_out = { λ ports. ports.outlets_out };

    ghost doors_out = { λ ports. ports.doors_out };

    ghost asked = { λ ports. None };

    ghost back = { λ ports. None };

    ghost held = { λ ports. None };

    fn inlet(&mut self, _alloc: Global, port: u16) -> Result<UdpInlet, LinkStop> {
        let Some(out) = self.inlets_out.checked_add(1) else {
            return Err(self.fault());
        };
        let Ok(socket) = bound(&self.net, port) else {
            return Err(self.fault());
        };
        self.inlets_out = out;
        Ok(SocketInlet::new(socket))
    }

    fn outlet(&mut self, alloc: Global, routes: &[(u32, u16)]) -> Result<UdpOutlet, LinkStop> {
        let Some(out) = self.outlets_out.checked_add(1) else {
            return Err(self.fault());
        };
        let routes = Vec::from_slice(alloc, routes).map_err(|_| LinkStop::OutOfMemory)?;
        let Ok(socket) = bound(&self.net, 0) else {
            return Err(self.fault());
        };
        self.outlets_out = out;
        Ok(SocketOutlet::new(socket, routes))
    }

    fn door(&mut self, _alloc: Global, port: u16) -> Result<UdpDoor, LinkStop> {
        let Some(out) = self.doors_out.checked_add(1) else {
            return Err(self.fault());
        };
        let Ok(socket) = bound(&self.net, port) else {
            return Err(self.fault());
        };
        self.doors_out = out;
        Ok(SocketDoor::new(socket))
    }

    fn back_in(&mut self, inlet: UdpInlet) {
        self.inlets_out -= 1;
        self.count(inlet.faults());
    }

    fn back_out(&mut self, outlet: UdpOutlet) {
        self.outlets_out -= 1;
        self.count(outlet.faults());
    }

    fn back_door(&mut self, door: UdpDoor) {
        self.doors_out -= 1;
        self.count(door.faults());
    }
}
