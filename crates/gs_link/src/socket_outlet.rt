ghost use Rattle.std.specs.Prelude.{◌≡◌, ◌≤◌, None, IfSome, IsNone, OnOk, OnErr, Some};
ghost use Rattle.gs_io.specs.Causes.{Rose, counted};
ghost use Rattle.gs_link.specs.Sockets.{Sends, port_of};

use crate::sockets::{Socket, at_home};
use gs_io::Failed;
use gs_net::Outlet;

/// An outlet over a socket. Each of its neighbours receives at a port of 127.0.0.1.
#[derive(Drop)]
pub struct SocketOutlet<S> {
    socket: S,
    routes: Vec<(u32, u16)>,
    faults: u64,
}

impl<S: Socket> SocketOutlet<S> {
    ghost use Rattle.gs_link.specs.Adapters.{outlet_faults, outlet_socket, routes_of};

    /// An outlet to these neighbours, each with its port.
    pub fn new(socket: S, routes: Vec<(u32, u16)>) -> Self
        ensures socket { outlet_socket result ≡ socket }
        ensures routes { routes_of result ≡ routes.items }
        ensures faults { outlet_faults result ≡ 0 }
    {
        SocketOutlet {
            socket,
            routes,
            faults: 0,
        }
    }

    /// How often it has failed.
    pub fn faults(&self) -> u64
        ensures { result ≡ outlet_faults self.now }
    {
        self.faults
    }
}

impl<S: Socket> Outlet for SocketOutlet<S> {
    ghost use Rattle.gs_link.specs.Adapters.{outlet_faults, outlet_socket, routes_of};

    ghost faults = { outlet_faults };

    ghost sent = { λ outlet. None };

    fn send(&mut self, neighbour: u32, datagram: &[u8; 40]) -> Result<(), Failed>
        ensures went { OnOk result (Sends (port_of (routes_of self.old) neighbour) datagram.now
            (S.sent (outlet_socket self.old)) (S.sent (outlet_socket self.new))) }
        ensures unsent { OnErr result
            (S.sent (outlet_socket self.new) ≡ S.sent (outlet_socket self.old)) }
        ensures routes { routes_of self.new ≡ routes_of self.old }
        ensures passed { OnOk result (outlet_faults self.new ≡ outlet_faults self.old) }
        ensures failed { OnErr result (outlet_faults self.new ≡ counted (outlet_faults self.old)) }
        ensures cause { OnErr result (Rose (outlet_faults self.old) (outlet_faults self.new)) }
        ensures never_falls { outlet_faults self.old ≤ outlet_faults self.new }
    {
        match port_of(&self.routes, neighbour) {
            Some(port) if self.socket.send(datagram, at_home(port)).is_ok() => Ok(()),
            _ => {
                self.faults = self.faults.saturating_add(1);
                Err(Failed)
            }
        }
    }
}

/// The port that was given for this neighbour first.
fn port_of(routes: &[(u32, u16)], neighbour: u32) -> Option<u16>
    ensures { result ≡ port_of routes.now neighbour }
{
    for (node, port) in routes {
        if *node == neighbour {
            return Some(*port);
        }
    }
    None
}
