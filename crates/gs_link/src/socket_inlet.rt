ghost use Rattle.std.specs.Prelude.{◌≡◌, ◌≢◌, ◌≤◌, ◌+◌, ℕ, None, Some, Ok, false, IfOk, IsTrue, OnOk, OnErr};
ghost use Rattle.gs_io.specs.Causes.{Rose, counted};
ghost use Rattle.gs_net.specs.Tales.{OnTold};
ghost use Rattle.gs_link.specs.Sockets.{Answers, HearsLast};

use crate::sockets::{Socket, is_quiet};
use gs_io::Failed;
use gs_net::{Got, Inlet};
use std::net::SocketAddr;

/// An inlet over a socket. It never ends.
#[derive(Drop)]
pub struct SocketInlet<S> {
    pub(crate) socket: S,
    sender: Option<SocketAddr>,
    faults: u64,
}

impl<S: Socket> SocketInlet<S> {
    ghost use Rattle.gs_link.specs.Adapters.{has_taken, inlet_faults, inlet_socket, last_sender};

    /// An inlet from which nothing was taken.
    pub fn new(socket: S) -> Self
        ensures socket { inlet_socket result ≡ socket }
        ensures faults { inlet_faults result ≡ 0 }
        ensures untaken { has_taken result ≡ false }
    {
        SocketInlet {
            socket,
            sender: None,
            faults: 0,
        }
    }

    /// How often it has failed.
    pub fn faults(&self) -> u64
        ensures { result ≡ inlet_faults self.now }
    {
        self.faults
    }

    /// Sends this to the sender of the datagram that was taken last, and fails where none was.
    pub fn answer(&mut self, answer: &[u8; 24]) -> Result<(), Failed>
        ensures replied { OnOk result (Answers (last_sender self.old) answer.now
            (S.sent (inlet_socket self.old)) (S.sent (inlet_socket self.new))) }
        ensures unreplied { OnErr result
            (S.sent (inlet_socket self.new) ≡ S.sent (inlet_socket self.old)) }
        ensures sender { last_sender self.new ≡ last_sender self.old }
        ensures passed { OnOk result (inlet_faults self.new ≡ inlet_faults self.old) }
        ensures failed { OnErr result (inlet_faults self.new ≡ counted (inlet_faults self.old)) }
        ensures cause { OnErr result (Rose (inlet_faults self.old) (inlet_faults self.new)) }
        ensures never_falls { inlet_faults self.old ≤ inlet_faults self.new }
    {
        match self.sender {
            Some(sender) if self.socket.send(answer, sender).is_ok() => Ok(()),
            _ => {
                self.faults = self.faults.saturating_add(1);
                Err(Failed)
            }
        }
    }
}

impl<S: Socket> Inlet for SocketInlet<S> {
    ghost use Rattle.gs_link.specs.Adapters.{has_taken, inlet_faults, inlet_socket, last_sender};

    ghost faults = { inlet_faults };

    ghost tale = { λ inlet. None };

    ghost replies = { λ inlet. None };

    ghost taken = { has_taken };

    fn receive(&mut self, into: &mut [u8; 64]) -> Result<Got, Failed>
        ensures heard { (n : ℕ) → result ≡ Ok (Got.Datagram n) → HearsLast (last_sender self.new) n
            into.new (S.heard (inlet_socket self.old)) (S.heard (inlet_socket self.new)) }
        ensures quiet { result ≡ Ok Got.Quiet → last_sender self.new ≡ last_sender self.old }
        ensures looked { result ≡ Ok Got.Quiet → S.looks (inlet_socket self.new)
            ≡ OnTold (S.looks (inlet_socket self.old)) (λ n. n + 1) }
        ensures nothing { result ≡ Ok Got.Quiet
            → S.heard (inlet_socket self.new) ≡ S.heard (inlet_socket self.old) }
        ensures unheard { OnErr result
            (S.heard (inlet_socket self.new) ≡ S.heard (inlet_socket self.old)) }
        ensures sent { S.sent (inlet_socket self.new) ≡ S.sent (inlet_socket self.old) }
        ensures endless { result ≢ Ok Got.Ended }
        ensures at_most { (n : ℕ) → result ≡ Ok (Got.Datagram n) → n ≤ 64 }
        ensures now_taken { (n : ℕ) → result ≡ Ok (Got.Datagram n) → IsTrue (has_taken self.new) }
        ensures still_taken { IsTrue (has_taken self.old) → IsTrue (has_taken self.new) }
        ensures passed { OnOk result (inlet_faults self.new ≡ inlet_faults self.old) }
        ensures failed { OnErr result (inlet_faults self.new ≡ counted (inlet_faults self.old)) }
        ensures cause { OnErr result (Rose (inlet_faults self.old) (inlet_faults self.new)) }
        ensures never_falls { inlet_faults self.old ≤ inlet_faults self.new }
    {
        match self.socket.receive(into) {
            Ok((n, sender)) => {
                self.sender = Some(sender);
                Ok(Got::Datagram(n as u32))
            }
            Err(fault) if is_quiet(&fault) => Ok(Got::Quiet),
            Err(_) => {
                self.faults = self.faults.saturating_add(1);
                Err(Failed)
            }
        }
    }
}
