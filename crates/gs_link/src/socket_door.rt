ghost use Rattle.std.specs.Prelude.{◌≡◌, ◌≢◌, ◌≤◌, ◌+◌, ℕ, None, Ok, false, IsTrue, OnOk, OnErr};
ghost use Rattle.gs_io.specs.Causes.{Rose};
ghost use Rattle.gs_net.specs.Tales.{OnTold};
ghost use Rattle.gs_link.specs.Adapters.{has_taken, inlet_faults, inlet_socket, last_sender};
ghost use Rattle.gs_link.specs.Sockets.{Answers, HearsLast};

use crate::socket_inlet::SocketInlet;
use crate::sockets::Socket;
use gs_io::Failed;
use gs_net::{Door, Got, Inlet};

/// A door over a socket. It never ends.
#[derive(Drop)]
pub struct SocketDoor<S> {
    pub(crate) inlet: SocketInlet<S>,
}

impl<S: Socket> SocketDoor<S> {
    /// A door from which nothing was taken.
    pub fn new(socket: S) -> Self
        ensures socket { inlet_socket result.inlet ≡ socket }
        ensures faults { inlet_faults result.inlet ≡ 0 }
        ensures untaken { has_taken result.inlet ≡ false }
    {
        SocketDoor {
            inlet: SocketInlet::new(socket),
        }
    }

    /// How often it has failed.
    pub fn faults(&self) -> u64
        ensures { result ≡ inlet_faults self.now.inlet }
    {
        self.inlet.faults()
    }
}

impl<S: Socket> Inlet for SocketDoor<S> {
    ghost faults = { λ door. inlet_faults door.inlet };

    ghost tale = { λ door. None };

    ghost replies = { λ door. None };

    ghost taken = { λ door. has_taken door.inlet };

    fn receive(&mut self, into: &mut [u8; 64]) -> Result<Got, Failed>
        ensures heard { (n : ℕ) → result ≡ Ok (Got.Datagram n) → HearsLast (last_sender self.new.inlet) n
            into.new (S.heard (inlet_socket self.old.inlet)) (S.heard (inlet_socket self.new.inlet)) }
        ensures quiet { result ≡ Ok Got.Quiet
            → last_sender self.new.inlet ≡ last_sender self.old.inlet }
        ensures looked { result ≡ Ok Got.Quiet → S.looks (inlet_socket self.new.inlet)
            ≡ OnTold (S.looks (inlet_socket self.old.inlet)) (λ n. n + 1) }
        ensures endless { result ≢ Ok Got.Ended }
        ensures at_most { (n : ℕ) → result ≡ Ok (Got.Datagram n) → n ≤ 64 }
        ensures now_taken { (n : ℕ) → result ≡ Ok (Got.Datagram n)
            → IsTrue (has_taken self.new.inlet) }
        ensures still_taken { IsTrue (has_taken self.old.inlet) → IsTrue (has_taken self.new.inlet) }
        ensures cause { OnErr result (Rose (inlet_faults self.old.inlet) (inlet_faults self.new.inlet)) }
        ensures never_falls { inlet_faults self.old.inlet ≤ inlet_faults self.new.inlet }
    {
        self.inlet.receive(into)
    }
}

impl<S: Socket> Door for SocketDoor<S> {
    fn reply(&mut self, answer: &[u8; 24]) -> Result<(), Failed>
        ensures replied { OnOk result (Answers (last_sender self.old.inlet) answer.now
            (S.sent (inlet_socket self.old.inlet)) (S.sent (inlet_socket self.new.inlet))) }
        ensures still_taken { has_taken self.new.inlet ≡ has_taken self.old.inlet }
        ensures cause { OnErr result (Rose (inlet_faults self.old.inlet) (inlet_faults self.new.inlet)) }
        ensures never_falls { inlet_faults self.old.inlet ≤ inlet_faults self.new.inlet }
    {
        self.inlet.answer(answer)
    }
}
