ghost use Rattle.std.specs.Prelude.{◌≡◌, ◌⊎◌, ◌↔◌, ◌≤◌, ◌+◌, ℕ, List, Option, None, IfOk, IfErr, IsTrue, OnOk, OnErr};
ghost use Rattle.std.specs.IoError.{error_kind};
ghost use Rattle.std.specs.declared.net.socket_addr.SocketAddr.{SocketAddr};
ghost use Rattle.gs_net.specs.Tales.{OnTold, added};
ghost use Rattle.gs_link.specs.Sockets.{Hears, IsAtHome};

use std::io::{self, ErrorKind};
use std::net::{Ipv4Addr, Net, SocketAddr, SocketAddrV4, UdpSocket};
use std::time::Duration;

/// A socket for datagrams. The kernel's tell nothing; tests have others.
pub trait Socket: Drop {
    /// The datagrams that it has given, each with the address that it came from, where it tells them.
    ghost heard: { Self → Option (List (SocketAddr × List ℕ)) };

    /// The datagrams that it has taken, each with the address that it is for, where it tells them.
    ghost sent: { Self → Option (List (SocketAddr × List ℕ)) };

    /// How often it was asked for a datagram and had none, where it tells this.
    ghost looks: { Self → Option ℕ };

    /// Gives the next datagram, cut to 64 bytes: how many there are, and from where it came.
    fn receive(&mut self, into: &mut [u8; 64]) -> io::Result<(usize, SocketAddr)>
        ensures at_most { IfOk result (λ got. got.0 ≤ 64) }
        ensures heard { IfOk result (λ got. Hears got.1 got.0 into.new (heard self.old) (heard self.new)) }
        ensures unheard { OnErr result (heard self.new ≡ heard self.old) }
        ensures looked { IfErr result (λ fault.
            (error_kind fault ≡ ErrorKind.WouldBlock)
            ⊎ (error_kind fault ≡ ErrorKind.TimedOut)
            ⊎ (error_kind fault ≡ ErrorKind.Interrupted)
            → looks self.new ≡ OnTold (looks self.old) (λ n. n + 1)) }
        ensures sent { sent self.new ≡ sent self.old };

    /// Takes a datagram for this address.
    fn send(&mut self, datagram: &[u8], to: SocketAddr) -> io::Result<()>
        ensures sent { OnOk result (sent self.new ≡ added (sent self.old) (to, datagram.now)) }
        ensures unsent { OnErr result (sent self.new ≡ sent self.old) }
        ensures heard { heard self.new ≡ heard self.old };
}

impl Socket for UdpSocket {
    ghost heard = { λ socket. None };

    ghost sent = { λ socket. None };

    ghost looks = { λ socket. None };

    fn receive(&mut self, into: &mut [u8; 64]) -> io::Result<(usize, SocketAddr)> {
        self.recv_from(into)
    }

    fn send(&mut self, datagram: &[u8], to: SocketAddr) -> io::Result<()> {
        self.send_to(datagram, to)?;
        Ok(())
    }
}

/// For how many milliseconds a receive waits.
const WAIT: u64 = 20;

/// This port of 127.0.0.1.
pub(crate) fn at_home(port: u16) -> SocketAddr
    ensures { IsAtHome result port }
{
    SocketAddr::V4(SocketAddrV4::new(Ipv4Addr::LOCALHOST, port))
}

/// A socket at this port of 127.0.0.1, or at any free one for port 0. It is not connected, so that
/// the kernel reports no port at which nobody listens yet: a node may send before its neighbour has
/// started.
pub(crate) fn bound<R: Net>(net: &R, port: u16) -> io::Result<UdpSocket> {
    let socket = UdpSocket::bind(net, at_home(port))?;
    socket.set_read_timeout(Some(Duration::from_millis(WAIT)))?;
    Ok(socket)
}

/// Whether a receive that ended so looked and found nothing: it waited to the end, or was interrupted
/// while it waited, as where the process was stopped and goes on.
pub(crate) fn is_quiet(fault: &io::Error) -> bool
    ensures { IsTrue result
        ↔ ((error_kind fault.now ≡ ErrorKind.WouldBlock)
        ⊎ (error_kind fault.now ≡ ErrorKind.TimedOut)
        ⊎ (error_kind fault.now ≡ ErrorKind.Interrupted)) }
{
    matches!(
        fault.kind(),
        ErrorKind::WouldBlock | ErrorKind::TimedOut | ErrorKind::Interrupted
    )
}
