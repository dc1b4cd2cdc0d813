ghost use Rattle.std.specs.Prelude.{None};

use super::*;
use crate::sockets::at_home;
use gs_io::{Failed, Files, OsFiles};
use gs_net::{Door, Got, Inlet, LinkStop, Outlet, Ports};
use std::alloc::Global;
use std::io::{self, ErrorKind};
use std::net::{IpAddr, Ipv4Addr, SocketAddr, UdpSocket};
use std::rt::Files as Disk;
use std::sync::atomic::{AtomicBool, Ordering};
use std::test::Fail;
use std::thread::join;

/// The port of 127.0.0.1 at which this receives, or 0 where it is bound to another address.
fn port_of(address: io::Result<SocketAddr>) -> u16 {
    match address {
        Ok(address) if address.ip() == IpAddr::V4(Ipv4Addr::LOCALHOST) => address.port(),
        _ => 0,
    }
}

/// A beacon of sender 3 with sequence 1 and clock 1,000,000, as it is sent.
const BEACON: [u8; 40] = [
    0x47, 0x43, 0x53, 0x31, 0, 0, 0, 7, 0, 0, 0, 3, 0, 0, 0, 0, 0, 0, 0, 0, 0, 0, 0, 1, 0, 0, 0, 0,
    0, 0x0f, 0x42, 0x40, 0, 0, 0, 0, 0, 0x0f, 0x42, 0x40,
];

/// A socket that does one thing a call: it gives three bytes from a port, or fails in some way.
#[derive(Drop)]
struct Turns<'a> {
    left: &'a [u8],
    sent: Option<SocketAddr>,
}

impl Socket for Turns<'_> {
    ghost heard = { λ turns. None };

    ghost sent = { λ turns. None };

    ghost looks = { λ turns. None };

    fn receive(&mut self, into: &mut [u8; 64]) -> io::Result<(usize, SocketAddr)> {
        let Some((turn, after)) = self.left.split_first() else {
            return Err(io::Error::from(ErrorKind::NotConnected));
        };
        self.left = after;
        match *turn {
            b'w' => Err(io::Error::from(ErrorKind::WouldBlock)),
            b't' => Err(io::Error::from(ErrorKind::TimedOut)),
            b'i' => Err(io::Error::from(ErrorKind::Interrupted)),
            b'r' => Err(io::Error::from(ErrorKind::ConnectionRefused)),
            port => {
                *into = [port; 64];
                Ok((3, at_home(u16::from(port))))
            }
        }
    }

    fn send(&mut self, _datagram: &[u8], to: SocketAddr) -> io::Result<()> {
        self.sent = Some(to);
        Ok(())
    }
}

#[test]
fn a_wait_that_ends_is_quiet_and_all_else_a_fault(rt: HostRuntime) {
    let mut door = SocketDoor::new(Turns {
        left: b"1wti2r",
        sent: None,
    });
    let mut into = [0u8; 64];
    for want in [
        Ok(Got::Datagram(3)),
        Ok(Got::Quiet),
        Ok(Got::Quiet),
        Ok(Got::Quiet),
        Ok(Got::Datagram(3)),
        Err(Failed),
        Err(Failed),
    ] {
        assert!(rt; door.receive(&mut into) == want);
    }
    assert_eq!(rt; door.faults(), 2);
    assert!(rt; door.inlet.answer(&[7u8; 24]) == Ok(()));
    assert!(rt; door.inlet.socket.sent == Some(at_home(u16::from(b'2'))));
}

#[test]
fn a_beacon_goes_from_port_to_port(rt: HostRuntime) -> Result<(), Fail> {
    let alloc = rt.alloc();
    let mut ports = UdpPorts::new(&rt);
    let mut inlet = ports.inlet(alloc, 0)?;
    let port = port_of(inlet.socket.local_addr());
    assert!(rt; port > 0);
    let mut outlet = ports.outlet(alloc, &[(1, 9), (3, port)])?;
    let mut into = [0u8; 64];
    assert!(rt; inlet.receive(&mut into) == Ok(Got::Quiet));
    assert!(rt; outlet.send(3, &BEACON) == Ok(()));
    assert!(rt; inlet.receive(&mut into) == Ok(Got::Datagram(40)));
    assert!(rt; into.as_slice().starts_with(BEACON.as_slice()));
    assert!(rt; inlet.receive(&mut into) == Ok(Got::Quiet));
    assert!(rt; outlet.send(2, &BEACON).is_err());
    assert!(rt; matches!(ports.inlet(alloc, port), Err(LinkStop::Failed)));
    ports.back_in(inlet);
    ports.back_out(outlet);
    let again = ports.inlet(alloc, port)?;
    ports.back_in(again);
    Ok(())
}

#[test]
fn a_door_answers_who_asked_last(rt: HostRuntime) -> Result<(), Fail> {
    let alloc = rt.alloc();
    let mut ports = UdpPorts::new(&rt);
    let mut door = ports.door(alloc, 0)?;
    let port = port_of(door.inlet.socket.local_addr());
    let first = UdpSocket::bind(&rt, (Ipv4Addr::LOCALHOST, 0))?;
    let second = UdpSocket::bind(&rt, (Ipv4Addr::LOCALHOST, 0))?;
    let mut into = [0u8; 64];
    first.send_to([1u8; 16].as_slice(), (Ipv4Addr::LOCALHOST, port))?;
    assert!(rt; door.receive(&mut into) == Ok(Got::Datagram(16)));
    second.send_to([2u8; 70].as_slice(), (Ipv4Addr::LOCALHOST, port))?;
    assert!(rt; door.receive(&mut into) == Ok(Got::Datagram(64)));
    assert!(rt; into == [2u8; 64]);
    assert!(rt; door.receive(&mut into) == Ok(Got::Quiet));
    assert!(rt; door.reply(&[7u8; 24]) == Ok(()));
    let (n, from) = second.recv_from(&mut into)?;
    assert!(rt; n == 24 && into.as_slice().starts_with([7u8; 24].as_slice()));
    assert!(rt; port_of(Ok(from)) == port);
    ports.back_door(door);
    Ok(())
}

const FLOOD: usize = 10_000;

/// Sends numbered datagrams as fast as the kernel takes them, and tells how many it took.
fn send_all(outlet: &mut UdpOutlet, is_done: &AtomicBool) -> u64 {
    let mut taken = 0u64;
    for number in 0..FLOOD as u32 {
        let mut datagram = [0u8; 40];
        datagram[..4].copy_from_slice(&number.to_be_bytes());
        if outlet.send(1, &datagram).is_ok() {
            taken = taken.saturating_add(1);
        }
    }
    is_done.store(true, Ordering::SeqCst);
    taken
}

/// Takes what comes until all was sent and nothing comes any more. Counts the numbers that came, and
/// nothing where one came twice.
fn take_all(inlet: &mut UdpInlet, is_done: &AtomicBool) -> u64 {
    let mut came = [false; FLOOD];
    for _ in 0..1_000_000 {
        let was_done = is_done.load(Ordering::SeqCst);
        let mut into = [0u8; 64];
        match inlet.receive(&mut into) {
            Ok(Got::Datagram(40)) => {
                let number = u32::from_be_bytes([into[0], into[1], into[2], into[3]]) as usize;
                if number >= FLOOD || came[number] {
                    return 0;
                }
                came[number] = true;
            }
            Ok(Got::Quiet) if !was_done => (),
            _ => break,
        }
    }
    came.iter().filter(|came| **came).count() as u64
}

/// How many datagrams the kernel has dropped at this port of 127.0.0.1, since nobody took those before
/// them.
fn dropped_at<D: Disk + Drop>(disk: D, alloc: Global, port: u16) -> Option<u64> {
    let table = OsFiles::new(disk)
        .read(alloc, "/proc/net/udp", 1 << 20)
        .ok()?;
    let place = format!(in alloc; "0100007F:{port:04X}").ok()?;
    for row in str::from_utf8(&table).ok()?.lines() {
        if row.split_whitespace().nth(1) == Some(place.as_str()) {
            return row.split_whitespace().last()?.parse().ok();
        }
    }
    None
}

#[test]
fn a_flood_loses_nothing_that_the_kernel_kept(rt: HostRuntime) -> Result<(), Fail> {
    let alloc = rt.alloc();
    let mut ports = UdpPorts::new(&rt);
    let mut inlet = ports.inlet(alloc, 0)?;
    let port = port_of(inlet.socket.local_addr());
    let mut outlet = ports.outlet(alloc, &[(1, port)])?;
    let is_done = AtomicBool::new(false);
    let (came, taken) = join(
        &rt,
        || take_all(&mut inlet, &is_done),
        || send_all(&mut outlet, &is_done),
    );
    let dropped = dropped_at(&rt, alloc, port).expect(&rt, "the kernel's table has the port");
    assert_eq!(rt; taken, 10_000);
    assert!(rt; came > 0);
    assert_eq!(rt; came.saturating_add(dropped), taken);
    ports.back_in(inlet);
    ports.back_out(outlet);
    Ok(())
}
