use gs_gate::Gate;
use gs_io::Failed;
use gs_net::{Got, Inlet, LinkStop, MemDoor, MemInlet, MemOutlet, MemPorts, Outlet, Ports};
use std::alloc::{AllocError, Global};
use std::sync::atomic::{AtomicBool, AtomicU64, Ordering};
use std::sync::{Mutex, Wait};
use std::thread;

/// For how many turns a thread waits for another.
const TURNS: u64 = 100_000_000;

/// One of two nodes that run at once and go in step: each ticks, hears what the other sent at that tick, ticks
/// again, and so on.
#[derive(Drop)]
pub struct Side {
    /// What was sent to it.
    came: Mutex<Vec<[u8; 40]>>,
    /// How many datagrams it hears before its inlet ends.
    hears: u64,
    /// For how many it has asked.
    asked: AtomicU64,
    /// How often its timer has rested.
    rests: AtomicU64,
    gave_up: AtomicBool,
}

impl Side {
    /// A node that hears so many datagrams.
    pub fn new(alloc: Global, hears: u64) -> Self {
        Side {
            came: Mutex::new(Vec::new(alloc)),
            hears,
            asked: AtomicU64::new(0),
            rests: AtomicU64::new(0),
            gave_up: AtomicBool::new(false),
        }
    }

    /// Whether it never waited for more than the limit of turns.
    pub fn went_in_step(&self) -> bool {
        !self.gave_up.load(Ordering::SeqCst)
    }

    /// Sends it a datagram.
    fn send<R: Wait>(&self, rt: &R, datagram: &[u8; 40]) -> Result<(), AllocError> {
        let mut came = self.came.lock(rt);
        came.push(*datagram)?;
        Ok(())
    }

    /// What came at this place.
    fn came_at<R: Wait>(&self, rt: &R, place: u64) -> Option<[u8; 40]> {
        let came = self.came.lock(rt);
        came.get(place as usize).copied()
    }

    /// What came at this place, once it has come.
    fn wait_for<R: Wait>(&self, rt: &R, place: u64) -> Option<[u8; 40]> {
        for _ in 0..TURNS {
            if let Some(datagram) = self.came_at(rt, place) {
                return Some(datagram);
            }
            thread::yield_now();
        }
        self.gave_up.store(true, Ordering::SeqCst);
        None
    }
}

impl Gate for Side {
    fn enter(&self, _piece: u32) {}

    fn leave(&self, _piece: u32) {}

    /// Holds a tick until the node has heard what was sent at the ticks before.
    fn rest(&self, _units: u64) {
        let before = self.rests.fetch_add(1, Ordering::SeqCst);
        for _ in 0..TURNS {
            if self.asked.load(Ordering::SeqCst) > before {
                return;
            }
            thread::yield_now();
        }
        self.gave_up.store(true, Ordering::SeqCst);
    }
}

/// The inlet of one of the two nodes.
#[derive(Drop)]
pub struct WireInlet<'a, R: Wait> {
    /// Stands for it where ports in memory count what is out.
    lent: MemInlet,
    rt: &'a R,
    side: &'a Side,
    taken: bool,
}

impl<R: Wait> Inlet for WireInlet<'_, R> {
    ghost use Rattle.std.specs.Prelude.{None};

    ghost faults = { λ wire. wire.lent.calls.faults };

    ghost tale = { λ _. None };

    ghost replies = { λ _. None };

    ghost taken = { λ wire. wire.taken };

    fn receive(&mut self, into: &mut [u8; 64]) -> Result<Got, Failed> {
        let place = self.side.asked.fetch_add(1, Ordering::SeqCst);
        if place >= self.side.hears {
            return Ok(Got::Ended);
        }
        match self.side.wait_for(self.rt, place) {
            Some(datagram) => {
                into[..40].copy_from_slice(datagram.as_slice());
                self.taken = true;
                Ok(Got::Datagram(40))
            }
            None => Ok(Got::Ended),
        }
    }
}

/// The outlet of one of the two nodes.
#[derive(Drop)]
pub struct WireOutlet<'a, R: Wait> {
    sent: MemOutlet,
    rt: &'a R,
    other: &'a Side,
}

impl<R: Wait> Outlet for WireOutlet<'_, R> {
    ghost use Rattle.std.specs.Prelude.{Some};

    ghost faults = { λ wire. wire.sent.calls.faults };

    ghost sent = { λ wire. Some wire.sent.sent };

    /// A datagram for which the wire has no memory is lost.
    fn send(&mut self, neighbour: u32, datagram: &[u8; 40]) -> Result<(), Failed> {
        self.sent.send(neighbour, datagram)?;
        let _sent = self.other.send(self.rt, datagram);
        Ok(())
    }
}

/// The ports of one of the two nodes.
#[derive(Drop)]
pub struct WirePorts<'a, R: Wait> {
    pub ports: MemPorts,
    pub rt: &'a R,
    pub side: &'a Side,
    pub other: &'a Side,
}

impl<'a, R: Wait> Ports for WirePorts<'a, R> {
    type In = WireInlet<'a, R>;

    type Out = WireOutlet<'a, R>;

    type Asked = MemDoor;

    ghost use Rattle.std.specs.Prelude.{Some, None};

    ghost faults = { λ wire. wire.ports.calls.faults };

    ghost inlets_out = { λ wire. wire.ports.inlets_out };

    ghost outlets_out = { λ wire. wire.ports.outlets_out };

    ghost doors_out = { λ wire. wire.ports.doors_out };

    ghost asked = { λ wire. Some wire.ports.asked };

    ghost back = { λ _. None };

    ghost held = { λ _. None };

    fn inlet(&mut self, alloc: Global, port: u16) -> Result<WireInlet<'a, R>, LinkStop> {
        Ok(WireInlet {
            lent: self.ports.inlet(alloc, port)?,
            rt: self.rt,
            side: self.side,
            taken: false,
        })
    }

    fn outlet(
        &mut self,
        alloc: Global,
        routes: &[(u32, u16)],
    ) -> Result<WireOutlet<'a, R>, LinkStop> {
        Ok(WireOutlet {
            sent: self.ports.outlet(alloc, routes)?,
            rt: self.rt,
            other: self.other,
        })
    }

    fn door(&mut self, alloc: Global, port: u16) -> Result<MemDoor, LinkStop> {
        self.ports.door(alloc, port)
    }

    fn back_in(&mut self, inlet: WireInlet<'a, R>) {
        let WireInlet {
            lent,
            rt: _,
            side: _,
            taken: _,
        } = inlet;
        self.ports.back_in(lent);
    }

    fn back_out(&mut self, outlet: WireOutlet<'a, R>) {
        let WireOutlet {
            sent,
            rt: _,
            other: _,
        } = outlet;
        self.ports.back_out(sent);
    }

    fn back_door(&mut self, door: MemDoor) {
        self.ports.back_door(door);
    }
}
