use gs_gates::HoldGate;
use gs_io::Failed;
use gs_net::{Got, Inlet, LinkStop, MemDoor, MemInlet, MemOutlet, MemPorts, Ports};
use std::alloc::Global;
use std::sync::atomic::{AtomicBool, AtomicU64, Ordering};

/// Where the threads of a run stand. Its timer is held until each inlet has ended or failed.
#[derive(Drop)]
pub struct Stage {
    pub gate: HoldGate,
    inlets: u64,
    /// How many inlets have ended or failed.
    over: AtomicU64,
    /// Whether the timer came to rest while an inlet waited for that.
    met: AtomicBool,
}

impl Stage {
    /// A stage of so many inlets.
    pub fn new(inlets: u64) -> Self {
        Stage {
            gate: HoldGate::new(),
            inlets,
            over: AtomicU64::new(0),
            met: AtomicBool::new(false),
        }
    }

    /// Waits until the timer rests.
    fn wait_for_timer(&self) {
        let met = self.gate.wait_rested();
        self.met.store(met, Ordering::SeqCst);
    }

    /// Counts an inlet as over, and lets the timer go at the last.
    fn end_inlet(&self) {
        let before = self.over.fetch_add(1, Ordering::SeqCst);
        if before.saturating_add(1) >= self.inlets {
            self.gate.set();
        }
    }

    /// Whether the inlet that waited met the timer at rest, which then was held until all inlets were over.
    pub fn met(&self) -> bool {
        self.met.load(Ordering::SeqCst) && self.gate.met()
    }
}

/// An inlet of a stage.
#[derive(Drop)]
pub struct Staged<'a> {
    inlet: MemInlet,
    stage: &'a Stage,
    /// Whether its next call first waits until the timer rests.
    waits: bool,
}

impl Inlet for Staged<'_> {
    ghost use Rattle.std.specs.Prelude.{Some, []};

    ghost faults = { λ staged. staged.inlet.calls.faults };

    ghost tale = { λ staged. Some staged.inlet.tale };

    ghost replies = { λ staged. Some [] };

    ghost taken = { λ staged. staged.inlet.taken };

    fn receive(&mut self, into: &mut [u8; 64]) -> Result<Got, Failed> {
        if self.waits {
            self.waits = false;
            self.stage.wait_for_timer();
        }
        let got = self.inlet.receive(into);
        if got == Ok(Got::Ended) || got == Err(Failed) {
            self.stage.end_inlet();
        }
        got
    }
}

/// Ports in memory whose inlets belong to a stage.
#[derive(Drop)]
pub struct StagedPorts<'a> {
    pub ports: MemPorts,
    pub stage: &'a Stage,
    /// The port whose inlet waits at its first call until the timer rests; 0 for none.
    pub waits: u16,
}

impl<'a> Ports for StagedPorts<'a> {
    type In = Staged<'a>;

    type Out = MemOutlet;

    type Asked = MemDoor;

    ghost use Rattle.std.specs.Prelude.{Some, None};
    ghost use Rattle.gs_net.specs.Pools.{held_at};

    ghost faults = { λ staged. staged.ports.calls.faults };

    ghost inlets_out = { λ staged. staged.ports.inlets_out };

    ghost outlets_out = { λ staged. staged.ports.outlets_out };

    ghost doors_out = { λ staged. staged.ports.doors_out };

    ghost asked = { λ staged. Some staged.ports.asked };

    ghost back = { λ _. None };

    ghost held = { λ staged. Some (held_at staged.ports.held) };

    fn inlet(&mut self, alloc: Global, port: u16) -> Result<Staged<'a>, LinkStop> {
        Ok(Staged {
            inlet: self.ports.inlet(alloc, port)?,
            stage: self.stage,
            waits: port == self.waits,
        })
    }

    fn outlet(&mut self, alloc: Global, routes: &[(u32, u16)]) -> Result<MemOutlet, LinkStop> {
        self.ports.outlet(alloc, routes)
    }

    fn door(&mut self, alloc: Global, port: u16) -> Result<MemDoor, LinkStop> {
        self.ports.door(alloc, port)
    }

    fn back_in(&mut self, inlet: Staged<'a>) {
        let Staged {
            inlet,
            stage: _,
            waits: _,
        } = inlet;
        self.ports.back_in(inlet);
    }

    fn back_out(&mut self, outlet: MemOutlet) {
        self.ports.back_out(outlet);
    }

    fn back_door(&mut self, door: MemDoor) {
        self.ports.back_door(door);
    }
}
