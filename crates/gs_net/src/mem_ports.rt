ghost use Rattle.std.specs.Prelude.{◌≡◌, ◌↔◌, ◌≤◌, ◌<◌, [], Some, Err, IsTrue, IfSome, IsNone, IfOk, OnOk, OnErr};
ghost use Rattle.gs_io.specs.Causes.{Rose};
ghost use Rattle.gs_net.specs.Lending.{doors_in, inlets_in, outlets_in};
ghost use Rattle.gs_net.specs.Memory.{is_named, new_desk, new_lane, new_outbox};
ghost use Rattle.gs_net.specs.Pools.{SameButCalls, after_back_door, after_back_in, after_back_out};
ghost use Rattle.gs_net.specs.Pools.{after_door, after_inlet, after_outlet, fails_at, held_at};

use crate::calls::Calls;
use crate::items::{Item, LinkStop};
use crate::lending::{Ask, Ports, Routes};
use crate::mem_door::MemDoor;
use crate::mem_inlet::MemInlet;
use crate::mem_outlet::MemOutlet;
use crate::returns::Returns;
use std::alloc::{AllocError, Global};
use std::marker::Model;

/// What ports in memory hold for a port.
#[derive(Debug, Drop)]
pub struct Held {
    /// The port.
    pub port: u16,
    /// The items of its inlet or door.
    pub items: Vec<Item>,
    /// The numbers, from 1, of the calls of that inlet or door that are to fail.
    pub fails: Vec<u64>,
}

/// Ports in memory, which keep what came back. The calls of `inlet`, `outlet` and `door` whose
/// numbers they were given, from 1, fail, and no others; they are numbered together.
#[derive(Debug, Drop)]
pub struct MemPorts {
    held: Vec<Held>,
    outlet_fails: Vec<u64>,
    calls: Calls,
    asked: Vec<Ask>,
    returns: Returns<MemInlet, MemOutlet, MemDoor>,
}

impl Model for MemPorts {
    ghost use Rattle.gs_net.specs.inside.Returns.{back_in_order};
    ghost use Rattle.gs_net.specs.Pools.{Pool};

    ghost Value = { Pool };

    ghost view = { λ ports. record {
      held = ports.held.items;
      outlet_fails = ports.outlet_fails.items;
      calls = ports.calls;
      asked = ports.asked.items;
      back = back_in_order ports.returns;
      inlets_out = ports.returns.inlets.out;
      outlets_out = ports.returns.outlets.out;
      doors_out = ports.returns.doors.out;
    } };
}

impl MemPorts {
    /// Ports that hold this. Of a port that is given twice the first counts, and for one that is not
    /// given they lend an empty inlet or door. `outlet_fails` are the numbers of the calls of each
    /// outlet that are to fail, `fails` those of the ports' own calls.
    pub fn new(alloc: Global, held: Vec<Held>, outlet_fails: Vec<u64>, fails: Vec<u64>) -> Self
        ensures { result ≡ record {
          held = held.items;
          outlet_fails = outlet_fails.items;
          calls = record { fails = fails.items; calls = 0; faults = 0 };
          asked = [];
          back = [];
          inlets_out = 0;
          outlets_out = 0;
          doors_out = 0;
        } }
    {
        MemPorts {
            held,
            outlet_fails,
            calls: Calls::new(fails),
            asked: Vec::new(alloc),
            returns: Returns::new(alloc),
        }
    }

    /// The inlets that came back, in order.
    pub fn inlets(&self) -> &[MemInlet]
        ensures { result.now ≡ inlets_in self.now.back }
    {
        self.returns.inlets()
    }

    /// The outlets that came back, in order.
    pub fn outlets(&self) -> &[MemOutlet]
        ensures { result.now ≡ outlets_in self.now.back }
    {
        self.returns.outlets()
    }

    /// The doors that came back, in order.
    pub fn doors(&self) -> &[MemDoor]
        ensures { result.now ≡ doors_in self.now.back }
    {
        self.returns.doors()
    }
}

impl Ports for MemPorts {
    type In = MemInlet;

    type Out = MemOutlet;

    type Asked = MemDoor;

    ghost faults = { λ ports. ports.calls.faults };

    ghost inlets_out = { λ ports. ports.inlets_out };

    ghost outlets_out = { λ ports. ports.outlets_out };

    ghost doors_out = { λ ports. ports.doors_out };

    ghost asked = { λ ports. Some ports.asked };

    ghost back = { λ ports. Some ports.back };

    ghost held = { λ ports. Some (held_at ports.held) };

    fn inlet(&mut self, alloc: Global, port: u16) -> Result<MemInlet, LinkStop>
        ensures new { IfOk result (λ inlet. inlet ≡ new_lane (held_at self.old.held port) (fails_at self.old.held port)) }
        ensures lent { OnOk result (self.new ≡ after_inlet self.old port) }
        ensures unlent { OnErr result (SameButCalls self.old self.new) }
        ensures named { (result ≡ Err LinkStop.Failed) ↔ IsTrue (is_named self.old.calls) }
        ensures cause { result ≡ Err LinkStop.Failed → Rose self.old.calls.faults self.new.calls.faults }
        ensures never_falls { self.old.calls.faults ≤ self.new.calls.faults }
    {
        self.calls.begin().map_err(|_| LinkStop::Failed)?;
        let lot = lot_at(alloc, &self.held, port).map_err(|_| LinkStop::OutOfMemory)?;
        self.asked.reserve(1).map_err(|_| LinkStop::OutOfMemory)?;
        self.returns
            .lend_inlet()
            .map_err(|_| LinkStop::OutOfMemory)?;
        self.asked.push_reserved(Ask::Inlet(port));
        Ok(MemInlet::new(lot.items, lot.fails))
    }

    fn outlet(&mut self, alloc: Global, routes: &[(u32, u16)]) -> Result<MemOutlet, LinkStop>
        ensures new { IfOk result (λ outlet. outlet ≡ new_outbox self.old.outlet_fails) }
        ensures lent { OnOk result (self.new ≡ after_outlet self.old routes.now) }
        ensures unlent { OnErr result (SameButCalls self.old self.new) }
        ensures named { (result ≡ Err LinkStop.Failed) ↔ IsTrue (is_named self.old.calls) }
        ensures cause { result ≡ Err LinkStop.Failed → Rose self.old.calls.faults self.new.calls.faults }
        ensures never_falls { self.old.calls.faults ≤ self.new.calls.faults }
    {
        self.calls.begin().map_err(|_| LinkStop::Failed)?;
        let fails = Vec::from_slice(alloc, &self.outlet_fails).map_err(|_| LinkStop::OutOfMemory)?;
        let routes = Vec::from_slice(alloc, routes).map_err(|_| LinkStop::OutOfMemory)?;
        self.asked.reserve(1).map_err(|_| LinkStop::OutOfMemory)?;
        self.returns
            .lend_outlet()
            .map_err(|_| LinkStop::OutOfMemory)?;
        self.asked
            .push_reserved(Ask::Outlet(Routes::from_vec(routes)));
        Ok(MemOutlet::new(alloc, fails))
    }

    fn door(&mut self, alloc: Global, port: u16) -> Result<MemDoor, LinkStop>
        ensures new { IfOk result (λ door. door ≡ new_desk (held_at self.old.held port) (fails_at self.old.held port)) }
        ensures lent { OnOk result (self.new ≡ after_door self.old port) }
        ensures unlent { OnErr result (SameButCalls self.old self.new) }
        ensures named { (result ≡ Err LinkStop.Failed) ↔ IsTrue (is_named self.old.calls) }
        ensures cause { result ≡ Err LinkStop.Failed → Rose self.old.calls.faults self.new.calls.faults }
        ensures never_falls { self.old.calls.faults ≤ self.new.calls.faults }
    {
        self.calls.begin().map_err(|_| LinkStop::Failed)?;
        let lot = lot_at(alloc, &self.held, port).map_err(|_| LinkStop::OutOfMemory)?;
        self.asked.reserve(1).map_err(|_| LinkStop::OutOfMemory)?;
        self.returns.lend_door().map_err(|_| LinkStop::OutOfMemory)?;
        self.asked.push_reserved(Ask::Door(port));
        Ok(MemDoor::new(alloc, lot.items, lot.fails))
    }

    fn back_in(&mut self, inlet: MemInlet)
        requires { 0 < self.old.inlets_out }
        ensures back { self.new ≡ after_back_in self.old inlet }
        ensures counted { 0 < inlet.calls.faults → Rose self.old.calls.faults self.new.calls.faults }
        ensures never_falls { self.old.calls.faults ≤ self.new.calls.faults }
    {
        self.calls.count(inlet.faults());
        self.returns.back_in(inlet);
    }

    fn back_out(&mut self, outlet: MemOutlet)
        requires { 0 < self.old.outlets_out }
        ensures back { self.new ≡ after_back_out self.old outlet }
        ensures counted { 0 < outlet.calls.faults → Rose self.old.calls.faults self.new.calls.faults }
        ensures never_falls { self.old.calls.faults ≤ self.new.calls.faults }
    {
        self.calls.count(outlet.faults());
        self.returns.back_out(outlet);
    }

    fn back_door(&mut self, door: MemDoor)
        requires { 0 < self.old.doors_out }
        ensures back { self.new ≡ after_back_door self.old door }
        ensures counted { 0 < door.lane.calls.faults → Rose self.old.calls.faults self.new.calls.faults }
        ensures never_falls { self.old.calls.faults ≤ self.new.calls.faults }
    {
        self.calls.count(door.faults());
        self.returns.back_door(door);
    }
}

/// A copy of what is held for this port, and nothing where nothing is.
fn lot_at(alloc: Global, held: &[Held], port: u16) -> Result<Held, AllocError>
    ensures items { IfOk result (λ lot. lot.items.items ≡ held_at held.now port) }
    ensures fails { IfOk result (λ lot. lot.fails.items ≡ fails_at held.now port) }
{
    match first_at(held, port) {
        Some(lot) => Ok(Held {
            port,
            items: Vec::from_clones(alloc, &lot.items)?,
            fails: Vec::from_slice(alloc, &lot.fails)?,
        }),
        None => Ok(Held {
            port,
            items: Vec::new(alloc),
            fails: Vec::new(alloc),
        }),
    }
}

/// What was given for this port first.
fn first_at(held: &[Held], port: u16) -> Option<&Held>
    ensures items { IfSome result (λ lot. held_at held.now port ≡ lot.now.items.items) }
    ensures fails { IfSome result (λ lot. fails_at held.now port ≡ lot.now.fails.items) }
    ensures no_items { IsNone result → held_at held.now port ≡ [] }
    ensures no_fails { IsNone result → fails_at held.now port ≡ [] }
{
    for lot in held {
        if lot.port == port {
            return Some(lot);
        }
    }
    None
}
