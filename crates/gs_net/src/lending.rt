ghost use Rattle.std.specs.Prelude.{◌≡◌, ◌+◌, ◌<◌, ◌≤◌, ℕ, List, false, Option, Err, IfOk, OnOk, OnErr};
ghost use Rattle.gs_io.specs.Causes.{Rose};
ghost use Rattle.gs_net.specs.Tales.{IsFresh, IsUnused, Tale, added};
ghost use Rattle.gs_net.specs.Lending.{Holds, Returned, returned_door, returned_inlet, returned_outlet};
ghost use Rattle.gs_net.specs.declared.items.Item.{Item};
ghost use Rattle.gs_net.specs.declared.lending.Ask.{Ask};

use crate::inlets::{Door, Inlet};
use crate::items::LinkStop;
use crate::outlets::Outlet;
use std::alloc::Global;
use std::marker::Model;

/// Neighbours, each with the port at which it receives. Contracts see the list of them.
#[derive(Debug, Drop)]
pub struct Routes {
    routes: Vec<(u32, u16)>,
}

impl Model for Routes {
    ghost use Rattle.std.specs.Prelude.{List, ℕ};

    ghost Value = { List (ℕ × ℕ) };

    ghost view = { λ routes. routes.routes.items };
}

impl Routes {
    /// The routes of this list, in its order.
    pub fn from_vec(routes: Vec<(u32, u16)>) -> Self
        ensures { result ≡ routes.items }
    {
        Routes { routes }
    }

    /// The routes in order.
    pub fn as_slice(&self) -> &[(u32, u16)]
        ensures { result.now ≡ self.now }
    {
        &self.routes
    }
}

/// What was asked of ports.
#[derive(Debug, Drop)]
pub enum Ask {
    /// The inlet of this port.
    Inlet(u16),
    /// An outlet to these neighbours.
    Outlet(Routes),
    /// The door of this port.
    Door(u16),
}

/// What lends inlets, outlets and doors, and takes them back.
pub trait Ports {
    /// Its inlets.
    type In: Inlet;

    /// Its outlets.
    type Out: Outlet;

    /// Its doors.
    type Asked: Door;

    /// How often it has failed; a returned object that had failed counts as one.
    ghost faults: { Self → ℕ };

    /// How many inlets are out.
    ghost inlets_out: { Self → ℕ };

    /// How many outlets are out.
    ghost outlets_out: { Self → ℕ };

    /// How many doors are out.
    ghost doors_out: { Self → ℕ };

    /// What was asked of it and was lent, in order, where it tells this.
    ghost asked: { Self → Option (List Ask) };

    /// What came back, in order, where it tells this.
    ghost back: { Self → Option (List (Returned Self.In Self.Out Self.Asked)) };

    /// The items that it holds for each port, where it tells them.
    ghost held: { Self → Option (ℕ → List Item) };

    /// Lends the inlet of this port.
    fn inlet(&mut self, alloc: Global, port: u16) -> Result<Self::In, LinkStop>
        ensures unfailed { IfOk result (λ inlet. Self.In.faults inlet ≡ 0) }
        ensures untaken { IfOk result (λ inlet. Self.In.taken inlet ≡ false) }
        ensures fresh { IfOk result (λ inlet. IsFresh (Self.In.tale inlet)) }
        ensures holds { IfOk result (λ inlet. Holds (held self.old) port (Self.In.tale inlet)) }
        ensures lent { OnOk result (inlets_out self.new ≡ inlets_out self.old + 1) }
        ensures asked { OnOk result (asked self.new ≡ added (asked self.old) (Ask.Inlet port)) }
        ensures unlent { OnErr result (inlets_out self.new ≡ inlets_out self.old) }
        ensures unasked { OnErr result (asked self.new ≡ asked self.old) }
        ensures outlets { outlets_out self.new ≡ outlets_out self.old }
        ensures doors { doors_out self.new ≡ doors_out self.old }
        ensures back { back self.new ≡ back self.old }
        ensures held { held self.new ≡ held self.old }
        ensures cause { result ≡ Err LinkStop.Failed → Rose (faults self.old) (faults self.new) }
        ensures never_falls { faults self.old ≤ faults self.new };

    /// Lends an outlet to these neighbours, each of which receives at its port.
    fn outlet(&mut self, alloc: Global, routes: &[(u32, u16)]) -> Result<Self::Out, LinkStop>
        ensures unfailed { IfOk result (λ outlet. Self.Out.faults outlet ≡ 0) }
        ensures unsent { IfOk result (λ outlet. IsUnused (Self.Out.sent outlet)) }
        ensures lent { OnOk result (outlets_out self.new ≡ outlets_out self.old + 1) }
        ensures asked { OnOk result (asked self.new ≡ added (asked self.old) (Ask.Outlet routes.now)) }
        ensures unlent { OnErr result (outlets_out self.new ≡ outlets_out self.old) }
        ensures unasked { OnErr result (asked self.new ≡ asked self.old) }
        ensures inlets { inlets_out self.new ≡ inlets_out self.old }
        ensures doors { doors_out self.new ≡ doors_out self.old }
        ensures back { back self.new ≡ back self.old }
        ensures held { held self.new ≡ held self.old }
        ensures cause { result ≡ Err LinkStop.Failed → Rose (faults self.old) (faults self.new) }
        ensures never_falls { faults self.old ≤ faults self.new };

    /// Lends the door of this port.
    fn door(&mut self, alloc: Global, port: u16) -> Result<Self::Asked, LinkStop>
        ensures unfailed { IfOk result (λ door. Self.Asked.Inlet.faults door ≡ 0) }
        ensures untaken { IfOk result (λ door. Self.Asked.Inlet.taken door ≡ false) }
        ensures fresh { IfOk result (λ door. IsFresh (Self.Asked.Inlet.tale door)) }
        ensures holds { IfOk result (λ door. Holds (held self.old) port (Self.Asked.Inlet.tale door)) }
        ensures unreplied { IfOk result (λ door. IsUnused (Self.Asked.Inlet.replies door)) }
        ensures lent { OnOk result (doors_out self.new ≡ doors_out self.old + 1) }
        ensures asked { OnOk result (asked self.new ≡ added (asked self.old) (Ask.Door port)) }
        ensures unlent { OnErr result (doors_out self.new ≡ doors_out self.old) }
        ensures unasked { OnErr result (asked self.new ≡ asked self.old) }
        ensures inlets { inlets_out self.new ≡ inlets_out self.old }
        ensures outlets { outlets_out self.new ≡ outlets_out self.old }
        ensures back { back self.new ≡ back self.old }
        ensures held { held self.new ≡ held self.old }
        ensures cause { result ≡ Err LinkStop.Failed → Rose (faults self.old) (faults self.new) }
        ensures never_falls { faults self.old ≤ faults self.new };

    /// Takes an inlet back.
    fn back_in(&mut self, inlet: Self::In)
        requires { 0 < inlets_out self.old }
        ensures returned { inlets_out self.new + 1 ≡ inlets_out self.old }
        ensures back { back self.new ≡ added (back self.old) (returned_inlet inlet) }
        ensures outlets { outlets_out self.new ≡ outlets_out self.old }
        ensures doors { doors_out self.new ≡ doors_out self.old }
        ensures asked { asked self.new ≡ asked self.old }
        ensures held { held self.new ≡ held self.old }
        ensures counted { 0 < Self.In.faults inlet → Rose (faults self.old) (faults self.new) }
        ensures never_falls { faults self.old ≤ faults self.new };

    /// Takes an outlet back.
    fn back_out(&mut self, outlet: Self::Out)
        requires { 0 < outlets_out self.old }
        ensures returned { outlets_out self.new + 1 ≡ outlets_out self.old }
        ensures back { back self.new ≡ added (back self.old) (returned_outlet outlet) }
        ensures inlets { inlets_out self.new ≡ inlets_out self.old }
        ensures doors { doors_out self.new ≡ doors_out self.old }
        ensures asked { asked self.new ≡ asked self.old }
        ensures held { held self.new ≡ held self.old }
        ensures counted { 0 < Self.Out.faults outlet → Rose (faults self.old) (faults self.new) }
        ensures never_falls { faults self.old ≤ faults self.new };

    /// Takes a door back.
    fn back_door(&mut self, door: Self::Asked)
        requires { 0 < doors_out self.old }
        ensures returned { doors_out self.new + 1 ≡ doors_out self.old }
        ensures back { back self.new ≡ added (back self.old) (returned_door door) }
        ensures inlets { inlets_out self.new ≡ inlets_out self.old }
        ensures outlets { outlets_out self.new ≡ outlets_out self.old }
        ensures asked { asked self.new ≡ asked self.old }
        ensures held { held self.new ≡ held self.old }
        ensures counted { 0 < Self.Asked.Inlet.faults door → Rose (faults self.old) (faults self.new) }
        ensures never_falls { faults self.old ≤ faults self.new };
}
