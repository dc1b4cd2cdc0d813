ghost use Rattle.std.specs.Prelude.{◌≡◌, ◌+◌, ◌<◌, ◌≤◌, [], ◌∷◌, ◌++◌, length};
ghost use Rattle.gs_net.specs.Weave.{doors_among, inlets_among, outlets_among};

use crate::shelf::Shelf;
use std::alloc::{AllocError, Global};

/// A kind of object that ports lend.
#[derive(Clone, Copy, Debug, PartialEq, Eq)]
pub enum Kind {
    Inlet,
    Outlet,
    Door,
}

/// What came back of each kind, the kinds in the order in which they came, and how many are out.
#[derive(Debug, Drop)]
pub(crate) struct Returns<I, O, D> {
    kinds: Shelf<Kind>,
    inlets: Shelf<I>,
    outlets: Shelf<O>,
    doors: Shelf<D>,
    ghost room: { inlets.out + outlets.out + doors.out ≤ kinds.out },
    ghost inlets_counted: { length inlets.returned.items ≡ inlets_among kinds.returned.items },
    ghost outlets_counted: { length outlets.returned.items ≡ outlets_among kinds.returned.items },
    ghost doors_counted: { length doors.returned.items ≡ doors_among kinds.returned.items },
}

impl<I, O, D> Returns<I, O, D> {
    ghost use Rattle.std.specs.Prelude.{◌≡◌, ◌+◌, ◌<◌, [], ◌∷◌, ◌++◌, OnOk, OnErr};
    ghost use Rattle.gs_net.specs.Lending.{doors_in, inlets_in, outlets_in, returned_door, returned_inlet, returned_outlet};
    ghost use Rattle.gs_net.specs.inside.Returns.{back_in_order};

    /// Nothing is out, and nothing came back.
    pub(crate) fn new(alloc: Global) -> Self
        ensures inlets { result.inlets.out ≡ 0 }
        ensures outlets { result.outlets.out ≡ 0 }
        ensures doors { result.doors.out ≡ 0 }
        ensures back { back_in_order result ≡ [] }
    {
        Returns {
            kinds: Shelf::new(alloc),
            inlets: Shelf::new(alloc),
            outlets: Shelf::new(alloc),
            doors: Shelf::new(alloc),
        }
    }

    /// Makes room for the return of an inlet, and counts it as out.
    pub(crate) fn lend_inlet(&mut self) -> Result<(), AllocError>
        ensures ok { OnOk result (self.new.inlets.out ≡ self.old.inlets.out + 1) }
        ensures err { OnErr result (self.new.inlets.out ≡ self.old.inlets.out) }
        ensures outlets { self.new.outlets.out ≡ self.old.outlets.out }
        ensures doors { self.new.doors.out ≡ self.old.doors.out }
        ensures back { back_in_order self.new ≡ back_in_order self.old }
    {
        self.kinds.lend()?;
        self.inlets.lend()
    }

    /// Makes room for the return of an outlet, and counts it as out.
    pub(crate) fn lend_outlet(&mut self) -> Result<(), AllocError>
        ensures ok { OnOk result (self.new.outlets.out ≡ self.old.outlets.out + 1) }
        ensures err { OnErr result (self.new.outlets.out ≡ self.old.outlets.out) }
        ensures inlets { self.new.inlets.out ≡ self.old.inlets.out }
        ensures doors { self.new.doors.out ≡ self.old.doors.out }
        ensures back { back_in_order self.new ≡ back_in_order self.old }
    {
        self.kinds.lend()?;
        self.outlets.lend()
    }

    /// Makes room for the return of a door, and counts it as out.
    pub(crate) fn lend_door(&mut self) -> Result<(), AllocError>
        ensures ok { OnOk result (self.new.doors.out ≡ self.old.doors.out + 1) }
        ensures err { OnErr result (self.new.doors.out ≡ self.old.doors.out) }
        ensures inlets { self.new.inlets.out ≡ self.old.inlets.out }
        ensures outlets { self.new.outlets.out ≡ self.old.outlets.out }
        ensures back { back_in_order self.new ≡ back_in_order self.old }
    {
        self.kinds.lend()?;
        self.doors.lend()
    }

    /// Keeps an inlet that came back.
    #[tactic(auto, using(crate::proofs::Weaving::woven))]
    pub(crate) fn back_in(&mut self, inlet: I)
        requires { 0 < self.old.inlets.out }
        ensures inlets { self.new.inlets.out + 1 ≡ self.old.inlets.out }
        ensures outlets { self.new.outlets.out ≡ self.old.outlets.out }
        ensures doors { self.new.doors.out ≡ self.old.doors.out }
        ensures back { back_in_order self.new ≡ back_in_order self.old ++ returned_inlet inlet ∷ [] }
    {
        self.kinds.take_back(Kind::Inlet);
        self.inlets.take_back(inlet);
    }

    /// Keeps an outlet that came back.
    #[tactic(auto, using(crate::proofs::Weaving::woven))]
    pub(crate) fn back_out(&mut self, outlet: O)
        requires { 0 < self.old.outlets.out }
        ensures outlets { self.new.outlets.out + 1 ≡ self.old.outlets.out }
        ensures inlets { self.new.inlets.out ≡ self.old.inlets.out }
        ensures doors { self.new.doors.out ≡ self.old.doors.out }
        ensures back { back_in_order self.new ≡ back_in_order self.old ++ returned_outlet outlet ∷ [] }
    {
        self.kinds.take_back(Kind::Outlet);
        self.outlets.take_back(outlet);
    }

    /// Keeps a door that came back.
    #[tactic(auto, using(crate::proofs::Weaving::woven))]
    pub(crate) fn back_door(&mut self, door: D)
        requires { 0 < self.old.doors.out }
        ensures doors { self.new.doors.out + 1 ≡ self.old.doors.out }
        ensures inlets { self.new.inlets.out ≡ self.old.inlets.out }
        ensures outlets { self.new.outlets.out ≡ self.old.outlets.out }
        ensures back { back_in_order self.new ≡ back_in_order self.old ++ returned_door door ∷ [] }
    {
        self.kinds.take_back(Kind::Door);
        self.doors.take_back(door);
    }

    /// The inlets that came back, in order.
    #[tactic(auto, using(crate::proofs::Weaving::found))]
    pub(crate) fn inlets(&self) -> &[I]
        ensures { result.now ≡ inlets_in (back_in_order self.now) }
    {
        self.inlets.returned()
    }

    /// The outlets that came back, in order.
    #[tactic(auto, using(crate::proofs::Weaving::found))]
    pub(crate) fn outlets(&self) -> &[O]
        ensures { result.now ≡ outlets_in (back_in_order self.now) }
    {
        self.outlets.returned()
    }

    /// The doors that came back, in order.
    #[tactic(auto, using(crate::proofs::Weaving::found))]
    pub(crate) fn doors(&self) -> &[D]
        ensures { result.now ≡ doors_in (back_in_order self.now) }
    {
        self.doors.returned()
    }
}
