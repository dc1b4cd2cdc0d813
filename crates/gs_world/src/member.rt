ghost use Rattle.std.specs.Prelude.{◌≡◌, ◌<◌, ◌≤◌, ◌-◌, ◌^◌, map, length, IfOk, OnOk, OnErr, None, Some};

use crate::delay::{Delay, delays};
use crate::sent::SentBeacon;
use gs_core::{Core, Heard};
use gs_plan::Plan;
use gs_units::Mode;
use std::alloc::{AllocError, Global};

/// What the world holds of one node. The last two lists have an item for each neighbour, in ascending
/// order.
#[derive(Drop)]
pub(crate) struct Member {
    pub(crate) core: Core,
    /// The hardware reading, in clock units.
    pub(crate) reading: u64,
    /// The quantum of the last tick.
    pub(crate) ticked_at: u32,
    /// All beacons that the node ever sent, in turn.
    pub(crate) sent: Vec<SentBeacon>,
    /// The quantum in which the newest beacon heard was sent, 0 at the start.
    pub(crate) heard: Vec<u32>,
    /// How long beacons take.
    pub(crate) delays: Vec<Delay>,
}

impl Member {
    ghost use Rattle.gs_estimate.specs.Entries.{entry_at, is_fresh};
    ghost use Rattle.gs_core.specs.Node.{clock_of, link_place};
    ghost use Rattle.gs_core.specs.Steps.{deliver_fault, tick_fault};
    ghost use Rattle.gs_plan.specs.Plans.{graph_of};
    ghost use Rattle.gs_run.specs.Fast.{is_fast};
    ghost use Rattle.gs_run.specs.Nets.{net_of};
    ghost use Rattle.gs_world.specs.inside.Members.{member_of, IsMember, IsToldAs};
    ghost use Rattle.gs_run.specs.World.{heard_member, member_at_start, ticked_member};

    /// Node `v` of a plan, with the clock `l0` at the reading `hw`. See `docs/MODEL.md`, rule 3.
    pub(crate) fn start(
        alloc: Global,
        plan: &Plan,
        v: u32,
        hw: u64,
        l0: u64,
    ) -> Result<Member, AllocError>
        requires node { v < (graph_of plan.now).nodes }
        requires reading { hw < 2 ^ 62 }
        requires clock { l0 < 2 ^ 62 }
        ensures told { IfOk result (IsMember (net_of plan.now) v) }
        ensures member { IfOk result
            (λ member. member_of member ≡ member_at_start (net_of plan.now) v hw l0) }
    {
        let params = plan.node(alloc, v)?;
        let count = params.links.as_slice().len();
        let heard = vec![in alloc; 0; count]?;
        let delays = delays(alloc, plan, v)?;
        let core = Core::start(alloc, params, hw, l0)?;
        Ok(Member {
            core,
            reading: hw,
            ticked_at: 0,
            sent: Vec::new(alloc),
            heard,
            delays,
        })
    }

    /// The logical clock, in clock units.
    pub(crate) fn clock(&self) -> u64
        requires { (self.now.core.node.last ≤ self.now.reading) × (self.now.reading < 2 ^ 62) }
        ensures { result ≡ clock_of self.now.core.params.rate self.now.core.node self.now.reading }
    {
        self.core.clock(self.reading)
    }

    /// Whether the node is in the fast mode.
    pub(crate) fn is_fast(&self) -> bool
        ensures { result ≡ is_fast self.now.core.node.mode }
    {
        self.core.mode() == Mode::Fast
    }

    /// Whether a beacon of this sequence is newer than what was heard of the neighbour at place `i`.
    pub(crate) fn is_newer(&self, i: u32, seq: u64) -> bool
        requires { i < length self.now.core.params.links }
        ensures { result ≡ is_fresh (entry_at self.now.core.node.entries i) seq }
    {
        self.core.newest(i) < seq
    }

    /// A tick after `quanta` quanta, which has no fault. A refusal of memory changes nothing. See
    /// `docs/MODEL.md`, rule 11.
    pub(crate) fn tick(&mut self, quanta: u32) -> Result<(), AllocError>
        requires { length self.old.sent.items < 2 ^ 64 - 1
            → tick_fault self.old.core.params self.old.core.node self.old.reading ≡ None }
        ensures ok { OnOk result
            (member_of self.new ≡ ticked_member self.old.core.params quanta (member_of self.old)) }
        ensures err { OnErr result (member_of self.new ≡ member_of self.old) }
        ensures told { IsToldAs self.old self.new }
    {
        self.sent.reserve(1)?;
        // The room of a list is bounded, so that a node never runs out of sequences.
        let _room = self.sent.capacity();
        let ticked = self.core.take_tick(self.reading);
        self.ticked_at = quanta;
        if let Some(beacon) = ticked.beacon {
            self.sent.push_reserved(SentBeacon::new(quanta, beacon));
        }
        Ok(())
    }

    /// A beacon of the neighbour at place `i` comes, which has no fault. See `docs/MODEL.md`, rule 12.
    pub(crate) fn hear(&mut self, i: u32, sent: &SentBeacon)
        requires place { link_place self.old.core.params sent.now.beacon.sender ≡ Some i }
        requires heard { i < length self.old.heard.items }
        requires no_fault { deliver_fault self.old.core.params self.old.core.node
            sent.now.beacon self.old.reading
            ≡ None }
        ensures member { member_of self.new
            ≡ heard_member self.old.core.params i sent.now (member_of self.old) }
        ensures told { IsToldAs self.old self.new }
    {
        match self.core.take_beacon(i, sent.beacon(), self.reading) {
            Heard::Fresh => self.heard[i as usize] = sent.quantum(),
            Heard::Old => {}
        }
    }
}
