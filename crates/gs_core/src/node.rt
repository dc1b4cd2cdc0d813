ghost use Rattle.std.specs.Prelude.{◌≡◌, ◌+◌, ◌<◌, ◌≤◌, length, ◌||◌, nat_eq, nat_le, IfOk, IfErr, IfSome, OnOk, Ok, Err, Some, None};
ghost use Rattle.std.specs.List.{position};
ghost use Rattle.gs_units.specs.Params.{AreValid, IsSound};
ghost use Rattle.gs_beacon.specs.Beacons.{IsBeacon};
ghost use Rattle.gs_estimate.specs.Entries.{entry_at};
ghost use Rattle.gs_core.specs.Node.{clock_of, maximum_of, decided_mode, started, link_place};
ghost use Rattle.gs_core.specs.Steps.{is_end, reading_fault, tick_fault, deliver_fault, fault_of};
ghost use Rattle.gs_core.specs.State.{IsState, Ticks, Delivers, Takes, Refuses, CarriesBeacon, GivesBeacon};

use crate::event::NodeEvent;
use crate::quiet::is_quiet;
use crate::reply::{CoreFault, Reply, Ticked};
use gs_beacon::Beacon;
use gs_estimate::{Heard, Slots};
use gs_maximum::Max;
use gs_steer::{decide, follow_maximum};
use gs_units::{END, Link, Mode, NodeParams};
use std::alloc::{AllocError, Global};
use std::marker::Model;

/// One node of a network. Contracts see what it was told before it runs, and what it keeps.
#[derive(Debug, Drop)]
pub struct Core {
    params: NodeParams,
    l: u64,
    at: u64,
    mode: Mode,
    max: Max,
    slots: Slots,
    /// Room for the offsets of a tick.
    offsets: Vec<i128>,
    seq: u64,
    ticks: u32,
    last: u64,
}

impl Model for Core {
    ghost use Rattle.gs_core.specs.State.{State};

    ghost Value = { State };

    ghost use Rattle.gs_core.specs.inside.Seen.{state_of, IsInside};

    ghost view = { state_of };

    ghost invariant = { IsInside };
}

impl Core {
    /// A node that starts with the clock `l0` at the reading `hw`. See `docs/MODEL.md`, rule 3.
    pub fn start(alloc: Global, params: NodeParams, hw: u64, l0: u64) -> Result<Core, AllocError>
        requires valid { AreValid params }
        requires reading { hw < END }
        requires clock { l0 < END }
        ensures { IfOk result (λ core. core ≡ record { params = params; node = started params hw l0 }) }
    {
        let count = params.links.as_slice().len() as u32;
        let slots = Slots::new(alloc, count, l0, hw)?;
        let offsets = vec![in alloc; 0; count as usize]?;
        Ok(Core {
            params,
            l: l0,
            at: hw,
            mode: Mode::Slow,
            max: Max { base: l0, at: hw },
            slots,
            offsets,
            seq: 0,
            ticks: 0,
            last: hw,
        })
    }

    /// The logical clock at a reading, in clock units. See `docs/MODEL.md`, rule 2.
    pub fn clock(&self, now: u64) -> u64
        requires { (self.now.node.last ≤ now) × (now < END) }
        ensures { result ≡ clock_of self.now.params.rate self.now.node now }
    {
        self.l + self.params.rate.steer(self.mode, now - self.at)
    }

    /// What the node knows of the greatest clock at a reading, in clock units. See `docs/MODEL.md`,
    /// rule 2.
    pub fn maximum(&self, now: u64) -> u64
        requires { (self.now.node.last ≤ now) × (now < END) }
        ensures { result ≡ maximum_of self.now.params.rate self.now.node now }
    {
        self.max.value(&self.params.rate, now, self.clock(now))
    }

    /// The greatest reading that the node was given.
    pub fn last(&self) -> u64
        ensures value { result ≡ self.now.node.last }
        ensures kept { IsState self.now }
    {
        self.last
    }

    /// The mode since the last tick.
    pub fn mode(&self) -> Mode
        ensures { result ≡ self.now.node.mode }
    {
        self.mode
    }

    /// The sequence of the newest beacon that was heard over the link at `place`, or 0 before the first.
    pub fn newest(&self, place: u32) -> u64
        requires { place < length self.now.params.links }
        ensures { result ≡ (entry_at self.now.node.entries place).seq }
    {
        self.slots.entry(place).seq
    }

    /// What the node was told before it ran.
    pub fn params(&self) -> &NodeParams
        ensures { result.now ≡ self.now.params }
    {
        &self.params
    }

    /// Takes over the state of a node with the same parameters.
    pub fn copy_from(&mut self, other: &Core)
        requires { self.old.params ≡ other.now.params }
        ensures { self.new ≡ other.now }
    {
        self.l = other.l;
        self.at = other.at;
        self.mode = other.mode;
        self.max = other.max;
        self.slots.copy_from(&other.slots);
        self.seq = other.seq;
        self.ticks = other.ticks;
        self.last = other.last;
    }

    /// The next event of the node: a tick, or a beacon that comes. A core that refuses it is as it was.
    pub fn step(&mut self, event: &NodeEvent) -> Result<Reply, CoreFault>
        requires { CarriesBeacon event.now }
        ensures ok { IfOk result (Takes self.old self.new event.now) }
        ensures beacon { IfOk result GivesBeacon }
        ensures err { IfErr result
            (Refuses self.old self.new (fault_of self.old.params self.old.node event.now)) }
    {
        match event {
            NodeEvent::Tick { hw } => Ok(Reply::Ticked(self.tick(*hw)?)),
            NodeEvent::Deliver { hw, beacon } => Ok(Reply::Heard(self.deliver(beacon, *hw)?)),
        }
    }

    /// A tick at the reading `now`: decides the mode, and gives a beacon where one is due. A core that
    /// refuses it is as it was. See `docs/MODEL.md`, rule 7.
    pub fn tick(&mut self, now: u64) -> Result<Ticked, CoreFault>
        ensures ok { IfOk result (Ticks self.old self.new now) }
        ensures beacon { IfOk result (λ reply. IfSome reply.beacon IsBeacon) }
        ensures err { IfErr result (Refuses self.old self.new (tick_fault self.old.params self.old.node now)) }
    {
        self.admit_tick(now)?;
        Ok(self.take_tick(now))
    }

    /// The tick at the reading `now`, where it is known to have no fault.
    pub fn take_tick(&mut self, now: u64) -> Ticked
        requires { tick_fault self.old.params self.old.node now ≡ None }
        ensures ticks { Ticks self.old self.new now result }
        ensures beacon { IfSome result.beacon IsBeacon }
    {
        let l = self.clock(now);
        let m = self.maximum(now);
        let due = is_due(self.params.every, self.ticks);
        let mode = self.decide(now, l, m);
        self.l = l;
        self.at = now;
        self.mode = mode;
        self.last = now;
        let beacon = if due {
            self.seq += 1;
            self.ticks = 0;
            Some(Beacon {
                cluster: self.params.cluster,
                sender: self.params.node,
                seq: self.seq,
                l,
                m,
            })
        } else {
            self.ticks += 1;
            None
        };
        Ticked { l, m, mode, beacon }
    }

    /// A beacon comes at the reading `now`, and is taken where it is newer than all before of its sender.
    /// A core that refuses it is as it was. See `docs/MODEL.md`, rule 8.
    pub fn deliver(&mut self, beacon: &Beacon, now: u64) -> Result<Heard, CoreFault>
        requires { IsBeacon beacon.now }
        ensures ok { IfOk result (Delivers self.old self.new beacon.now now) }
        ensures err { IfErr result
            (Refuses self.old self.new (deliver_fault self.old.params self.old.node beacon.now now)) }
    {
        let place = self.admit_beacon(beacon, now)?;
        Ok(self.take_beacon(place, beacon, now))
    }

    /// Takes a beacon over the link at `place`, which is that to its sender, at the reading `now`, where
    /// it is known to have no fault.
    pub fn take_beacon(&mut self, place: u32, beacon: &Beacon, now: u64) -> Heard
        requires valid { IsBeacon beacon.now }
        requires place { link_place self.old.params beacon.now.sender ≡ Some place }
        requires no_fault { deliver_fault self.old.params self.old.node beacon.now now ≡ None }
        ensures { Delivers self.old self.new beacon.now now result }
    {
        let link = self.params.links.as_slice()[place as usize];
        let answer = self
            .slots
            .hear(place, beacon.seq, beacon.l + link.comp, now);
        if answer == Heard::Fresh {
            self.max.hear(&self.params.rate, beacon.m + link.jump, now);
        }
        self.last = now;
        answer
    }

    /// The mode that a tick decides at the reading `now`, where the clock is `l` and the maximum `m`.
    fn decide(&mut self, now: u64, l: u64, m: u64) -> Mode
        requires no_fault { tick_fault self.old.params self.old.node now ≡ None }
        requires clock { l ≡ clock_of self.old.params.rate self.old.node now }
        requires maximum { m ≡ maximum_of self.old.params.rate self.old.node now }
        ensures mode { result ≡ decided_mode self.old.params self.old.node now }
        ensures unchanged { self.new ≡ self.old }
    {
        let links = self.params.links.as_slice();
        if is_quiet(links, self.slots.as_slice(), now, l) {
            return follow_maximum(self.params.iota, m, l);
        }
        self.slots.write_offsets(now, l, &mut self.offsets);
        decide(links, self.params.iota, &self.offsets, m, l)
    }

    /// Why a reading is refused, whatever comes at it.
    fn admit_reading(&self, now: u64) -> Result<(), CoreFault>
        ensures ok { OnOk result (reading_fault self.now.params self.now.node now ≡ None) }
        ensures err { IfErr result (λ fault. reading_fault self.now.params self.now.node now ≡ Some fault) }
    {
        if now < self.last {
            return Err(CoreFault::Backward {
                last: self.last,
                now,
            });
        }
        if now >= END || self.clock(now) >= END || self.maximum(now) >= END {
            return Err(CoreFault::Far);
        }
        Ok(())
    }

    /// Why a tick is refused.
    fn admit_tick(&self, now: u64) -> Result<(), CoreFault>
        ensures ok { OnOk result (tick_fault self.now.params self.now.node now ≡ None) }
        ensures err { IfErr result (λ fault. tick_fault self.now.params self.now.node now ≡ Some fault) }
    {
        self.admit_reading(now)?;
        if is_due(self.params.every, self.ticks) && self.seq == u64::MAX {
            return Err(CoreFault::Far);
        }
        Ok(())
    }

    /// Why a beacon is refused, or the place of its sender's link.
    fn admit_beacon(&self, beacon: &Beacon, now: u64) -> Result<u32, CoreFault>
        requires { IsBeacon beacon.now }
        ensures ok { OnOk result (deliver_fault self.now.params self.now.node beacon.now now ≡ None) }
        ensures place { IfOk result (λ i. link_place self.now.params beacon.now.sender ≡ Some i) }
        ensures err { IfErr result (λ fault. deliver_fault self.now.params self.now.node beacon.now now ≡ Some fault) }
    {
        if beacon.cluster != self.params.cluster {
            return Err(CoreFault::Cluster);
        }
        let links = self.params.links.as_slice();
        let Some(i) = place(links, beacon.sender) else {
            return Err(CoreFault::Stranger(beacon.sender));
        };
        self.admit_reading(now)?;
        if is_ahead(&links[i], beacon) {
            return Err(CoreFault::Ahead);
        }
        Ok(i as u32)
    }
}

/// Whether the next tick gives a beacon, after `ticks` ticks without one.
fn is_due(every: u32, ticks: u32) -> bool
    requires { ticks < every }
    ensures { result ≡ nat_le every (ticks + 1) }
{
    ticks + 1 >= every
}

/// The place of the link to a node.
fn place(links: &[Link], node: u32) -> Option<usize>
    ensures place { result ≡ position (λ link. nat_eq link.node node) links.now }
    ensures within { IfSome result (λ i. i < length links.now) }
{
    links.iter().position(|link| link.node == node)
}

/// Whether what a beacon tells reaches `END` when it is raised for its way.
fn is_ahead(link: &Link, beacon: &Beacon) -> bool
    requires link { IsSound link.now }
    requires beacon { IsBeacon beacon.now }
    ensures { result ≡ (is_end (beacon.now.l + link.now.comp) || is_end (beacon.now.m + link.now.jump)) }
{
    beacon.l + link.comp >= END || beacon.m + link.jump >= END
}
