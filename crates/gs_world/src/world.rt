ghost use Rattle.std.specs.Prelude.{◌≡◌, ◌≢◌, ◌<◌, ◌≤◌, ◌^◌, All, IfErr, IfOk, OnErr, OnOk, Err, None, Some, IfSome, length, nat_eq, position, slice_get};

use crate::clocks::{advance_clocks, counted, range};
use crate::deadlines::{Deadlines, oldest_heard, oldest_tick};
use crate::member::Member;
use crate::quantum::{advance_members, first_drift, first_due, first_old, first_stale};
use crate::sent::SentBeacon;
use gs_core::Event;
use gs_plan::Plan;
use gs_run::Refused;
use gs_units::{END, Mode};
use std::alloc::{AllocError, Global};
use std::marker::Model;

/// The most quanta of a world.
pub const MAX_QUANTA: u32 = 1 << 24;

/// All nodes of a network, with what no node sees: true readings and all beacons ever sent. Every value
/// of this type comes from some start by allowed events. Contracts see its plan and the world of
/// `docs/MODEL.md`, rule 9.
#[derive(Drop)]
pub struct World<'p> {
    plan: &'p Plan,
    quanta: u32,
    members: Vec<Member>,
    /// The logical clocks of all nodes.
    clocks: Vec<u64>,
    /// Before these the ticks and what was heard need no look.
    deadlines: Deadlines,
    /// The number of nodes in the fast mode.
    fast: u32,
}

impl<'p> Model for World<'p> {
    ghost use Rattle.gs_world.specs.Placed.{Placed};

    ghost Value = { Placed };

    ghost use Rattle.gs_world.specs.inside.Seen.{placed_of, IsInside};

    ghost view = { placed_of };

    ghost invariant = { IsInside };
}

impl<'p> World<'p> {
    ghost use Rattle.gs_core.specs.declared.event.Event.TheVariants.{Deliver, Quantum, Tick};
    ghost use Rattle.gs_plan.specs.Plans.{graph_of};
    ghost use Rattle.gs_skew.specs.Skews.{edge_skew, global_skew};
    ghost use Rattle.gs_world.specs.inside.Admitted.{IsAdmitted};
    ghost use Rattle.gs_world.specs.Memory.{IsTick};
    ghost use Rattle.gs_run.specs.Fast.{fast_in};
    ghost use Rattle.gs_world.specs.inside.Late.{AreDeadlines, IsNoneDueBefore, IsNoneStaleBefore, due_in, stale_in};
    ghost use Rattle.gs_run.specs.Nets.{net_of};
    ghost use Rattle.gs_run.specs.Reach.{IsReachable};
    ghost use Rattle.gs_run.specs.Why.{why};
    ghost use Rattle.gs_run.specs.World.{clock_in, clocks_in, effect, member, world_at_start, world_at_start_each};

    /// The start with these hardware readings and with one clock for all nodes, in clock units. See
    /// `docs/MODEL.md`, rule 14.
    pub fn start(
        alloc: Global,
        plan: &'p Plan,
        hw: &[u64],
        l0: u64,
    ) -> Result<World<'p>, AllocError>
        requires nodes { length hw.now ≡ (graph_of plan.now).nodes }
        requires readings { All (λ reading. reading ≤ 2 ^ 61) hw.now }
        requires clock { l0 ≤ 2 ^ 61 }
        ensures { IfOk result
            (λ world.
            world ≡ record { plan = plan.now; world = world_at_start (net_of plan.now) hw.now l0 }) }
    {
        let l0s = vec![in alloc; l0; hw.len()]?;
        World::start_each(alloc, plan, hw, &l0s)
    }

    /// The start with a hardware reading and a clock for each node, in clock units.
    pub fn start_each(
        alloc: Global,
        plan: &'p Plan,
        hw: &[u64],
        l0: &[u64],
    ) -> Result<World<'p>, AllocError>
        requires nodes { length hw.now ≡ (graph_of plan.now).nodes }
        requires readings { All (λ reading. reading ≤ 2 ^ 61) hw.now }
        requires one_each { length l0.now ≡ (graph_of plan.now).nodes }
        requires clocks { All (λ clock. clock ≤ 2 ^ 61) l0.now }
        ensures { IfOk result
            (λ world.
            world ≡ record { plan = plan.now; world = world_at_start_each (net_of plan.now) hw.now l0.now }) }
    {
        let mut members = Vec::new(alloc);
        for v in 0..plan.topo().nodes() {
            let member = Member::start(alloc, plan, v, hw[v as usize], l0[v as usize])?;
            members.push(member)?;
        }
        let clocks = Vec::from_slice(alloc, l0)?;
        Ok(World {
            plan,
            quanta: 0,
            members,
            clocks,
            deadlines: Deadlines { due: 0, stale: 0 },
            fast: 0,
        })
    }

    /// One event, where it is allowed: `docs/MODEL.md`, rules 10 to 12. A refusal changes nothing, and
    /// only a tick may take memory.
    pub fn step(&mut self, event: &Event) -> Result<(), Refused>
        ensures plan { self.new.plan ≡ self.old.plan }
        ensures allowed { OnOk result (why (net_of self.old.plan) self.old.world event.now ≡ None) }
        ensures effect { OnOk result
            (self.new.world ≡ effect (net_of self.old.plan) self.old.world event.now) }
        ensures err { IfErr result
            (λ refused. refused ≢ Refused.OutOfMemory
            → why (net_of self.old.plan) self.old.world event.now ≡ Some refused) }
        ensures unchanged { OnErr result (self.new ≡ self.old) }
        ensures memory { result ≡ Err Refused.OutOfMemory → IsTick event.now }
    {
        match event {
            Event::Quantum(incs) => self.advance(incs.as_slice()),
            Event::Tick(v) => self.tick(*v),
            Event::Deliver { from, to, seq } => self.deliver(*from, *to, *seq),
        }
    }

    /// One quantum, in which each hardware clock adds its increment. It takes no memory.
    pub fn advance(&mut self, incs: &[u32]) -> Result<(), Refused>
        ensures plan { self.new.plan ≡ self.old.plan }
        ensures allowed { OnOk result
            (why (net_of self.old.plan) self.old.world (Quantum incs.now) ≡ None) }
        ensures effect { OnOk result
            (self.new.world ≡ effect (net_of self.old.plan) self.old.world (Quantum incs.now)) }
        ensures err { IfErr result
            (λ refused.
            why (net_of self.old.plan) self.old.world (Quantum incs.now) ≡ Some refused) }
        ensures unchanged { OnErr result (self.new ≡ self.old) }
    {
        self.deadlines = self.admit_quantum(incs)?;
        self.quanta += 1;
        advance_members(&mut self.members, incs);
        advance_clocks(&self.members, self.fast, incs, &mut self.clocks);
        Ok(())
    }

    /// Why a quantum is refused, or from when on to look again for what is late.
    fn admit_quantum(&self, incs: &[u32]) -> Result<Deadlines, Refused>
        ensures ok { OnOk result
            (why (net_of self.now.plan) self.now.world (Quantum incs.now) ≡ None) }
        ensures deadlines { IfOk result (AreDeadlines (net_of self.now.plan) self.now.world) }
        ensures err { IfErr result
            (λ refused.
            why (net_of self.now.plan) self.now.world (Quantum incs.now) ≡ Some refused) }
    {
        if incs.len() != self.members.len() {
            return Err(Refused::Shape);
        }
        if self.quanta >= MAX_QUANTA {
            return Err(Refused::End);
        }
        let rate = self.plan.rate();
        if let Some(v) = first_drift(rate.lo(), rate.hi(), incs) {
            return Err(Refused::Drift(v as u32));
        }
        let due = self.admit_ticks()?;
        let stale = self.admit_ages()?;
        Ok(Deadlines { due, stale })
    }

    /// The least node whose tick is due, or from when on to look again.
    fn admit_ticks(&self) -> Result<u64, Refused>
        ensures ok { OnOk result (due_in (net_of self.now.plan) self.now.world ≡ None) }
        ensures deadline { IfOk result (IsNoneDueBefore (net_of self.now.plan) self.now.world) }
        ensures err { IfErr result
            (λ refused. due_in (net_of self.now.plan) self.now.world ≡ Some refused) }
    {
        if u64::from(self.quanta) < self.deadlines.due {
            return Ok(self.deadlines.due);
        }
        let gap = self.plan.text().tick;
        match first_due(gap, self.quanta, &self.members) {
            Some(v) => Err(Refused::TickDue(v as u32)),
            None => Ok(u64::from(oldest_tick(&self.members)) + u64::from(gap)),
        }
    }

    /// The least node that heard some neighbour too long ago, or from when on to look again.
    fn admit_ages(&self) -> Result<u64, Refused>
        ensures ok { OnOk result (stale_in (net_of self.now.plan) self.now.world ≡ None) }
        ensures deadline { IfOk result (IsNoneStaleBefore (net_of self.now.plan) self.now.world) }
        ensures err { IfErr result
            (λ refused. stale_in (net_of self.now.plan) self.now.world ≡ Some refused) }
    {
        if u64::from(self.quanta) < self.deadlines.stale {
            return Ok(self.deadlines.stale);
        }
        let age = self.plan.text().age;
        match self.stale() {
            Some(refused) => Err(refused),
            None => Ok(u64::from(oldest_heard(&self.members)) + u64::from(age)),
        }
    }

    /// The refusal of the least node that heard some neighbour too long ago, with its least such
    /// neighbour.
    fn stale(&self) -> Option<Refused>
        ensures { result ≡ stale_in (net_of self.now.plan) self.now.world }
    {
        let age = self.plan.text().age;
        let v = first_stale(age, self.quanta, &self.members)?;
        let i = first_old(age, self.quanta, &self.members[v].heard)?;
        Some(Refused::Stale(self.plan.topo().neighbours(v as u32)[i], v as u32))
    }

    /// One tick of a node.
    fn tick(&mut self, v: u32) -> Result<(), Refused>
        ensures plan { self.new.plan ≡ self.old.plan }
        ensures allowed { OnOk result (why (net_of self.old.plan) self.old.world (Tick v) ≡ None) }
        ensures effect { OnOk result
            (self.new.world ≡ effect (net_of self.old.plan) self.old.world (Tick v)) }
        ensures err { IfErr result
            (λ refused. refused ≢ Refused.OutOfMemory
            → why (net_of self.old.plan) self.old.world (Tick v) ≡ Some refused) }
        ensures unchanged { OnErr result (self.new ≡ self.old) }
    {
        let quanta = self.quanta;
        if v >= self.plan.topo().nodes() {
            return Err(Refused::Shape);
        }
        let member = &mut self.members[v as usize];
        let was = member.is_fast();
        member.tick(quanta)?;
        let is = member.is_fast();
        let due = u64::from(quanta) + u64::from(self.plan.text().tick);
        self.deadlines = self.deadlines.with_due(due);
        self.fast = counted(self.fast, was, is);
        Ok(())
    }

    /// One delivery of a beacon.
    fn deliver(&mut self, from: u32, to: u32, seq: u64) -> Result<(), Refused>
        ensures plan { self.new.plan ≡ self.old.plan }
        ensures allowed { OnOk result
            (why (net_of self.old.plan) self.old.world (Deliver from to seq) ≡ None) }
        ensures effect { OnOk result
            (self.new.world ≡ effect (net_of self.old.plan) self.old.world (Deliver from to seq)) }
        ensures err { IfErr result
            (λ refused.
            why (net_of self.old.plan) self.old.world (Deliver from to seq) ≡ Some refused) }
        ensures unchanged { OnErr result (self.new ≡ self.old) }
    {
        let (i, sent) = self.admit_delivery(from, to, seq)?;
        self.members[to as usize].hear(i, &sent);
        let stale = u64::from(sent.quantum()) + u64::from(self.plan.text().age);
        self.deadlines = self.deadlines.with_stale(stale);
        Ok(())
    }

    /// Why a delivery is refused, or the place of the sender's edge and what was sent.
    fn admit_delivery(&self, from: u32, to: u32, seq: u64) -> Result<(u32, SentBeacon), Refused>
        ensures ok { IfOk result
            (λ found.
            IsAdmitted (net_of self.now.plan) self.now.world from to seq found.0 found.1) }
        ensures err { IfErr result
            (λ refused.
            why (net_of self.now.plan) self.now.world (Deliver from to seq) ≡ Some refused) }
    {
        let topo = self.plan.topo();
        if to >= topo.nodes() {
            return Err(Refused::Shape);
        }
        let Some(i) = place(topo.neighbours(to), from) else {
            return Err(Refused::Shape);
        };
        let i = i as u32;
        let Some(sent) = SentBeacon::at_number(&self.members[from as usize].sent, seq) else {
            return Err(Refused::Unknown);
        };
        let member = &self.members[to as usize];
        if member.is_newer(i, sent.beacon().seq) {
            member.delays[i as usize].admit(sent.quantum(), self.quanta)?;
        }
        Ok((i, sent))
    }

    /// The count of quanta taken.
    pub fn quanta(&self) -> u32
        ensures value { result ≡ self.now.world.quanta }
        ensures few { result ≤ MAX_QUANTA }
        ensures reachable { IsReachable (net_of self.now.plan) self.now.world }
    {
        self.quanta
    }

    /// The logical clock of node `v`, in clock units.
    pub fn clock(&self, v: u32) -> u64
        requires { v < (graph_of self.now.plan).nodes }
        ensures value { result ≡ clock_in (net_of self.now.plan) self.now.world v }
        ensures below { result < END }
    {
        self.clocks[v as usize]
    }

    /// The hardware reading of node `v`, in clock units.
    pub fn reading(&self, v: u32) -> u64
        requires { v < (graph_of self.now.plan).nodes }
        ensures value { result ≡ (member self.now.world v).reading }
        ensures below { result < END }
    {
        self.members[v as usize].reading
    }

    /// The mode of node `v` since its last tick.
    pub fn mode(&self, v: u32) -> Mode
        requires { v < (graph_of self.now.plan).nodes }
        ensures { result ≡ (member self.now.world v).node.mode }
    {
        self.members[v as usize].core.mode()
    }

    /// The logical clocks of all nodes, in clock units, each at the place of its node.
    pub fn clocks(&self) -> &[u64]
        ensures { result.now ≡ clocks_in (net_of self.now.plan) self.now.world }
    {
        &self.clocks
    }

    /// Writes the logical clocks of all nodes, in clock units, each at the place of its node. It takes no
    /// memory.
    pub fn write_clocks(&self, clocks: &mut [u64])
        requires { length clocks.old ≡ (graph_of self.now.plan).nodes }
        ensures { clocks.new ≡ clocks_in (net_of self.now.plan) self.now.world }
    {
        clocks.copy_from_slice(&self.clocks);
    }

    /// The number of nodes in the fast mode.
    pub fn fast_nodes(&self) -> u32
        ensures { result ≡ fast_in self.now.world }
    {
        self.fast
    }

    /// The greatest difference of two logical clocks, in clock units.
    pub fn global_skew(&self) -> u64
        ensures { result ≡ global_skew (clocks_in (net_of self.now.plan) self.now.world) }
    {
        range(&self.clocks).width()
    }

    /// The difference of the logical clocks at the ends of the edge of this number, in clock units.
    pub fn edge_skew(&self, e: u32) -> u64
        requires { e < length (graph_of self.now.plan).edges }
        ensures { IfSome (slice_get (graph_of self.now.plan).edges e)
            (λ edge. result ≡ edge_skew (clocks_in (net_of self.now.plan) self.now.world) edge) }
    {
        let (v, w) = self.plan.topo().edges()[e as usize];
        self.clock(v).abs_diff(self.clock(w))
    }
}

/// The place of a node among some.
fn place(nodes: &[u32], x: u32) -> Option<usize>
    ensures { result ≡ position (λ y. nat_eq y x) nodes.now }
{
    nodes.iter().position(|y| *y == x)
}
