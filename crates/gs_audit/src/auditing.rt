ghost use Rattle.std.specs.Prelude.{◌≡◌, ◌≢◌, ◌<◌, ◌^◌, [], ◌∷◌, length, List, IfErr, IfOk, OnOk, Some};
ghost use Rattle.gs_core.specs.declared.event.Event.{Event};
ghost use Rattle.gs_core.specs.declared.event.Event.TheVariants as event;
ghost use Rattle.gs_core.specs.inside.Events.{IsNoQuantum};
ghost use Rattle.gs_plan.specs.Plans.{graph_of};
ghost use Rattle.gs_plan.specs.declared.plan.Plan.{Plan};
ghost use Rattle.gs_trace.specs.Scans.{event_told};
ghost use Rattle.gs_trace.specs.Starts.{FitsWorld};
ghost use Rattle.gs_trace.specs.declared.start.WorldStart.{WorldStart};
ghost use Rattle.gs_audit.specs.Verdicts.{refusal_at, report_at};

use gs_core::Event;
use gs_level::{Report, Tally};
use gs_plan::Plan;
use gs_trace::{Next, WorldStart};
use gs_world::{Refused, World};
use std::alloc::{AllocError, Global};

/// An audit under way: the world now, and what is known of the rows of clocks so far, of which `clocks` is
/// the last.
#[derive(Drop)]
pub(crate) struct Auditing<'p> {
    plan: &'p Plan,
    world: World<'p>,
    tally: Tally,
    clocks: Vec<u64>,
    /// The pairs of a node and a quantum that it took in fast mode.
    fast: u64,
    /// The number of events so far.
    pub(crate) index: u64,
}

/// An event as a scan tells it: the increments of a quantum stand beside it.
pub(crate) fn told(event: &Event) -> (Next, &[u32])
    ensures { event_told result.0 result.1.now ≡ event.now }
{
    match event {
        Event::Quantum(incs) => (Next::Quantum, incs.as_slice()),
        Event::Tick(v) => (Next::Tick(*v), &[]),
        Event::Deliver { from, to, seq } => (
            Next::Deliver {
                from: *from,
                to: *to,
                seq: *seq,
            },
            &[],
        ),
    }
}

impl<'p> Auditing<'p> {
    ghost use Rattle.gs_audit.specs.inside.Running.{IsAuditing};

    /// The start.
    pub(crate) fn start(
        alloc: Global,
        plan: &'p Plan,
        start: &WorldStart,
    ) -> Result<Auditing<'p>, AllocError>
        requires { FitsWorld (graph_of plan.now).nodes start.now }
        ensures { IfOk result (λ auditing. (all : List Event) → length all < 2 ^ 64
            → IsAuditing plan.now start.now all all auditing) }
    {
        let mut clocks = vec![in alloc; 0; plan.topo().nodes() as usize]?;
        let world = World::start(alloc, plan, start.hw.as_slice(), start.l0)?;
        world.write_clocks(&mut clocks);
        Ok(Auditing {
            plan,
            world,
            tally: Tally::new(plan, &clocks),
            clocks,
            fast: 0,
            index: 0,
        })
    }

    /// Takes the first event that is left. A refusal changes nothing.
    pub(crate) fn step(&mut self, next: Next, incs: &[u32]) -> Result<(), Refused>
        requires { (p : Plan) × (s : WorldStart) × (all : List Event) × (left : List Event)
            × IsAuditing p s all (event_told next incs.now ∷ left) self.old }
        ensures ok { (p : Plan) (s : WorldStart) (all left : List Event)
            → IsAuditing p s all (event_told next incs.now ∷ left) self.old
            → OnOk result (IsAuditing p s all left self.new) }
        ensures err { (p : Plan) (s : WorldStart) (all left : List Event)
            → IsAuditing p s all (event_told next incs.now ∷ left) self.old
            → IfErr result (λ refused. refused ≢ Refused.OutOfMemory
            → refusal_at p s all ≡ Some (self.new.index, refused)) }
    {
        match next {
            Next::Quantum => self.quantum(incs),
            Next::Tick(v) => self.other(&Event::Tick(v)),
            Next::Deliver { from, to, seq } => self.other(&Event::Deliver { from, to, seq }),
        }
    }

    /// Takes a quantum. A node that is in fast mode before it takes it so.
    fn quantum(&mut self, incs: &[u32]) -> Result<(), Refused>
        requires { (p : Plan) × (s : WorldStart) × (all : List Event) × (left : List Event)
            × IsAuditing p s all (event.Quantum incs.now ∷ left) self.old }
        ensures ok { (p : Plan) (s : WorldStart) (all left : List Event)
            → IsAuditing p s all (event.Quantum incs.now ∷ left) self.old
            → OnOk result (IsAuditing p s all left self.new) }
        ensures err { (p : Plan) (s : WorldStart) (all left : List Event)
            → IsAuditing p s all (event.Quantum incs.now ∷ left) self.old
            → IfErr result (λ refused. refused ≢ Refused.OutOfMemory
            → refusal_at p s all ≡ Some (self.new.index, refused)) }
    {
        let fast = self.world.fast_nodes();
        self.world.advance(incs)?;
        self.fast += u64::from(fast);
        self.index += 1;
        self.world.write_clocks(&mut self.clocks);
        self.tally.add(self.plan, &self.clocks);
        Ok(())
    }

    /// Takes a tick or a delivery.
    fn other(&mut self, event: &Event) -> Result<(), Refused>
        requires no_quantum { IsNoQuantum event.now }
        requires first { (p : Plan) × (s : WorldStart) × (all : List Event) × (left : List Event)
            × IsAuditing p s all (event.now ∷ left) self.old }
        ensures ok { (p : Plan) (s : WorldStart) (all left : List Event)
            → IsAuditing p s all (event.now ∷ left) self.old
            → OnOk result (IsAuditing p s all left self.new) }
        ensures err { (p : Plan) (s : WorldStart) (all left : List Event)
            → IsAuditing p s all (event.now ∷ left) self.old
            → IfErr result (λ refused. refused ≢ Refused.OutOfMemory
            → refusal_at p s all ≡ Some (self.new.index, refused)) }
    {
        self.world.step(event)?;
        self.index += 1;
        Ok(())
    }

    /// What is reported where no event is left.
    pub(crate) fn report(&self, alloc: Global) -> Result<Report, AllocError>
        requires { (p : Plan) × (s : WorldStart) × (all : List Event) × IsAuditing p s all [] self.now }
        ensures ok { (p : Plan) (s : WorldStart) (all : List Event) → IsAuditing p s all [] self.now
            → IfOk result (λ report. report ≡ report_at p s all) }
    {
        self.tally.report(alloc, self.plan, &self.clocks, self.fast)
    }
}
