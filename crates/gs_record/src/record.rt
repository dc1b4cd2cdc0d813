ghost use Rattle.std.specs.Prelude.{◌≡◌, ◌≤◌, ◌∷◌, ℕ, List, Option, IfErr, IfOk, None, OnOk, replicate};
ghost use Rattle.gs_core.specs.declared.event.Event.{Event};
ghost use Rattle.gs_io.specs.Held.{Appends};
ghost use Rattle.gs_plan.specs.Plans.{text_of};
ghost use Rattle.gs_plan.specs.declared.plan.Plan.{Plan};
ghost use Rattle.gs_run.specs.Nets.{net_of};
ghost use Rattle.gs_run.specs.Why.{why};
ghost use Rattle.gs_run.specs.World.{effect};
ghost use Rattle.gs_calendar.specs.Breach.{breach_in};
ghost use Rattle.gs_calendar.specs.Calm.{IsCalm};
ghost use Rattle.gs_calendar.specs.Scripts.{breach_of_script};
ghost use Rattle.gs_script.specs.Script.{Said};
ghost use Rattle.gs_trace.specs.Worlds.{event_bytes};
ghost use Rattle.gs_record.specs.Recorded.{EndsAt, head_of, trace_of};
ghost use Rattle.gs_record.specs.inside.UnderWay.{IsCut, IsRecording, IsRefused};

use gs_calendar::Feed;
use gs_core::Event;
use gs_io::{Failed, Sink};
use gs_plan::Plan;
use gs_script::Script;
use gs_trace::{Readings, WorldStart, world_event, world_head};
use gs_world::{Refused, World};
use std::alloc::{AllocError, Global};

/// Why the trace of a script ends before the script's last event.
#[derive(Clone, Copy, Debug, PartialEq, Eq)]
pub enum RecordStop {
    /// The last event that was written is the script's first breach.
    Breach,
    /// A write failed.
    Failed,
    /// Memory was refused.
    OutOfMemory,
}

impl From<AllocError> for RecordStop {
    ghost use Rattle.gs_record.specs.declared.record.RecordStop.TheVariants.{OutOfMemory};

    ghost from_gives = { λ _ stop. stop ≡ OutOfMemory };

    fn from(_: AllocError) -> Self {
        RecordStop::OutOfMemory
    }
}

impl From<Failed> for RecordStop {
    ghost use Rattle.gs_record.specs.declared.record.RecordStop.TheVariants as stop;

    ghost from_gives = { λ _ why. why ≡ stop.Failed };

    fn from(_: Failed) -> Self {
        RecordStop::Failed
    }
}

/// Writes the trace of a script on its plan, from readings and clocks that are 0: the head, and then each
/// event, up to and with the first breach. Each piece is one write. Nothing of the trace is kept.
pub fn record_script<K: Sink>(
    alloc: Global,
    plan: &Plan,
    script: &Script,
    out: &mut K,
) -> Result<(), RecordStop>
    requires { script.now.text ≡ text_of plan.now }
    ensures no_breach { OnOk result (breach_of_script plan.now script.now ≡ None) }
    ensures written { OnOk result (Appends (K.bytes out.old) (K.bytes out.new) (trace_of plan.now script.now)) }
    ensures stop { IfErr result (EndsAt plan.now script.now
        (K.bytes out.old) (K.bytes out.new) (K.faults out.old) (K.faults out.new)) }
{
    // From here on it is known that the script keeps the bounds of its plan.
    let _within_bounds = script.quanta();
    let mut feed = Feed::new(alloc, plan, script)?;
    let readings = zeros(alloc, plan)?;
    let mut world = World::start(alloc, plan, &readings, 0)?;
    write_head(alloc, plan, readings, out)?;
    while let Some(event) = feed.next(alloc)? {
        take(alloc, &mut world, &event, out)?;
    }
    Ok(())
}

/// A reading of 0 for each node.
fn zeros(alloc: Global, plan: &Plan) -> Result<Vec<u64>, AllocError>
    ensures { IfOk result (λ zeros. zeros.items ≡ replicate (net_of plan.now).nodes 0) }
{
    let zeros = vec![in alloc; 0; plan.topo().nodes() as usize]?;
    Ok(zeros)
}

/// Writes the head of a trace from these readings, which are 0.
fn write_head<K: Sink>(
    alloc: Global,
    plan: &Plan,
    readings: Vec<u64>,
    out: &mut K,
) -> Result<(), RecordStop>
    requires { readings.items ≡ replicate (net_of plan.now).nodes 0 }
    ensures written { OnOk result (Appends (K.bytes out.old) (K.bytes out.new) (head_of plan.now)) }
    ensures stop { IfErr result (IsCut (head_of plan.now)
        (K.bytes out.old) (K.bytes out.new) (K.faults out.old) (K.faults out.new)) }
    ensures later { K.faults out.old ≤ K.faults out.new }
{
    let start = WorldStart {
        l0: 0,
        hw: Readings::from_vec(readings),
    };
    let head = world_head(alloc, plan, &start)?;
    out.write(&head)?;
    Ok(())
}

/// Writes an event.
fn write_event<K: Sink>(alloc: Global, event: &Event, out: &mut K) -> Result<(), RecordStop>
    ensures written { OnOk result (Appends (K.bytes out.old) (K.bytes out.new) (event_bytes event.now)) }
    ensures stop { IfErr result (IsCut (event_bytes event.now)
        (K.bytes out.old) (K.bytes out.new) (K.faults out.old) (K.faults out.new)) }
    ensures later { K.faults out.old ≤ K.faults out.new }
{
    let bytes = world_event(alloc, event)?;
    out.write(&bytes)?;
    Ok(())
}

/// Writes the first event that is left, and takes it.
fn take<K: Sink>(
    alloc: Global,
    world: &mut World<'_>,
    event: &Event,
    out: &mut K,
) -> Result<(), RecordStop>
    requires { (p : Plan) × (s : Said) × (left : List Event) × (old : Option (List ℕ)) × (before : ℕ)
        × IsRecording p s world.old.plan world.old.world (event.now ∷ left) old (K.bytes out.old) before (K.faults out.old) }
    ensures ok { (p : Plan) (s : Said) (left : List Event) (old : Option (List ℕ)) (before : ℕ)
        → IsRecording p s world.old.plan world.old.world (event.now ∷ left) old (K.bytes out.old) before (K.faults out.old)
        → OnOk result (IsRecording p s world.new.plan world.new.world left old (K.bytes out.new) before (K.faults out.new)) }
    ensures stop { (p : Plan) (s : Said) (left : List Event) (old : Option (List ℕ)) (before : ℕ)
        → IsRecording p s world.old.plan world.old.world (event.now ∷ left) old (K.bytes out.old) before (K.faults out.old)
        → IfErr result (EndsAt p s old (K.bytes out.new) before (K.faults out.new)) }
{
    write_event(alloc, event, out)?;
    admit(world, event)?;
    Ok(())
}

/// Takes an event of a script, which is refused as a breach, or where memory runs out, and for nothing else.
fn admit(world: &mut World<'_>, event: &Event) -> Result<(), RecordStop>
    requires { IsCalm (net_of world.old.plan) world.old.world event.now }
    ensures plan { world.new.plan ≡ world.old.plan }
    ensures allowed { OnOk result (why (net_of world.old.plan) world.old.world event.now ≡ None) }
    ensures effect { OnOk result
        (world.new.world ≡ effect (net_of world.old.plan) world.old.world event.now) }
    ensures stop { IfErr result (IsRefused (breach_in (net_of world.old.plan) world.old.world event.now)) }
{
    match world.step(event) {
        Ok(()) => Ok(()),
        Err(Refused::Stale(_, _)) => Err(RecordStop::Breach),
        Err(_) => Err(RecordStop::OutOfMemory),
    }
}
