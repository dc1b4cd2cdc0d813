ghost use Rattle.std.specs.Prelude.{◌≡◌, ◌+◌, ◌-◌, ◌<◌, ◌≤◌, ◌^◌, ℕ, suc, nat_le, true, length, map, IfNone, IfOk, IfSome, None, Some};
ghost use Rattle.gs_beacon.specs.Beacons.{IsBeacon};
ghost use Rattle.gs_core.specs.Node.{beacon_of, clock_of};
ghost use Rattle.gs_core.specs.Steps.{tick_reply};
ghost use Rattle.gs_plan.specs.Plans.{text_of};
ghost use Rattle.gs_plan.specs.Shapes.{graph_of_text};
ghost use Rattle.gs_run.specs.Fast.{is_fast};
ghost use Rattle.gs_run.specs.Nets.{net_of};
ghost use Rattle.gs_run.specs.World.{heard_member};
ghost use Rattle.gs_script.specs.Lasts.{Lasts};
ghost use Rattle.gs_script.specs.Script.{gap_of, inc_of};
ghost use Rattle.gs_calendar.specs.Calendar.{sent_at};
ghost use Rattle.gs_calendar.specs.Course.{course_of};
ghost use Rattle.gs_calendar.specs.Scripts.{IsReadFor};
ghost use Rattle.gs_seat.specs.Alone.{CanHear, CanTick, IsHearable, hears, ticks_alone};
ghost use Rattle.gs_seat.specs.Letters.{letters_after, letters_by};
ghost use Rattle.gs_seat.specs.inside.Turns.{IsTurn};
ghost use Rattle.gs_seat.specs.Worlds.{WasSent};

use crate::mail::Mail;
use crate::transit::Transit;
use gs_beacon::Beacon;
use gs_core::{Core, Heard, Ticked};
use gs_plan::Plan;
use gs_script::{Run, Script};
use gs_units::Mode;
use std::alloc::{AllocError, Global};

/// One node as it was when something last happened to it, and what is known of it from then on.
#[derive(Drop)]
pub(crate) struct Sleeper {
    core: Core,
    /// For each neighbour the quantum in which the newest beacon heard was sent, 0 at the start.
    heard: Vec<u32>,
    /// The quantum of the last tick.
    pub(crate) ticked: u32,
    /// The hardware reading after quantum `at`.
    reading: u64,
    at: u32,
    /// What the hardware clock adds in each quantum from then on.
    pub(crate) inc: Run,
    /// The gap between ticks that is asked for.
    pub(crate) gap: Run,
}

impl Sleeper {
    ghost use Rattle.gs_seat.specs.Sleepers.{IsAsleep, IsSetAs, part_of, reading_at};

    /// Node `v` at the start, with its clock at 0.
    pub(crate) fn start(
        alloc: Global,
        plan: &Plan,
        script: &Script,
        v: u32,
    ) -> Result<Sleeper, AllocError>
        requires read { IsReadFor (text_of plan.now) script.now }
        requires node { v < (net_of plan.now).nodes }
        ensures { IfOk result (IsAsleep (net_of plan.now) (course_of script.now) v 0) }
    {
        let params = plan.node(alloc, v)?;
        let heard = vec![in alloc; 0; params.links.as_slice().len()]?;
        let core = Core::start(alloc, params, 0, 0)?;
        Ok(Sleeper {
            core,
            heard,
            ticked: 0,
            reading: 0,
            at: 0,
            inc: script.inc_run(v, 1),
            gap: script.gap_run(v, 1),
        })
    }

    /// The reading after quantum `t`, in clock units.
    pub(crate) fn reading_at(&self, t: u32) -> u64
        requires at { self.now.at ≤ t }
        requires room { reading_at self.now t < 2 ^ 62 }
        ensures { result ≡ reading_at self.now t }
    {
        self.reading + u64::from(self.inc.value) * u64::from(t - self.at)
    }

    /// The logical clock after quantum `t`, in clock units.
    pub(crate) fn clock_at(&self, t: u32) -> u64
        requires at { self.now.at ≤ t }
        requires last { self.now.core.node.last ≤ reading_at self.now t }
        requires room { reading_at self.now t < 2 ^ 62 }
        ensures { result ≡ clock_of self.now.core.params.rate self.now.core.node (reading_at self.now t) }
    {
        self.core.clock(self.reading_at(t))
    }

    /// Whether the node is in the fast mode.
    pub(crate) fn is_fast(&self) -> bool
        ensures { result ≡ is_fast self.now.core.node.mode }
    {
        self.core.mode() == Mode::Fast
    }

    /// For each neighbour the quantum in which the newest beacon heard was sent, 0 at the start.
    pub(crate) fn heard(&self) -> &[u32]
        ensures { result.now ≡ self.now.heard.items }
    {
        &self.heard
    }

    /// Hears a beacon at this reading, which has no fault.
    fn hear(&mut self, mail: &Mail, reading: u64)
        requires { IsHearable self.old.core.params mail.now (part_of self.old reading) }
        ensures part { part_of self.new reading
            ≡ heard_member self.old.core.params mail.now.place mail.now.sent (part_of self.old reading) }
        ensures same { IsSetAs self.old self.new }
    {
        let sent = mail.sent();
        match self.core.take_beacon(mail.place(), sent.beacon(), reading) {
            Heard::Fresh => self.heard[mail.place() as usize] = sent.quantum(),
            Heard::Old => {}
        }
    }

    /// Hears all that is due by quantum `t`, in turn, at this reading.
    fn hear_due(&mut self, waiting: &mut Transit, t: u32, reading: u64)
        requires { CanHear self.old.core.params (letters_by t waiting.old) (part_of self.old reading) }
        ensures part { part_of self.new reading
            ≡ hears self.old.core.params (letters_by t waiting.old) (part_of self.old reading) }
        ensures rest { waiting.new ≡ letters_after t waiting.old }
        ensures same { IsSetAs self.old self.new }
    {
        for _ in 0..waiting.len() {
            let Some(mail) = waiting.pop_due(t) else {
                break;
            };
            self.hear(&mail, reading);
        }
    }

    /// Ticks in quantum `t`, at this reading, without a fault.
    fn tick(&mut self, t: u32, reading: u64) -> Ticked
        requires { CanTick self.old.core.params (part_of self.old reading) }
        ensures answer { result ≡ tick_reply self.old.core.params self.old.core.node reading }
        ensures beacon { IfSome result.beacon IsBeacon }
        ensures part { part_of self.new reading ≡ ticks_alone self.old.core.params t true (part_of self.old reading) }
        ensures same { IsSetAs self.old self.new }
    {
        self.ticked = t;
        self.core.take_tick(reading)
    }

    /// Ticks in quantum `now`, at this reading, if the gap since the last tick is over.
    fn tick_if_due(&mut self, now: u32, reading: u64) -> Option<Beacon>
        requires ticked { self.old.ticked ≤ now }
        requires may { CanTick self.old.core.params (part_of self.old reading) }
        ensures part { part_of self.new reading ≡ ticks_alone self.old.core.params now
            (nat_le self.old.gap.value (now - self.old.ticked)) (part_of self.old reading) }
        ensures some { IfSome result (λ b. (nat_le self.old.gap.value (now - self.old.ticked) ≡ true)
            × (beacon_of self.old.core.params self.old.core.node reading ≡ Some b)) }
        ensures none { IfNone result (nat_le self.old.gap.value (now - self.old.ticked) ≡ true
            → beacon_of self.old.core.params self.old.core.node reading ≡ None) }
        ensures beacon { IfSome result IsBeacon }
        ensures same { IsSetAs self.old self.new }
    {
        if now - self.ticked < self.gap.value {
            return None;
        }
        self.tick(now, reading).beacon
    }

    /// Goes on from this reading after quantum `now`, with what the script asks for from then on.
    fn settle(&mut self, script: &Script, v: u32, now: u32, reading: u64)
        requires node { v < (graph_of_text script.now.text).nodes }
        requires inc { Lasts (inc_of script.now v) now self.old.inc.until self.old.inc.value }
        requires gap { Lasts (gap_of script.now v) now self.old.gap.until self.old.gap.value }
        requires room { now + 1 < 2 ^ 32 }
        ensures inc { Lasts (inc_of script.now v) (suc now) self.new.inc.until self.new.inc.value }
        ensures gap { Lasts (gap_of script.now v) (suc now) self.new.gap.until self.new.gap.value }
        ensures same { self.new ≡ record self.old { reading = reading; at = now; inc = self.new.inc; gap = self.new.gap } }
    {
        self.reading = reading;
        self.at = now;
        self.inc = inc_from(script, v, now, self.inc);
        self.gap = gap_from(script, v, now, self.gap);
    }

    /// Quantum `t + 1` of node `v`: it hears what is due, ticks if its gap is over, and looks ahead. Gives
    /// the beacon that it sends.
    pub(crate) fn turn(
        &mut self,
        plan: &Plan,
        script: &Script,
        waiting: &mut Transit,
        v: u32,
        t: u32,
    ) -> Option<Beacon>
        requires read { IsReadFor (text_of plan.now) script.now }
        requires node { v < (net_of plan.now).nodes }
        requires end { t < script.now.quanta }
        requires asleep { IsAsleep (net_of plan.now) (course_of script.now) v t self.old }
        requires turn { IsTurn (net_of plan.now) (course_of script.now) t v (letters_by (suc t) waiting.old) }
        ensures asleep { IsAsleep (net_of plan.now) (course_of script.now) v (suc t) self.new }
        ensures waiting { waiting.new ≡ letters_after (suc t) waiting.old }
        ensures given { IfSome result (λ b.
            WasSent (net_of plan.now) (course_of script.now) v (suc t) (record { quantum = suc t; beacon = b })) }
        ensures none { IfNone result (sent_at (net_of plan.now) (course_of script.now) v (suc t) ≡ None) }
        ensures beacon { IfSome result IsBeacon }
    {
        let _within = script.quanta();
        let now = t + 1;
        let reading = self.reading_at(now);
        self.hear_due(waiting, now, reading);
        let given = self.tick_if_due(now, reading);
        self.settle(script, v, now, reading);
        given
    }
}

/// What the clock of `v` adds in the quanta after `now`, where it is known up to `now`.
fn inc_from(script: &Script, v: u32, now: u32, known: Run) -> Run
    requires node { v < (graph_of_text script.now.text).nodes }
    requires known { Lasts (inc_of script.now v) now known.until known.value }
    requires room { now + 1 < 2 ^ 32 }
    ensures { Lasts (inc_of script.now v) (suc now) result.until result.value }
{
    if known.until > now {
        known
    } else {
        script.inc_run(v, now + 1)
    }
}

/// The gap that is asked of `v` in the quanta after `now`, where it is known up to `now`.
fn gap_from(script: &Script, v: u32, now: u32, known: Run) -> Run
    requires node { v < (graph_of_text script.now.text).nodes }
    requires known { Lasts (gap_of script.now v) now known.until known.value }
    requires room { now + 1 < 2 ^ 32 }
    ensures { Lasts (gap_of script.now v) (suc now) result.until result.value }
{
    if known.until > now {
        known
    } else {
        script.gap_run(v, now + 1)
    }
}
