ghost use Rattle.std.specs.Prelude.{◌≡◌, ◌+◌, ◌<◌, ◌≤◌, ℕ, suc, length, nat_eq, position, IfOk, OnOk};
ghost use Rattle.gs_units.specs.declared.rate.Mode.TheVariants.{Slow};
ghost use Rattle.gs_plan.specs.Plans.{text_of};
ghost use Rattle.gs_run.specs.Fast.{is_fast};
ghost use Rattle.gs_run.specs.Net.{Net, neighbour, neighbours};
ghost use Rattle.gs_run.specs.Nets.{net_of};
ghost use Rattle.gs_run.specs.World.{clock_in};
ghost use Rattle.gs_script.specs.Script.{Said};
ghost use Rattle.gs_calendar.specs.Course.{Course, course_of};
ghost use Rattle.gs_calendar.specs.Scripts.{IsReadFor};
ghost use Rattle.gs_calendar.specs.Calendar.{heard_at};
ghost use Rattle.gs_calendar.specs.Stale.{first_stale};
ghost use Rattle.gs_calendar.specs.Transits.{Has};
ghost use Rattle.gs_seat.specs.Worlds.{Plays, world_of};
ghost use Rattle.gs_seat.specs.Held.{IsWindow, IsNext, AreSentIn, handed};

use crate::heard::{first_old, oldest};
use crate::mail::Mail;
use crate::sent::SentBeacon;
use crate::sleeper::Sleeper;
use crate::transit::Transit;
use crate::ways::Ways;
use gs_plan::Plan;
use gs_script::Script;
use std::alloc::{AllocError, Global};

/// The greatest number of quanta in a window.
pub const MAX_WINDOW: usize = 64;

/// One node of a play alone, with what is in transit to it and what it sent in the window that is played.
/// It sleeps until something happens to it: between two turns its clock adds the same in each quantum.
#[derive(Drop)]
pub struct Seat {
    node: Sleeper,
    waiting: Transit,
    /// What is known of the ways that its neighbours send over.
    ways: Ways,
    /// There is room for all that is sent in a window.
    sent: Vec<SentBeacon>,
}

impl Seat {
    ghost use Rattle.gs_seat.specs.Seats.{IsSeatAt, IsSeatIn, has_sent, mode_of, step_of, wake_of};

    /// Node `v` of a plan at the start of a script that was read for it, with its reading and its clock
    /// at 0.
    pub fn start(alloc: Global, plan: &Plan, script: &Script, v: u32) -> Result<Seat, AllocError>
        requires read { IsReadFor (text_of plan.now) script.now }
        requires node { v < (net_of plan.now).nodes }
        ensures { IfOk result (IsSeatIn (net_of plan.now) (course_of script.now) v 0 0) }
    {
        Ok(Seat {
            node: Sleeper::start(alloc, plan, script, v)?,
            waiting: Transit::new(alloc),
            ways: Ways::unasked(alloc, plan.topo().neighbours(v).len())?,
            sent: Vec::with_capacity(alloc, MAX_WINDOW)?,
        })
    }

    /// The first quantum in which something may happen to the node. Until then it needs no turn: the seat
    /// stands for it as it is.
    pub fn wake(&self) -> u32
        ensures value { result ≡ wake_of self.now }
        ensures sleeps { (p : Plan) (s : Said) (v m t : ℕ) → Plays p s v (suc t) → IsWindow (net_of p) m (suc t)
            → suc t < result → IsSeatIn (net_of p) (course_of s) v m t self.now
            → IsSeatIn (net_of p) (course_of s) v m (suc t) self.now }
    {
        let node = &self.node;
        let tick = node.ticked.saturating_add(node.gap.value);
        let due = self.waiting.first_due(node.inc.until);
        tick.min(node.gap.until).min(due)
    }

    /// Quantum `t + 1` of node `v`, in which it may wake up: it hears what is due, ticks if its gap is
    /// over, and looks ahead. A beacon that it sends is kept until the window ends. It takes no memory.
    pub fn turn(&mut self, plan: &Plan, script: &Script, v: u32, t: u32)
        requires plays { Plays plan.now script.now v (suc t) }
        requires seat { (m : ℕ) × IsWindow (net_of plan.now) m (suc t)
            × IsSeatIn (net_of plan.now) (course_of script.now) v m t self.old }
        ensures { (m : ℕ) → IsWindow (net_of plan.now) m (suc t)
            → IsSeatIn (net_of plan.now) (course_of script.now) v m t self.old
            → IsSeatIn (net_of plan.now) (course_of script.now) v m (suc t) self.new }
    {
        if let Some(beacon) = self.node.turn(plan, script, &mut self.waiting, v, t) {
            self.sent.push_reserved(SentBeacon::new(t + 1, beacon));
        }
    }

    /// Whether the node is in the fast mode.
    pub fn is_fast(&self) -> bool
        ensures { result ≡ is_fast (mode_of self.now) }
    {
        self.node.is_fast()
    }

    /// What the clock adds in the next quantum in the slow mode, in clock units. It is the same until the
    /// seat wakes up.
    pub fn step(&self) -> u32
        ensures value { result ≡ step_of self.now }
        ensures slow { (p : Plan) (s : Said) (v : ℕ) (by : ℕ → ℕ) (m t : ℕ) → Plays p s v (suc t) → mode_of self.now ≡ Slow
            → IsSeatAt (net_of p) (course_of s) v by m t self.now
            → clock_in (net_of p) (world_of (net_of p) (course_of s) (suc t)) v
            ≡ clock_in (net_of p) (world_of (net_of p) (course_of s) t) v + result }
    {
        self.node.inc.value
    }

    /// The logical clock at the end of quantum `t + 1`, whatever happens in it, in clock units.
    pub fn next_clock(&self, t: u32) -> u64
        requires { (p : Plan) × (s : Said) × (v : ℕ) × (by : ℕ → ℕ) × (m : ℕ) × Plays p s v (suc t)
            × IsSeatAt (net_of p) (course_of s) v by m t self.now }
        ensures { (p : Plan) (s : Said) (v : ℕ) (by : ℕ → ℕ) (m : ℕ) → Plays p s v (suc t)
            → IsSeatAt (net_of p) (course_of s) v by m t self.now
            → result ≡ clock_in (net_of p) (world_of (net_of p) (course_of s) (suc t)) v }
    {
        self.node.clock_at(t + 1)
    }

    /// The first place among the neighbours of which nothing new was heard for so long that quantum
    /// `t + 1` is not allowed.
    pub fn first_stale(&self, plan: &Plan, t: u32) -> Option<usize>
        ensures { (c : Course) (v : ℕ) (by : ℕ → ℕ) (m : ℕ) → v < (net_of plan.now).nodes
            → IsSeatAt (net_of plan.now) c v by m t self.now → result ≡ first_stale (net_of plan.now) c (suc t) v }
    {
        first_old(self.node.heard(), plan.text().age, t)
    }

    /// A quantum that is no later than any in which what was heard last of a neighbour was sent.
    pub fn oldest(&self) -> u32
        ensures { (net : Net) (c : Course) (v i : ℕ) (by : ℕ → ℕ) (m t : ℕ) → v < net.nodes → i < length (neighbours net v)
            → IsSeatAt net c v by m t self.now → result ≤ (heard_at net c (neighbour net v i) v t).quantum }
    {
        oldest(self.node.heard())
    }

    /// What the node sent in the window, in turn.
    pub fn sent(&self) -> &[SentBeacon]
        ensures { (net : Net) (c : Course) (v : ℕ) (by : ℕ → ℕ) (m t : ℕ)
            → IsSeatAt net c v by m t self.now → AreSentIn net c v m t result.now }
    {
        &self.sent
    }

    /// Whether the node sent anything in the window.
    pub fn has_sent(&self) -> bool
        ensures { result ≡ has_sent self.now }
    {
        !self.sent.is_empty()
    }

    /// Takes over, as node `to`, what its neighbour `from` sent in the window, in turn: what is not lost is
    /// in transit to it from then on.
    pub fn take_over(
        &mut self,
        plan: &Plan,
        script: &Script,
        from: u32,
        to: u32,
        sent: &[SentBeacon],
    ) -> Result<(), AllocError>
        requires read { IsReadFor (text_of plan.now) script.now }
        requires sender { from < (net_of plan.now).nodes }
        requires neighbours { Has to (neighbours (net_of plan.now) from) }
        requires seat { (by : ℕ → ℕ) × (m : ℕ) × (t : ℕ) × (t ≤ script.now.quanta) × IsWindow (net_of plan.now) m t
            × AreSentIn (net_of plan.now) (course_of script.now) from (by from) t sent.now
            × IsSeatAt (net_of plan.now) (course_of script.now) to by m t self.old }
        ensures { (by : ℕ → ℕ) (m t : ℕ) → t ≤ script.now.quanta → IsWindow (net_of plan.now) m t
            → AreSentIn (net_of plan.now) (course_of script.now) from (by from) t sent.now
            → IsSeatAt (net_of plan.now) (course_of script.now) to by m t self.old
            → OnOk result (IsSeatAt (net_of plan.now) (course_of script.now) to (handed by from t) m t self.new) }
    {
        for beacon in sent {
            self.receive(plan, script, from, to, beacon)?;
        }
        Ok(())
    }

    /// Takes over one beacon, the next that `from` sent, unless it is lost.
    fn receive(
        &mut self,
        plan: &Plan,
        script: &Script,
        from: u32,
        to: u32,
        sent: &SentBeacon,
    ) -> Result<(), AllocError>
        requires read { IsReadFor (text_of plan.now) script.now }
        requires sender { from < (net_of plan.now).nodes }
        requires neighbours { Has to (neighbours (net_of plan.now) from) }
        requires end { sent.now.quantum ≤ script.now.quanta }
        requires seat { (by : ℕ → ℕ) × (m : ℕ) × (t : ℕ) × IsWindow (net_of plan.now) m t
            × IsNext (net_of plan.now) (course_of script.now) from (by from) t sent.now
            × IsSeatAt (net_of plan.now) (course_of script.now) to by m t self.old }
        ensures { (by : ℕ → ℕ) (m t : ℕ) → IsWindow (net_of plan.now) m t
            → IsNext (net_of plan.now) (course_of script.now) from (by from) t sent.now
            → IsSeatAt (net_of plan.now) (course_of script.now) to by m t self.old
            → OnOk result (IsSeatAt (net_of plan.now) (course_of script.now) to (handed by from sent.now.quantum) m t self.new) }
    {
        let Some(place) = place(plan.topo().neighbours(to), from) else {
            unreachable!()
        };
        let quantum = sent.quantum();
        let way = self.ways.ask(script, from, to, place, quantum);
        if way.is_lost {
            return Ok(());
        }
        let due = quantum + way.delay;
        self.waiting.put(Mail::new(due, place as u32, *sent))?;
        Ok(())
    }

    /// Begins the next window, once what all its neighbours sent in this one has been taken over, and
    /// forgets what it sent.
    pub fn end_window(&mut self)
        ensures { (net : Net) (c : Course) (v : ℕ) (by : ℕ → ℕ) (m t : ℕ) → IsSeatAt net c v by m t self.old
            → ((x : ℕ) → Has x (neighbours net v) → by x ≡ t) → IsSeatIn net c v t t self.new }
    {
        self.sent.clear();
    }
}

/// The place of a node among some.
fn place(nodes: &[u32], x: u32) -> Option<usize>
    ensures { result ≡ position (λ y. nat_eq y x) nodes.now }
{
    nodes.iter().position(|y| *y == x)
}
