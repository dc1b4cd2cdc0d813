ghost use Rattle.std.specs.Prelude.{◌≡◌, ◌+◌, ◌<◌, ◌≤◌, ℕ, suc, ◌^◌, true, false, length, slice_index, slice_index_or, slice_set, None, IfNone, IfOk, IfSome, OnOk};
ghost use Rattle.gs_plan.specs.Plans.{text_of};
ghost use Rattle.gs_run.specs.Nets.{net_of};
ghost use Rattle.gs_plan.specs.declared.plan.Plan.{Plan};
ghost use Rattle.gs_script.specs.Script.{Said};
ghost use Rattle.std.specs.List.{count_by};
ghost use Rattle.gs_calendar.specs.Course.{Course, course_of};
ghost use Rattle.gs_piece.specs.Columns.{AreSeats, clock_at};
ghost use Rattle.gs_calendar.specs.Scripts.{IsReadFor};
ghost use Rattle.gs_calendar.specs.Stale.{breach_upto};
ghost use Rattle.gs_seat.specs.Held.{AreSentIn, IsWindow};
ghost use Rattle.gs_calendar.specs.Calendar.{heard_at};
ghost use Rattle.gs_calendar.specs.Transits.{Has};
ghost use Rattle.gs_piece.specs.Staleness.{FirstIsStale, NoneIsStale};
ghost use Rattle.gs_run.specs.Net.{Net, neighbour, neighbours};
ghost use Rattle.gs_seat.specs.Seats.{has_sent, mode_of, step_of, wake_of};
ghost use Rattle.gs_seat.specs.declared.seat.Seat.{Seat};
ghost use Rattle.gs_run.specs.Fast.{is_fast};

use crate::columns::{advance, first_awake, first_set};
use gs_plan::Plan;
use gs_script::Script;
use gs_seat::{Seat, SentBeacon};
use std::alloc::{AllocError, Global};

/// Some nodes that follow one another, and what is looked at of each in every quantum.
#[derive(Drop)]
pub(crate) struct Nodes {
    pub(crate) first: u32,
    pub(crate) seats: Vec<Seat>,
    /// What each clock adds in the next quantum in the slow mode, in clock units.
    pub(crate) steps: Vec<u64>,
    /// The first quantum in which something may happen to each.
    pub(crate) wake: Vec<u32>,
    /// Whether each is in the fast mode.
    pub(crate) fast: Vec<bool>,
    /// Whether each sent anything in the window.
    pub(crate) sends: Vec<bool>,
}

impl Nodes {
    ghost use Rattle.gs_piece.specs.Nodes.{AddsSeat, AllHanded, AreNodes, AreWith, Ending, handed_to, midway, none_handed};

    /// Nodes `first` to `end - 1` at the start of a script.
    pub(crate) fn start(
        alloc: Global,
        plan: &Plan,
        script: &Script,
        first: u32,
        end: u32,
    ) -> Result<Nodes, AllocError>
        requires read { IsReadFor (text_of plan.now) script.now }
        requires inside { (first ≤ end) × (end ≤ (net_of plan.now).nodes) }
        ensures { IfOk result (AreNodes (net_of plan.now) (course_of script.now) (none_handed 0) first end 0 (λ i. 0)) }
    {
        let mut nodes = Nodes {
            first,
            seats: Vec::new(alloc),
            steps: Vec::new(alloc),
            wake: Vec::new(alloc),
            fast: Vec::new(alloc),
            sends: Vec::new(alloc),
        };
        for v in first..end {
            nodes.push(Seat::start(alloc, plan, script, v)?)?;
        }
        Ok(nodes)
    }

    /// The clocks at the end of quantum `t + 1`, from those at the end of quantum `t`. Counts the nodes that
    /// take it in the fast mode.
    pub(crate) fn advance(&self, t: u32, clocks: &mut [u64]) -> u32
        requires steps { length self.now.steps.items ≡ length self.now.seats.items }
        requires fast { length self.now.fast.items ≡ length self.now.seats.items }
        requires clocks { length clocks.old ≡ length self.now.seats.items }
        requires few { length self.now.seats.items < 2 ^ 32 }
        requires room { (i : ℕ) → i < length clocks.old
            → slice_index clocks.old i + slice_index self.now.steps.items i < 2 ^ 64 }
        requires read { (p : Plan) × (s : Said) × (by : ℕ → ℕ → ℕ) × (a : ℕ) × (m : ℕ)
            × AreSeats p s by a m t self.now.seats.items }
        ensures count { length clocks.new ≡ length clocks.old }
        ensures slow { (i : ℕ) → i < length self.now.fast.items → slice_index_or self.now.fast.items i false ≡ false
            → slice_index clocks.new i ≡ slice_index clocks.old i + slice_index self.now.steps.items i }
        ensures fast { (p : Plan) (s : Said) (by : ℕ → ℕ → ℕ) (a m i : ℕ)
            → AreSeats p s by a m t self.now.seats.items → i < length self.now.fast.items
            → slice_index_or self.now.fast.items i false ≡ true
            → slice_index clocks.new i ≡ clock_at (net_of p) (course_of s) (suc t) (a + i) }
        ensures number { result ≡ count_by (λ b. b) self.now.fast.items }
    {
        advance(&self.seats, &self.steps, &self.fast, t, clocks)
    }

    /// One node more.
    fn push(&mut self, seat: Seat) -> Result<(), AllocError>
        ensures { OnOk result (AddsSeat seat self.old self.new) }
    {
        self.steps.push(u64::from(seat.step()))?;
        self.wake.push(seat.wake())?;
        self.fast.push(seat.is_fast())?;
        self.sends.push(seat.has_sent())?;
        self.seats.push(seat)?;
        Ok(())
    }

    /// Quantum `t + 1` of the node at a place.
    fn turn(&mut self, plan: &Plan, script: &Script, i: usize, t: u32)
        requires read { IsReadFor (text_of plan.now) script.now }
        requires end { t < script.now.quanta }
        requires calm { breach_upto (net_of plan.now) (course_of script.now) (suc t) ≡ None }
        requires nodes { (a : ℕ) × (b : ℕ) × (m : ℕ) × IsWindow (net_of plan.now) m (suc t) × (a + i < b)
            × AreNodes (net_of plan.now) (course_of script.now) (none_handed m) a b m (midway t i) self.old }
        ensures count { length self.new.wake.items ≡ length self.old.wake.items }
        ensures nodes { (a b m : ℕ) → IsWindow (net_of plan.now) m (suc t) → a + i < b
            → AreNodes (net_of plan.now) (course_of script.now) (none_handed m) a b m (midway t i) self.old
            → AreNodes (net_of plan.now) (course_of script.now) (none_handed m) a b m (midway t (suc i)) self.new }
    {
        let v = self.first + i as u32;
        self.seats[i].turn(plan, script, v, t);
        self.look(i);
    }

    /// Looks anew at what the node at a place does next.
    fn look(&mut self, i: usize)
        requires { (i < length self.old.seats.items) × (i < length self.old.steps.items) × (i < length self.old.wake.items)
            × (i < length self.old.fast.items) × (i < length self.old.sends.items) }
        ensures same { (self.new.first ≡ self.old.first) × (self.new.seats ≡ self.old.seats) }
        ensures steps { (d : Seat) → self.new.steps.items
            ≡ slice_set self.old.steps.items i (step_of (slice_index_or self.old.seats.items i d)) }
        ensures wake { (d : Seat) → self.new.wake.items
            ≡ slice_set self.old.wake.items i (wake_of (slice_index_or self.old.seats.items i d)) }
        ensures fast { (d : Seat) → self.new.fast.items
            ≡ slice_set self.old.fast.items i (is_fast (mode_of (slice_index_or self.old.seats.items i d))) }
        ensures sends { (d : Seat) → self.new.sends.items
            ≡ slice_set self.old.sends.items i (has_sent (slice_index_or self.old.seats.items i d)) }
    {
        let seat = &self.seats[i];
        self.steps[i] = u64::from(seat.step());
        self.wake[i] = seat.wake();
        self.fast[i] = seat.is_fast();
        self.sends[i] = seat.has_sent();
    }

    /// The first node from a place on that wakes up by quantum `t`.
    fn first_awake(&self, from: usize, t: u32) -> Option<usize>
        requires { from ≤ length self.now.wake.items }
        ensures some { IfSome result (λ i. (from ≤ i) × (i < length self.now.wake.items)
            × ((k : ℕ) → from ≤ k → k < i → t < slice_index self.now.wake.items k)) }
        ensures none { IfNone result ((k : ℕ) → from ≤ k → k < length self.now.wake.items
            → t < slice_index self.now.wake.items k) }
    {
        first_awake(&self.wake, from, t)
    }

    /// Quantum `t + 1`: each node that wakes up takes its turn.
    pub(crate) fn take_turns(&mut self, plan: &Plan, script: &Script, t: u32)
        requires read { IsReadFor (text_of plan.now) script.now }
        requires end { t < script.now.quanta }
        requires calm { breach_upto (net_of plan.now) (course_of script.now) (suc t) ≡ None }
        requires nodes { (a : ℕ) × (b : ℕ) × (m : ℕ) × IsWindow (net_of plan.now) m (suc t)
            × AreNodes (net_of plan.now) (course_of script.now) (none_handed m) a b m (λ i. t) self.old }
        ensures { (a b m : ℕ) → IsWindow (net_of plan.now) m (suc t)
            → AreNodes (net_of plan.now) (course_of script.now) (none_handed m) a b m (λ i. t) self.old
            → AreNodes (net_of plan.now) (course_of script.now) (none_handed m) a b m (λ i. suc t) self.new }
    {
        let mut from = 0;
        while let Some(i) = self.first_awake(from, t + 1) {
            self.turn(plan, script, i, t);
            from = i + 1;
        }
    }

    /// What the node at a place sent in the window, in turn.
    pub(crate) fn sent(&self, i: usize) -> &[SentBeacon]
        requires { i < length self.now.seats.items }
        ensures { (net : Net) (c : Course) (by : ℕ → ℕ → ℕ) (a b m t : ℕ) → a + i < b
            → AreNodes net c by a b m (λ j. t) self.now → AreSentIn net c (a + i) m t result.now }
    {
        self.seats[i].sent()
    }

    /// The node at a place, which is `to`, takes over what its neighbour `from` sent in the window.
    pub(crate) fn take_over(
        &mut self,
        plan: &Plan,
        script: &Script,
        from: u32,
        to: u32,
        sent: &[SentBeacon],
    ) -> Result<(), AllocError>
        requires read { IsReadFor (text_of plan.now) script.now }
        requires sender { from < (net_of plan.now).nodes }
        requires neighbours { Has to (neighbours (net_of plan.now) from) }
        requires nodes { (by : ℕ → ℕ → ℕ) × (a : ℕ) × (b : ℕ) × (m : ℕ) × (t : ℕ) × (t ≤ script.now.quanta)
            × IsWindow (net_of plan.now) m t × (a ≤ to) × (to < b)
            × AreSentIn (net_of plan.now) (course_of script.now) from (by to from) t sent.now
            × AreNodes (net_of plan.now) (course_of script.now) by a b m (λ i. t) self.old }
        ensures { (by : ℕ → ℕ → ℕ) (a b m t : ℕ) → t ≤ script.now.quanta → IsWindow (net_of plan.now) m t
            → a ≤ to → to < b → AreSentIn (net_of plan.now) (course_of script.now) from (by to from) t sent.now
            → AreNodes (net_of plan.now) (course_of script.now) by a b m (λ i. t) self.old
            → OnOk result (AreNodes (net_of plan.now) (course_of script.now) (handed_to by to from t) a b m (λ i. t) self.new) }
    {
        let i = (to - self.first) as usize;
        self.seats[i].take_over(plan, script, from, to, sent)?;
        self.look(i);
        Ok(())
    }

    /// Begins the next window, once all that was sent in this one has been handed over.
    pub(crate) fn end_window(&mut self)
        requires { (net : Net) × (c : Course) × (by : ℕ → ℕ → ℕ) × (a : ℕ) × (b : ℕ) × (m : ℕ) × (t : ℕ)
            × AllHanded net by a b t × AreNodes net c by a b m (λ i. t) self.old }
        ensures { (net : Net) (c : Course) (by : ℕ → ℕ → ℕ) (a b m t : ℕ) → AllHanded net by a b t
            → AreNodes net c by a b m (λ i. t) self.old → AreNodes net c (none_handed t) a b t (λ i. t) self.new }
    {
        let mut from = 0;
        while let Some(i) = self.first_sender(from) {
            self.rest(i);
            from = i + 1;
        }
    }

    /// The first node from a place on that sent anything in the window.
    pub(crate) fn first_sender(&self, from: usize) -> Option<usize>
        requires { from ≤ length self.now.sends.items }
        ensures some { IfSome result (λ i. (from ≤ i) × (i < length self.now.sends.items)
            × (slice_index_or self.now.sends.items i false ≡ true)
            × ((k : ℕ) → from ≤ k → k < i → slice_index_or self.now.sends.items k false ≡ false)) }
        ensures none { IfNone result ((k : ℕ) → from ≤ k → k < length self.now.sends.items
            → slice_index_or self.now.sends.items k false ≡ false) }
    {
        first_set(&self.sends, from)
    }

    /// The node at a place begins the next window.
    fn rest(&mut self, i: usize)
        requires { (net : Net) × (c : Course) × (a : ℕ) × (b : ℕ) × (m : ℕ) × (t : ℕ) × (a + i < b)
            × AreWith net.nodes a b (Ending net c a m t i) self.old }
        ensures count { length self.new.sends.items ≡ length self.old.sends.items }
        ensures rests { (net : Net) (c : Course) (a b m t : ℕ) → a + i < b
            → AreWith net.nodes a b (Ending net c a m t i) self.old
            → AreWith net.nodes a b (Ending net c a m t (suc i)) self.new }
    {
        self.seats[i].end_window();
        self.look(i);
    }

    /// A quantum that is no later than any in which what the nodes heard last of a neighbour was sent.
    pub(crate) fn oldest(&self) -> u32
        ensures { (net : Net) (c : Course) (by : ℕ → ℕ → ℕ) (a b m t v i : ℕ) → AreNodes net c by a b m (λ j. t) self.now
            → a ≤ v → v < b → i < length (neighbours net v) → result ≤ (heard_at net c (neighbour net v i) v t).quantum }
    {
        let mut oldest = u32::MAX;
        for i in 0..self.seats.len() {
            oldest = oldest.min(self.seats[i].oldest());
        }
        oldest
    }

    /// The first node that has heard nothing new of a neighbour for so long that quantum `t + 1` is not
    /// allowed, with the place of the first such neighbour.
    pub(crate) fn first_stale(&self, plan: &Plan, t: u32) -> Option<(u32, usize)>
        requires { (c : Course) × (by : ℕ → ℕ → ℕ) × (a : ℕ) × (b : ℕ) × (m : ℕ)
            × AreNodes (net_of plan.now) c by a b m (λ j. t) self.now }
        ensures some { (c : Course) (by : ℕ → ℕ → ℕ) (a b m : ℕ) → AreNodes (net_of plan.now) c by a b m (λ j. t) self.now
            → IfSome result (λ e. FirstIsStale (net_of plan.now) c a b (suc t) e.0 e.1) }
        ensures none { (c : Course) (by : ℕ → ℕ → ℕ) (a b m : ℕ) → AreNodes (net_of plan.now) c by a b m (λ j. t) self.now
            → IfNone result (NoneIsStale (net_of plan.now) c a b (suc t)) }
    {
        for i in 0..self.seats.len() {
            if let Some(place) = self.seats[i].first_stale(plan, t) {
                return Some((self.first + i as u32, place));
            }
        }
        None
    }
}
