ghost use Rattle.std.specs.Prelude.{◌≡◌, ◌+◌, ◌<◌, ◌≤◌, ℕ, suc, length, slice_index, None, IfNone, IfOk, IfSome, OnOk};
ghost use Rattle.gs_plan.specs.Plans.{text_of};
ghost use Rattle.gs_run.specs.Net.{Net, neighbour, neighbours};
ghost use Rattle.gs_run.specs.Nets.{net_of};
ghost use Rattle.gs_calendar.specs.Course.{Course, course_of};
ghost use Rattle.gs_calendar.specs.Scripts.{IsReadFor};
ghost use Rattle.gs_calendar.specs.Stale.{breach_upto};
ghost use Rattle.gs_seat.specs.Held.{AreSentIn, IsWindow};
ghost use Rattle.gs_calendar.specs.Calendar.{heard_at};
ghost use Rattle.gs_calendar.specs.Transits.{Has};
ghost use Rattle.gs_piece.specs.Staleness.{FirstIsStale, NoneIsStale};
ghost use Rattle.gs_piece.specs.Columns.{clock_at};
ghost use Rattle.gs_piece.specs.Senders.{IsFirstSender, NoneSends};
ghost use Rattle.gs_plan.specs.declared.plan.Plan.{Plan};

use crate::nodes::Nodes;
use crate::row::Row;
use gs_plan::Plan;
use gs_script::Script;
use gs_seat::SentBeacon;
use std::alloc::{AllocError, Global};

/// The most quanta that a window has.
const LONGEST: usize = 64;

/// Some nodes that follow one another, which one worker takes through a window of quanta alone. It keeps
/// the clocks at the end of each quantum of the window.
#[derive(Drop)]
pub struct Piece {
    nodes: Nodes,
    /// The clocks now, in clock units.
    clocks: Vec<u64>,
    /// The clocks at the end of each quantum of the window.
    rows: Vec<Row>,
    /// How many nodes took each quantum of the window in the fast mode.
    fasts: Vec<u32>,
}

impl Piece {
    ghost use Rattle.gs_piece.specs.Nodes.{AllHanded, handed_to, none_handed};
    ghost use Rattle.gs_piece.specs.Pieces.{HasRows, IsPiece, IsPieceIn, fast_among};

    /// Nodes `first` to `end - 1` of a plan at the start of a script that was read for it, with all clocks
    /// at 0.
    pub fn start(
        alloc: Global,
        plan: &Plan,
        script: &Script,
        first: u32,
        end: u32,
    ) -> Result<Piece, AllocError>
        requires read { IsReadFor (text_of plan.now) script.now }
        requires inside { (first ≤ end) × (end ≤ (net_of plan.now).nodes) }
        ensures { IfOk result (IsPieceIn (net_of plan.now) (course_of script.now) first end 0 0) }
    {
        let count = (end - first) as usize;
        let mut rows = Vec::with_capacity(alloc, LONGEST)?;
        for _ in 0..LONGEST {
            rows.push(Row::new(alloc, count)?)?;
        }
        Ok(Piece {
            nodes: Nodes::start(alloc, plan, script, first, end)?,
            clocks: vec![in alloc; 0; count]?,
            rows,
            fasts: vec![in alloc; 0; LONGEST]?,
        })
    }

    /// Takes the nodes through the window of the `n` quanta after quantum `m`, of which none is a breach.
    /// It takes no memory.
    pub fn run(&mut self, plan: &Plan, script: &Script, m: u32, n: u32)
        requires read { IsReadFor (text_of plan.now) script.now }
        requires end { m + n ≤ script.now.quanta }
        requires calm { breach_upto (net_of plan.now) (course_of script.now) (m + n) ≡ None }
        requires window { IsWindow (net_of plan.now) m (m + n) }
        requires piece { (a : ℕ) × (b : ℕ) × IsPieceIn (net_of plan.now) (course_of script.now) a b m m self.old }
        ensures piece { (a b : ℕ) → IsPieceIn (net_of plan.now) (course_of script.now) a b m m self.old
            → IsPieceIn (net_of plan.now) (course_of script.now) a b m (m + n) self.new }
        ensures rows { (a b : ℕ) → IsPieceIn (net_of plan.now) (course_of script.now) a b m m self.old
            → HasRows (net_of plan.now) (course_of script.now) a b m n self.new }
    {
        for j in 0..n {
            self.quantum(plan, script, m, j);
        }
    }

    /// Takes the nodes through quantum `m + j + 1`.
    fn quantum(&mut self, plan: &Plan, script: &Script, m: u32, j: u32)
        requires read { IsReadFor (text_of plan.now) script.now }
        requires end { m + j < script.now.quanta }
        requires calm { breach_upto (net_of plan.now) (course_of script.now) (suc (m + j)) ≡ None }
        requires window { IsWindow (net_of plan.now) m (suc (m + j)) }
        requires piece { (a : ℕ) × (b : ℕ) × IsPieceIn (net_of plan.now) (course_of script.now) a b m (m + j) self.old }
        ensures piece { (a b : ℕ) → IsPieceIn (net_of plan.now) (course_of script.now) a b m (m + j) self.old
            → IsPieceIn (net_of plan.now) (course_of script.now) a b m (suc (m + j)) self.new }
        ensures rows { (a b : ℕ) → IsPieceIn (net_of plan.now) (course_of script.now) a b m (m + j) self.old
            → HasRows (net_of plan.now) (course_of script.now) a b m j self.old
            → HasRows (net_of plan.now) (course_of script.now) a b m (suc j) self.new }
    {
        let t = m + j;
        self.fasts[j as usize] = self.nodes.advance(t, &mut self.clocks);
        self.rows[j as usize].copy(&self.clocks);
        self.nodes.take_turns(plan, script, t);
    }

    /// The clocks of its nodes at the end of quantum `j + 1` of the window, in clock units.
    pub fn row(&self, j: u32) -> &[u64]
        requires { (net : Net) × (c : Course) × (a : ℕ) × (b : ℕ) × (m : ℕ) × (n : ℕ) × (j < n) × HasRows net c a b m n self.now }
        ensures count { (net : Net) (c : Course) (a b m n : ℕ) → j < n → HasRows net c a b m n self.now
            → a + length result.now ≡ b }
        ensures clocks { (net : Net) (c : Course) (a b m n i : ℕ) → j < n → a + i < b → HasRows net c a b m n self.now
            → slice_index result.now i ≡ clock_at net c (suc (m + j)) (a + i) }
    {
        self.rows[j as usize].clocks()
    }

    /// How many of the nodes took quantum `j + 1` of the window in the fast mode.
    pub fn fasts(&self, j: u32) -> u32
        requires { (net : Net) × (c : Course) × (a : ℕ) × (b : ℕ) × (m : ℕ) × (n : ℕ) × (j < n) × HasRows net c a b m n self.now }
        ensures { (net : Net) (c : Course) (a b m n : ℕ) → j < n → HasRows net c a b m n self.now
            → result ≡ fast_among net c a b (m + j) }
    {
        self.fasts[j as usize]
    }

    /// What node `v` sent in the window, in turn.
    pub fn sent(&self, v: u32) -> &[SentBeacon]
        requires { (net : Net) × (c : Course) × (by : ℕ → ℕ → ℕ) × (a : ℕ) × (b : ℕ) × (m : ℕ) × (t : ℕ) × (a ≤ v) × (v < b)
            × IsPiece net c by a b m t self.now }
        ensures { (net : Net) (c : Course) (by : ℕ → ℕ → ℕ) (a b m t : ℕ) → a ≤ v → v < b
            → IsPiece net c by a b m t self.now → AreSentIn net c v m t result.now }
    {
        self.nodes.sent((v - self.nodes.first) as usize)
    }

    /// The first node from `from` on that sent anything in the window.
    pub fn first_sender(&self, from: u32) -> Option<u32>
        requires { (p : Plan) × (c : Course) × (by : ℕ → ℕ → ℕ) × (a : ℕ) × (b : ℕ) × (m : ℕ) × (t : ℕ) × (from ≤ b)
            × IsPiece (net_of p) c by a b m t self.now }
        ensures some { (net : Net) (c : Course) (by : ℕ → ℕ → ℕ) (a b m t : ℕ) → IsPiece net c by a b m t self.now
            → IfSome result (IsFirstSender net c from a b m t) }
        ensures none { (net : Net) (c : Course) (by : ℕ → ℕ → ℕ) (a b m t : ℕ) → IsPiece net c by a b m t self.now
            → IfNone result (NoneSends net c from a b m t) }
    {
        let place = from.saturating_sub(self.nodes.first) as usize;
        match self.nodes.first_sender(place) {
            Some(i) => Some(self.nodes.first + i as u32),
            None => None,
        }
    }

    /// Node `to` takes over what its neighbour `from` sent in the window.
    pub fn take_over(
        &mut self,
        plan: &Plan,
        script: &Script,
        from: u32,
        to: u32,
        sent: &[SentBeacon],
    ) -> Result<(), AllocError>
        requires read { IsReadFor (text_of plan.now) script.now }
        requires sender { from < (net_of plan.now).nodes }
        requires neighbours { Has to (neighbours (net_of plan.now) from) }
        requires piece { (by : ℕ → ℕ → ℕ) × (a : ℕ) × (b : ℕ) × (m : ℕ) × (t : ℕ) × (t ≤ script.now.quanta)
            × IsWindow (net_of plan.now) m t × (a ≤ to) × (to < b)
            × AreSentIn (net_of plan.now) (course_of script.now) from (by to from) t sent.now
            × IsPiece (net_of plan.now) (course_of script.now) by a b m t self.old }
        ensures { (by : ℕ → ℕ → ℕ) (a b m t : ℕ) → t ≤ script.now.quanta → IsWindow (net_of plan.now) m t
            → a ≤ to → to < b → AreSentIn (net_of plan.now) (course_of script.now) from (by to from) t sent.now
            → IsPiece (net_of plan.now) (course_of script.now) by a b m t self.old
            → OnOk result (IsPiece (net_of plan.now) (course_of script.now) (handed_to by to from t) a b m t self.new) }
    {
        self.nodes.take_over(plan, script, from, to, sent)
    }

    /// Begins the next window, once all its nodes have taken over what their neighbours sent in this one.
    pub fn end_window(&mut self)
        requires { (net : Net) × (c : Course) × (by : ℕ → ℕ → ℕ) × (a : ℕ) × (b : ℕ) × (m : ℕ) × (t : ℕ)
            × AllHanded net by a b t × IsPiece net c by a b m t self.old }
        ensures { (net : Net) (c : Course) (by : ℕ → ℕ → ℕ) (a b m t : ℕ) → AllHanded net by a b t
            → IsPiece net c by a b m t self.old → IsPieceIn net c a b t t self.new }
    {
        self.nodes.end_window();
    }

    /// A quantum that is no later than any in which what its nodes heard last of a neighbour was sent.
    pub fn oldest(&self) -> u32
        ensures { (net : Net) (c : Course) (by : ℕ → ℕ → ℕ) (a b m t v i : ℕ) → IsPiece net c by a b m t self.now
            → a ≤ v → v < b → i < length (neighbours net v) → result ≤ (heard_at net c (neighbour net v i) v t).quantum }
    {
        self.nodes.oldest()
    }

    /// The first node that has heard nothing new of a neighbour for so long that quantum `t + 1` is not
    /// allowed, with the place of the first such neighbour.
    pub fn first_stale(&self, plan: &Plan, t: u32) -> Option<(u32, usize)>
        requires { (c : Course) × (by : ℕ → ℕ → ℕ) × (a : ℕ) × (b : ℕ) × (m : ℕ)
            × IsPiece (net_of plan.now) c by a b m t self.now }
        ensures some { (c : Course) (by : ℕ → ℕ → ℕ) (a b m : ℕ) → IsPiece (net_of plan.now) c by a b m t self.now
            → IfSome result (λ e. FirstIsStale (net_of plan.now) c a b (suc t) e.0 e.1) }
        ensures none { (c : Course) (by : ℕ → ℕ → ℕ) (a b m : ℕ) → IsPiece (net_of plan.now) c by a b m t self.now
            → IfNone result (NoneIsStale (net_of plan.now) c a b (suc t)) }
    {
        self.nodes.first_stale(plan, t)
    }
}
