ghost use Rattle.std.specs.Prelude.{◌≡◌, ◌+◌, ◌<◌, ◌≤◌, ℕ, length, IfErr, IfOk, OnOk};
ghost use Rattle.gs_plan.specs.Plans.{graph_of, text_of};
ghost use Rattle.gs_plan.specs.declared.plan.Plan.{Plan};
ghost use Rattle.gs_level.specs.Reports.{report_of};
ghost use Rattle.gs_script.specs.Script.{Said};
ghost use Rattle.gs_run.specs.Nets.{net_of};
ghost use Rattle.gs_run.specs.RunRows.{fast_of, rows_of};
ghost use Rattle.gs_calendar.specs.Course.{course_of};
ghost use Rattle.gs_calendar.specs.Events.{events_upto};
ghost use Rattle.gs_calendar.specs.Scripts.{IsReadFor, start_of};
ghost use Rattle.gs_calendar.specs.Stale.{breach_upto};
ghost use Rattle.gs_calendar.specs.Stops.{StopsAt};

use crate::handing::hand_over;
use crate::load::Load;
use crate::running::run_pieces;
use crate::staleness::look_ahead;
use crate::starting::pieces_of;
use crate::totals::Totals;
use crate::window::longest_window;
use gs_calendar::PlayStop;
use gs_gate::Gate;
use gs_level::Report;
use gs_piece::Piece;
use gs_plan::Plan;
use gs_script::Script;
use gs_seat::SentBeacon;
use std::alloc::{AllocError, Global};
use std::thread::Threads;

/// A play under way, at the end of a window.
#[derive(Drop)]
pub(crate) struct Player {
    pieces: Vec<Piece>,
    /// The nodes of a piece; the last may have fewer.
    size: u32,
    window: u32,
    /// The quanta that were played.
    quanta: u32,
    /// Up to this quantum nothing turns stale that was heard so far.
    safe: u32,
    totals: Totals,
    buffer: Vec<SentBeacon>,
    load: Load,
}

impl Player {
    ghost use Rattle.gs_play.specs.inside.Player.{IsPlayerAt, IsPlayerFor, HasPlayed};

    /// The start of a play by `workers` workers, each of which has a piece.
    pub(crate) fn start(
        alloc: Global,
        plan: &Plan,
        script: &Script,
        workers: u32,
    ) -> Result<Player, AllocError>
        requires workers { (1 ≤ workers) × (workers ≤ 64) }
        requires read { IsReadFor (text_of plan.now) script.now }
        ensures { IfOk result (IsPlayerAt plan.now script.now 0) }
    {
        let size = plan.topo().nodes().div_ceil(workers);
        Ok(Player {
            pieces: pieces_of(alloc, plan, script, size)?,
            size,
            window: longest_window(plan),
            quanta: 0,
            safe: plan.text().age,
            totals: Totals::start(alloc, plan)?,
            buffer: Vec::new(alloc),
            load: Load::unknown(),
        })
    }

    /// The quanta that were played.
    pub(crate) fn quanta(&self) -> u32
        ensures { (p : Plan) (s : Said) (t : ℕ) → IsPlayerAt p s t self.now → result ≡ t }
    {
        self.quanta
    }

    /// Plays the next window: by threads where the window before it had enough to do that they pay, and in
    /// turn else. The first goes by a thread for each piece.
    pub(crate) fn window<R: Threads + Sync, G: Gate>(
        &mut self,
        rt: &R,
        plan: &Plan,
        script: &Script,
        gate: &G,
    ) -> Result<(), PlayStop>
        requires { (t : ℕ) × (t < script.now.quanta) × IsPlayerAt plan.now script.now t self.old }
        ensures ok { (t : ℕ) → t < script.now.quanta → IsPlayerAt plan.now script.now t self.old
            → OnOk result (HasPlayed plan.now script.now t self.new) }
        ensures err { (t : ℕ) → t < script.now.quanta → IsPlayerAt plan.now script.now t self.old
            → IfErr result (StopsAt (breach_upto (net_of plan.now) (course_of script.now) script.now.quanta)) }
    {
        let n = self.next_window(plan, script)?;
        self.run(rt, plan, script, gate, n)?;
        Ok(())
    }

    /// The quanta of the next window, in which nothing turns stale.
    fn next_window(&mut self, plan: &Plan, script: &Script) -> Result<u32, PlayStop>
        requires { (t : ℕ) × (t < script.now.quanta) × IsPlayerAt plan.now script.now t self.old }
        ensures ok { (t : ℕ) → t < script.now.quanta → IsPlayerAt plan.now script.now t self.old
            → IfOk result (λ n. IsPlayerFor plan.now script.now t n self.new) }
        ensures err { (t : ℕ) → t < script.now.quanta → IsPlayerAt plan.now script.now t self.old
            → IfErr result (StopsAt (breach_upto (net_of plan.now) (course_of script.now) script.now.quanta)) }
    {
        let n = self.window.min(script.quanta() - self.quanta);
        self.safe = look_ahead(&self.pieces, plan, self.quanta, n, self.safe)?;
        Ok(n.min(self.safe - self.quanta))
    }

    /// Plays a window of `n` quanta.
    fn run<R: Threads + Sync, G: Gate>(
        &mut self,
        rt: &R,
        plan: &Plan,
        script: &Script,
        gate: &G,
        n: u32,
    ) -> Result<(), AllocError>
        requires { (t : ℕ) × IsPlayerFor plan.now script.now t n self.old }
        ensures { (t : ℕ) → IsPlayerFor plan.now script.now t n self.old
            → OnOk result (IsPlayerAt plan.now script.now (t + n) self.new) }
    {
        let some = self.load.share(self.pieces.len(), n);
        run_pieces(
            rt,
            plan,
            script,
            gate,
            &mut self.pieces,
            some,
            self.quanta,
            n,
        );
        self.totals.add_window(plan, &self.pieces, n)?;
        let events = hand_over(plan, script, &mut self.pieces, self.size, &mut self.buffer)?;
        self.load = Load::of_window(events, n);
        self.quanta += n;
        Ok(())
    }

    /// What is reported of the quanta that were played.
    pub(crate) fn report(&self, alloc: Global, plan: &Plan) -> Result<Report, AllocError>
        requires { (s : Said) × (t : ℕ) × IsPlayerAt plan.now s t self.now }
        ensures value { (s : Said) (t : ℕ) → IsPlayerAt plan.now s t self.now
            → IfOk result (λ report. report ≡ report_of (text_of plan.now) (graph_of plan.now)
            (rows_of (net_of plan.now) (start_of (net_of plan.now)) (events_upto (net_of plan.now) (course_of s) t))
            (fast_of (net_of plan.now) (start_of (net_of plan.now)) (events_upto (net_of plan.now) (course_of s) t))) }
        ensures levels { IfOk result (λ report. length report.levels ≡ (text_of plan.now).levels + 1) }
    {
        self.totals.report(alloc, plan)
    }
}
