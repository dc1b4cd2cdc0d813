ghost use Rattle.std.specs.Prelude.{◌≡◌, ◌+◌, ◌^◌, ◌<◌, ◌≤◌, ℕ, suc, length, IfOk, OnOk};
ghost use Rattle.gs_plan.specs.Plans.{graph_of, text_of};
ghost use Rattle.gs_level.specs.Reports.{report_of};
ghost use Rattle.gs_run.specs.Nets.{net_of};
ghost use Rattle.gs_run.specs.RunRows.{fast_of, rows_of};
ghost use Rattle.gs_calendar.specs.Course.{Course, course_of};
ghost use Rattle.gs_script.specs.Script.{Said};
ghost use Rattle.gs_play.specs.inside.Apart.{most_apart};
ghost use Rattle.gs_calendar.specs.Events.{events_upto};
ghost use Rattle.gs_calendar.specs.Scripts.{start_of};
ghost use Rattle.gs_play.specs.inside.Pieces.{HaveRows};

use crate::gathering::gather;
use gs_level::Report;
use gs_lookout::Lookout;
use gs_piece::Piece;
use gs_plan::Plan;
use gs_units::Rate;
use std::alloc::{AllocError, Global};

/// What is known of the rows of clocks so far.
#[derive(Drop)]
pub(crate) struct Totals {
    /// The last row, in clock units.
    row: Vec<u64>,
    lookout: Lookout,
    /// The pairs of a node and a quantum that it took in the fast mode.
    fast: u64,
}

impl Totals {
    ghost use Rattle.gs_play.specs.inside.Totals.{AreTotals, IsCalm};

    /// The start, where all clocks are 0.
    pub(crate) fn start(alloc: Global, plan: &Plan) -> Result<Totals, AllocError>
        ensures { IfOk result (λ totals. (c : Course) → AreTotals plan.now c 0 totals) }
    {
        let row = vec![in alloc; 0; plan.topo().nodes() as usize]?;
        Ok(Totals {
            lookout: Lookout::new(plan, &row),
            row,
            fast: 0,
        })
    }

    /// Takes in the `n` quanta of a window that the pieces were taken through.
    pub(crate) fn add_window(
        &mut self,
        plan: &Plan,
        pieces: &[Piece],
        n: u32,
    ) -> Result<(), AllocError>
        requires few { length pieces.now ≤ 64 }
        requires rows { (s : Said) × (size : ℕ) × (m : ℕ) × IsCalm plan.now s (m + n)
            × HaveRows (net_of plan.now) (course_of s) size m n pieces.now × AreTotals plan.now (course_of s) m self.old }
        ensures { (s : Said) (size m : ℕ) → IsCalm plan.now s (m + n)
            → HaveRows (net_of plan.now) (course_of s) size m n pieces.now → AreTotals plan.now (course_of s) m self.old
            → OnOk result (AreTotals plan.now (course_of s) (m + n) self.new) }
    {
        for j in 0..n {
            self.add_row(plan, pieces, j)?;
        }
        Ok(())
    }

    /// Takes in quantum `j + 1` of the window.
    fn add_row(&mut self, plan: &Plan, pieces: &[Piece], j: u32) -> Result<(), AllocError>
        requires few { length pieces.now ≤ 64 }
        requires rows { (s : Said) × (size : ℕ) × (m : ℕ) × (n : ℕ) × (j < n) × IsCalm plan.now s (m + j)
            × HaveRows (net_of plan.now) (course_of s) size m n pieces.now
            × AreTotals plan.now (course_of s) (m + j) self.old }
        ensures { (s : Said) (size m n : ℕ) → j < n → IsCalm plan.now s (m + j)
            → HaveRows (net_of plan.now) (course_of s) size m n pieces.now
            → AreTotals plan.now (course_of s) (m + j) self.old
            → OnOk result (AreTotals plan.now (course_of s) (suc (m + j)) self.new) }
    {
        let fast = gather(pieces, j, &mut self.row)?;
        self.fast += fast;
        self.lookout
            .add(plan, &self.row, most_apart(plan.rate(), fast));
        Ok(())
    }

    /// What is reported of the rows so far.
    pub(crate) fn report(&self, alloc: Global, plan: &Plan) -> Result<Report, AllocError>
        requires { (c : Course) × (t : ℕ) × AreTotals plan.now c t self.now }
        ensures value { (c : Course) (t : ℕ) → AreTotals plan.now c t self.now
            → IfOk result (λ report. report ≡ report_of (text_of plan.now) (graph_of plan.now)
            (rows_of (net_of plan.now) (start_of (net_of plan.now)) (events_upto (net_of plan.now) c t))
            (fast_of (net_of plan.now) (start_of (net_of plan.now)) (events_upto (net_of plan.now) c t))) }
        ensures levels { IfOk result (λ report. length report.levels ≡ (text_of plan.now).levels + 1) }
    {
        self.lookout
            .tally()
            .report(alloc, plan, &self.row, self.fast)
    }
}

/// How far two clocks may move apart in a quantum that `fast` nodes take in the fast mode, in clock units.
fn most_apart(rate: &Rate, fast: u64) -> u64
    ensures { result ≡ most_apart rate.now fast }
{
    if fast == 0 {
        rate.r()
    } else {
        rate.top() - u64::from(rate.lo())
    }
}
