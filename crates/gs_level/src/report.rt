ghost use Rattle.std.specs.Prelude.{◌≡◌, ◌+◌, length, IfOk};
ghost use Rattle.gs_plan.specs.Plans.{text_of, graph_of};

use crate::peak::Peaks;
use crate::report_text::report_text;
use gs_plan::Plan;
use gs_text::Lines;
use std::alloc::{AllocError, Global};

/// What is said of a play. Skews are in clock units, and times are counts of quanta, 0 for the start.
#[derive(Debug, Drop)]
pub struct Report {
    /// The number of quanta played.
    pub quanta: u32,
    /// The greatest difference of two clocks.
    pub global: u64,
    /// The first time that had it.
    pub global_at: u32,
    /// The greatest difference of the ends of an edge.
    pub near: u64,
    /// The first time that had it.
    pub near_at: u32,
    /// The first edge that had it then, where there is an edge.
    pub near_edge: Option<(u32, u32)>,
    /// The potentials of the plan's levels at the end of the play.
    pub levels: Peaks,
    /// How many nodes took a quantum in fast mode, summed over all quanta.
    pub fast: u64,
}

impl Report {
    ghost use Rattle.gs_level.specs.ReportText.{report_text};

    /// The text of the report, with the bounds of its plan: `docs/FORMATS.md`, "The text of a report".
    pub fn text(&self, alloc: Global, plan: &Plan) -> Result<Lines, AllocError>
        requires { length self.now.levels ≡ (text_of plan.now).levels + 1 }
        ensures { IfOk result (λ text. text ≡ report_text (text_of plan.now) (graph_of plan.now) self.now) }
    {
        report_text(alloc, plan, self)
    }
}
