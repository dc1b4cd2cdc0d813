ghost use Rattle.std.specs.Prelude.{◌≡◌, ◌<◌, ◌≤◌, ℕ, length, replicate, slice_index_or, IfOk};
ghost use Rattle.gs_plan.specs.Shapes.{graph_of_text};
ghost use Rattle.gs_topo.specs.Graph.{Adjacent};
ghost use Rattle.gs_script.specs.Lasts.{Lasts};
ghost use Rattle.gs_script.specs.Script.{delay_of, is_lost};
ghost use Rattle.gs_script.specs.declared.run.WayRun.{WayRun};
ghost use Rattle.gs_calendar.specs.Course.{course_of};
ghost use Rattle.gs_seat.specs.Ways.{Knows, unasked};

use gs_script::{Script, WayRun};
use std::alloc::{AllocError, Global};
use std::marker::Model;

/// What is known of the ways to a node, by the place among its neighbours of the one that they begin at.
/// Contracts see the list of it.
#[derive(Drop)]
pub(crate) struct Ways {
    known: Vec<WayRun>,
}

impl Model for Ways {
    ghost use Rattle.std.specs.Prelude.{List};
    ghost use Rattle.gs_script.specs.declared.run.WayRun.{WayRun};

    ghost Value = { List WayRun };

    ghost view = { λ a. a.known.items };
}

impl Ways {
    /// So many ways, of which the script was not asked.
    pub(crate) fn unasked(alloc: Global, count: usize) -> Result<Ways, AllocError>
        ensures { IfOk result (λ ways. ways ≡ replicate count unasked) }
    {
        let none = WayRun {
            delay: 0,
            is_lost: false,
            until: 0,
        };
        Ok(Ways {
            known: vec![in alloc; none; count]?,
        })
    }

    /// What the script says of a beacon that `from`, the neighbour at a place, sends to `to` in a quantum, and
    /// up to which quantum it stays the same. The script is asked only where what is known ends.
    pub(crate) fn ask(
        &mut self,
        script: &Script,
        from: u32,
        to: u32,
        place: usize,
        quantum: u32,
    ) -> WayRun
        requires sender { from < (graph_of_text script.now.text).nodes }
        requires receiver { to < (graph_of_text script.now.text).nodes }
        requires neighbours { Adjacent (graph_of_text script.now.text) from to }
        requires place { place < length self.old }
        requires known { (a : ℕ) × (a < quantum)
            × ((d : WayRun) → Knows (course_of script.now) from to a (slice_index_or self.old place d)) }
        ensures delay { Lasts (delay_of script.now from to) quantum result.until result.delay }
        ensures lost { Lasts (is_lost script.now from to) quantum result.until result.is_lost }
        ensures count { length self.new ≡ length self.old }
        ensures own { (d : WayRun) → slice_index_or self.new place d ≡ result }
        ensures others { (i : ℕ) (d : WayRun) → (i ≡ place → ⊥) → slice_index_or self.new i d ≡ slice_index_or self.old i d }
    {
        let known = self.known[place];
        if quantum <= known.until {
            return known;
        }
        let way = script.way_run(from, to, quantum);
        self.known[place] = way;
        way
    }
}
