ghost use Rattle.std.specs.Prelude.{◌≡◌, ◌-◌, ◌++◌, ◌∷◌, [], ◌<◌, ◌^◌, ℕ, List, length};
ghost use Rattle.gs_plan.specs.Plans.{graph_of};
ghost use Rattle.gs_level.specs.Tallies.{rows_in};
ghost use Rattle.gs_lookout.specs.Lookouts.{HasGrown, IsLookout};

use crate::apart::{Ends, Link};
use gs_level::Tally;
use gs_plan::Plan;

/// The tally of the rows of a play, with what bounds the skews of the last row: how far clocks can be
/// apart at most, and which were when all were last looked at. Skews are in clock units.
#[derive(Drop)]
pub struct Lookout {
    tally: Tally,
    ends: Ends,
    link: Link,
}

impl Lookout {
    /// The lookout over the clocks at the start.
    pub fn new(plan: &Plan, clocks: &[u64]) -> Self
        requires { length clocks.now ≡ (graph_of plan.now).nodes }
        ensures { IsLookout (graph_of plan.now) [] clocks.now result }
    {
        let tally = Tally::new(plan, clocks);
        Lookout {
            tally,
            ends: Ends::of(clocks),
            link: Link::of(plan.topo(), clocks),
        }
    }

    /// Takes in the clocks at the end of one more quantum, in which no clock grew by more than `by` clock
    /// units beyond the growth of another.
    pub fn add(&mut self, plan: &Plan, clocks: &[u64], by: u64)
        requires count { length clocks.now ≡ (graph_of plan.now).nodes }
        requires room { rows_in self.old.tally < 2 ^ 32 - 1 }
        requires grown { (before : List (List ℕ)) × (last : List ℕ)
            × IsLookout (graph_of plan.now) before last self.old × HasGrown by last clocks.now }
        ensures { (before : List (List ℕ)) (last : List ℕ) → IsLookout (graph_of plan.now) before last self.old
            → HasGrown by last clocks.now → IsLookout (graph_of plan.now) (before ++ last ∷ []) clocks.now self.new }
    {
        let global = self.ends.seen(clocks, by, self.tally.global());
        let near = self
            .link
            .seen(plan.topo(), clocks, by, global, self.tally.near());
        self.tally.see(plan, clocks, global, near);
    }

    /// The tally of all rows so far.
    pub fn tally(&self) -> &Tally
        ensures { result.now ≡ self.now.tally }
    {
        &self.tally
    }
}
