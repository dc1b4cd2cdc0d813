ghost use Rattle.std.specs.Prelude.{◌≡◌, ◌+◌, ◌<◌, ◌≤◌, ◌^◌, All, IfErr, IfOk, Ok, OnErr, false, length, replicate, true};
ghost use Rattle.gs_plan.specs.Plans.{graph_of, text_of};
ghost use Rattle.gs_run.specs.Nets.{net_of};
ghost use Rattle.gs_calendar.specs.Scripts.{breach_of_script};
ghost use Rattle.gs_calendar.specs.Stops.{StopsAt};
ghost use Rattle.gs_rows.specs.Row.{zeros_of};
ghost use Rattle.gs_rows.specs.Stage.{IsOver, row_now};

use crate::advancing::play_on;
use gs_calendar::{Feed, PlayStop};
use gs_core::Event;
use gs_plan::Plan;
use gs_script::Script;
use gs_units::END;
use gs_world::World;
use std::alloc::{AllocError, Global};
use std::marker::Model;

/// A script that is played on its plan, one quantum after another. All readings start at 0. Contracts see
/// the plan, the script, the clocks of the start and the count of quanta that are played.
///
/// What looks at the clocks of a play between its quanta stands on this: `settle`, `slots` and `order` are
/// loops over [`Rows::next`].
#[derive(Drop)]
pub struct Rows<'p> {
    plan: &'p Plan,
    script: &'p Script,
    /// The clocks of the start.
    l0s: Vec<u64>,
    feed: Feed<'p>,
    world: World<'p>,
    /// An event that the feed gave and that the world has not taken yet.
    held: Option<Event>,
    /// The number of nodes that took the last quantum in fast mode.
    fast: u32,
}

impl<'p> Model for Rows<'p> {
    ghost use Rattle.gs_rows.specs.Stage.{Stage};
    ghost use Rattle.gs_rows.specs.inside.Seen.{IsInside, stage_of};

    ghost Value = { Stage };

    ghost view = { stage_of };

    ghost invariant = { IsInside };
}

/// A clock at 0 for each of `nodes` nodes.
fn zeros(alloc: Global, nodes: u32) -> Result<Vec<u64>, AllocError>
    ensures { IfOk result (λ zeros. zeros.items ≡ replicate nodes 0) }
{
    let zeros = vec![in alloc; 0; nodes as usize]?;
    Ok(zeros)
}

impl<'p> Rows<'p> {
    /// The start where all clocks are 0. The script was read for the plan.
    pub fn start(alloc: Global, plan: &'p Plan, script: &'p Script) -> Result<Rows<'p>, AllocError>
        requires { script.now.text ≡ text_of plan.now }
        ensures { IfOk result (λ rows.
            rows ≡ record { plan = plan.now; said = script.now; l0s = zeros_of (net_of plan.now); quanta = 0 }) }
    {
        let l0s = zeros(alloc, plan.topo().nodes())?;
        Rows::start_each(alloc, plan, script, l0s)
    }

    /// The start from one clock for each node, in clock units. The script was read for the plan.
    pub fn start_each(
        alloc: Global,
        plan: &'p Plan,
        script: &'p Script,
        l0s: Vec<u64>,
    ) -> Result<Rows<'p>, AllocError>
        requires script { script.now.text ≡ text_of plan.now }
        requires one_each { length l0s.items ≡ (graph_of plan.now).nodes }
        requires clocks { All (λ clock. clock ≤ 2 ^ 61) l0s.items }
        ensures { IfOk result
            (λ rows. rows ≡ record { plan = plan.now; said = script.now; l0s = l0s.items; quanta = 0 }) }
    {
        // From here on it is known that the script keeps the bounds of its plan.
        let _within_bounds = script.quanta();
        let feed = Feed::new(alloc, plan, script)?;
        let readings = zeros(alloc, plan.topo().nodes())?;
        let world = World::start_each(alloc, plan, &readings, &l0s)?;
        Ok(Rows {
            plan,
            script,
            l0s,
            feed,
            world,
            held: None,
            fast: 0,
        })
    }

    /// Plays on to the end of the next quantum. It answers false where all quanta are played: then all events
    /// of the script were allowed. It stops at the script's first breach, which is the same from whatever
    /// clocks. An `Err` changes nothing.
    pub fn next(&mut self, alloc: Global) -> Result<bool, PlayStop>
        ensures on { result ≡ Ok true → self.new ≡ record self.old { quanta = self.old.quanta + 1 } }
        ensures inside { result ≡ Ok true → self.old.quanta < self.old.said.quanta }
        ensures over { result ≡ Ok false → IsOver self.old }
        ensures end { result ≡ Ok false → self.new ≡ self.old }
        ensures stop { IfErr result (StopsAt (breach_of_script self.old.plan self.old.said)) }
        ensures unchanged { OnErr result (self.new ≡ self.old) }
    {
        match play_on(alloc, &mut self.world, &mut self.feed, &mut self.held)? {
            Some(fast) => {
                self.fast = fast;
                Ok(true)
            }
            None => Ok(false),
        }
    }

    /// The count of quanta that are played.
    pub fn quanta(&self) -> u32
        ensures { result ≡ self.now.quanta }
    {
        self.world.quanta()
    }

    /// The clocks of all nodes at the end of the last quantum that is played, in clock units.
    pub fn clocks(&self) -> &[u64]
        ensures value { result.now ≡ (row_now self.now).clocks }
        ensures count { length result.now ≡ (graph_of self.now.plan).nodes }
        ensures below { All (λ clock. clock < END) result.now }
    {
        // From here on it is known that all clocks are far from the end.
        let _few = self.world.quanta();
        self.world.clocks()
    }

    /// The number of nodes that took the last quantum that is played in fast mode, 0 at the start.
    pub fn fast(&self) -> u32
        ensures { result ≡ (row_now self.now).fast }
    {
        self.fast
    }
}
