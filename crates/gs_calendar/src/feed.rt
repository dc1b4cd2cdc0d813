ghost use Rattle.std.specs.Prelude.{◌≡◌, ◌<◌, ℕ, [], ◌∷◌, length, IfOk, IfNone, IfSome, OnErr};
ghost use Rattle.gs_plan.specs.Plans.{text_of};
ghost use Rattle.gs_run.specs.Nets.{net_of};
ghost use Rattle.gs_calendar.specs.Course.{course_of};
ghost use Rattle.gs_calendar.specs.Calendar.{first_turn};
ghost use Rattle.gs_calendar.specs.Events.{events_of};
ghost use Rattle.gs_calendar.specs.inside.Feeds.{turn_in, waiting};

use crate::ahead::{Ahead, first_ahead, go_on, incs_of};
use crate::round::{next_tick, take_due};
use crate::sending::send_all;
use crate::transit::Transit;
use crate::turn::NodeTurn;
use gs_core::Event;
use gs_plan::Plan;
use gs_script::Script;
use std::alloc::{AllocError, Global};
use std::marker::Model;
use std::mem;

/// The events of a script, one after the other. Contracts see the list of those that are left. It works
/// out when nodes tick and send, and keeps what is in transit to each node by when it is due; it asks the
/// script where what it says may change, and keeps no clocks.
#[derive(Drop)]
pub struct Feed<'p> {
    plan: &'p Plan,
    script: &'p Script,
    nodes: u32,
    quanta: u32,
    /// The quantum whose events are given, 0 at first.
    t: u32,
    /// The receivers below this one have all that is due in it.
    to: u32,
    /// The ticks of the nodes below this one were given.
    at: u32,
    /// What the script says of each node in the next quantum.
    ahead: Vec<Ahead>,
    /// The turn of each node after the quantum.
    turns: Vec<NodeTurn>,
    /// Room for those after the next quantum.
    next: Vec<NodeTurn>,
    /// What is in transit to each node.
    waiting: Vec<Transit>,
}

impl<'p> Model for Feed<'p> {
    ghost use Rattle.std.specs.Prelude.{List};
    ghost use Rattle.gs_core.specs.declared.event.Event.{Event};
    ghost use Rattle.gs_calendar.specs.inside.Seen.{IsInside, left_in};

    ghost Value = { List Event };

    ghost view = { left_in };

    ghost invariant = { IsInside };
}

/// The turns of `nodes` nodes at the start.
fn first_turns(alloc: Global, nodes: u32) -> Result<Vec<NodeTurn>, AllocError>
    ensures count { IfOk result (λ turns. length turns.items ≡ nodes) }
    ensures first { IfOk result (λ turns. (v : ℕ) → v < nodes → turn_in turns.items v ≡ first_turn) }
{
    let mut turns = Vec::with_capacity(alloc, nodes as usize)?;
    for _ in 0..nodes {
        turns.push(NodeTurn::first())?;
    }
    Ok(turns)
}

/// Nothing in transit to each of `nodes` nodes.
fn none_waiting(alloc: Global, nodes: u32) -> Result<Vec<Transit>, AllocError>
    ensures count { IfOk result (λ lists. length lists.items ≡ nodes) }
    ensures none { IfOk result (λ lists. (v : ℕ) → v < nodes → waiting lists.items v ≡ []) }
{
    let mut lists = Vec::with_capacity(alloc, nodes as usize)?;
    for _ in 0..nodes {
        lists.push(Transit::new(alloc))?;
    }
    Ok(lists)
}

impl<'p> Feed<'p> {
    /// The feed of a script. The script was read for the plan.
    #[tactic(auto, using(crate::proofs::Beginning::start_feed))]
    pub fn new(alloc: Global, plan: &'p Plan, script: &'p Script) -> Result<Feed<'p>, AllocError>
        requires { script.now.text ≡ text_of plan.now }
        ensures { IfOk result (λ feed. feed ≡ events_of (net_of plan.now) (course_of script.now)) }
    {
        let nodes = plan.topo().nodes();
        Ok(Feed {
            plan,
            script,
            nodes,
            quanta: script.quanta(),
            t: 0,
            to: nodes,
            at: nodes,
            ahead: first_ahead(alloc, plan, script)?,
            turns: first_turns(alloc, nodes)?,
            next: first_turns(alloc, nodes)?,
            waiting: none_waiting(alloc, nodes)?,
        })
    }

    /// Takes the first event that is left, if there is one. Where memory is refused nothing changes.
    pub fn next(&mut self, alloc: Global) -> Result<Option<Event>, AllocError>
        ensures event { IfOk result (λ o. IfSome o (λ e. self.old ≡ e ∷ self.new)) }
        ensures end { IfOk result (λ o. IfNone o ((self.old ≡ []) × (self.new ≡ []))) }
        ensures err { OnErr result (self.new ≡ self.old) }
    {
        if let Some((to, key)) = take_due(&mut self.waiting, self.to, self.t) {
            self.to = to;
            return Ok(Some(Event::Deliver {
                from: key.from,
                to,
                seq: key.seq,
            }));
        }
        self.to = self.nodes;
        if let Some(v) = next_tick(&self.turns, self.at, self.t) {
            self.at = v + 1;
            return Ok(Some(Event::Tick(v)));
        }
        self.at = self.nodes;
        if self.t == self.quanta {
            return Ok(None);
        }
        let incs = incs_of(alloc, &self.ahead)?;
        send_all(
            self.plan,
            self.script,
            self.t,
            &self.ahead,
            &self.turns,
            &mut self.next,
            &mut self.waiting,
        )?;
        mem::swap(&mut self.turns, &mut self.next);
        self.t += 1;
        go_on(self.plan, self.script, &mut self.ahead, self.t);
        self.to = 0;
        self.at = 0;
        Ok(Some(Event::Quantum(incs)))
    }
}
