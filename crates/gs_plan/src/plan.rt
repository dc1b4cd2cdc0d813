ghost use Rattle.std.specs.Prelude.{◌≡◌, ◌<◌, ◌≤◌, ◌*◌, ◌^◌, ◌-◌, IfOk, IfSome, IsTrue, None, Some, is_none, length, map, slice_get};
ghost use Rattle.gs_units.specs.Rates.{HasNumbers};
ghost use Rattle.gs_plan.specs.Shapes.{graph_of_text};
ghost use Rattle.gs_plan.specs.Faults.{plan_fault};
ghost use Rattle.gs_plan.specs.Numbers.{numbers_of};
ghost use Rattle.gs_plan.specs.inside.Sets.{graphs-prop, lengths-prop, numbers-prop};
ghost use Rattle.gs_plan.specs.inside.Kept.{AreGreatest, AreLevels, AreOwn, lengths_in};

use crate::bounds::{global, greatest_kappa, lambda};
use crate::edge::{EdgeGiven, EdgeNumbers, own_given};
use crate::levels::Levels;
use crate::numbers::{all_numbers, edge_numbers, iota, kappas};
use gs_planfile::PlanText;
use gs_topo::{Topology, Weights};
use gs_units::{Link, Links, NodeParams, Rate};
use std::alloc::{AllocError, Global};

/// A plan that was accepted, with its numbers. Every value of this type was accepted by `check`.
#[derive(Drop)]
pub struct Plan {
    text: PlanText,
    rate: Rate,
    topo: Topology,
    /// The numbers of an edge without a span.
    own: EdgeNumbers,
    edges: Vec<EdgeNumbers>,
    weights: Weights,
    /// The greatest kappa of the plan and its edges.
    greatest_kappa: u64,
    lambda: u64,
    iota: u64,
    levels: Levels,
    pub ghost accepted: { IsTrue (is_none (plan_fault text)) },
    pub ghost rates: { HasNumbers text.lo text.hi text.mu rate },
    pub ghost graph: { topo ≡ graph_of_text text } by { graphs-prop topo (graph_of_text text) },
    ghost own_numbers: { AreOwn text own },
    ghost each: { edges.items ≡ numbers_of text topo } by { numbers-prop edges.items (numbers_of text topo) },
    ghost lengths: { weights ≡ lengths_in text topo } by { lengths-prop weights (lengths_in text topo) },
    ghost greatest: { AreGreatest text topo greatest_kappa lambda iota },
    ghost bounds: { AreLevels text topo levels },
}

#[tactic(auto, using(crate::proofs::Keeping::facts))]
impl Plan {
    ghost use Rattle.gs_plan.specs.Plans.{best_edge_of, best_local_of, bound_of, edge_bound_of, edge_of, edges_of, graph_of, greatest_kappa_of, kappa_of, lag_of, local_of, own_comp_of, own_delta_of, own_jump_of, own_kappa_of, params_for, rate_of, text_of, weight_of};
    ghost use Rattle.gs_plan.specs.Accepted.{IsAccepted};
    ghost use Rattle.gs_plan.specs.Levels.{IsBest};
    ghost use Rattle.gs_plan.specs.Nodes.{link_in};
    ghost use Rattle.gs_units.specs.Params.{AreValid};
    ghost use Rattle.gs_topo.specs.Graph.{Adjacent, neighbours_of};
    ghost use Rattle.gs_topo.specs.Walks.{IsLeast};
    ghost use Rattle.gs_plan.specs.Edges.{edges_given, own_given};
    ghost use Rattle.gs_plan.specs.Numbers.{iota_in};

    /// The plan of a text that has no fault.
    pub(crate) fn of(
        alloc: Global,
        text: &PlanText,
        rate: Rate,
        topo: Topology,
        edges: &[EdgeGiven],
    ) -> Result<Plan, AllocError>
        requires rate { HasNumbers text.now.lo text.now.hi text.now.mu rate }
        requires graph { topo ≡ graph_of_text text.now }
        requires edges { edges.now ≡ edges_given text.now topo }
        requires no_fault { plan_fault text.now ≡ None }
        requires accepted { IsAccepted text.now topo }
        ensures { IfOk result (λ plan. text_of plan ≡ text.now) }
    {
        let own = edge_numbers(text, rate, own_given(text));
        let numbers = all_numbers(alloc, text, rate, edges)?;
        let weights = Weights::new(alloc, &topo, &kappas(alloc, &numbers)?)?;
        let greatest_kappa = greatest_kappa(text, rate, &topo, edges) as u64;
        let lambda = lambda(text, rate, &topo, edges) as u64;
        let iota = iota(text, rate) as u64;
        let levels = Levels {
            first: global(text, rate, &topo, edges) as u64,
            sigma: rate.sigma(),
            r: rate.r(),
            last: text.levels,
        };
        Ok(Plan {
            text: text.copy(alloc)?,
            rate,
            topo,
            own,
            edges: numbers,
            weights,
            greatest_kappa,
            lambda,
            iota,
            levels,
        })
    }

    /// The graph.
    pub fn topo(&self) -> &Topology
        ensures { result.now ≡ graph_of self.now }
    {
        &self.topo
    }

    /// The rate of clocks.
    pub fn rate(&self) -> &Rate
        ensures { result.now ≡ rate_of self.now }
    {
        &self.rate
    }

    /// The text that the plan was made of.
    pub fn text(&self) -> &PlanText
        ensures { result.now ≡ text_of self.now }
    {
        &self.text
    }

    /// The plan's own kappa: the skew that one level allows at an edge without a span, in clock units.
    pub fn kappa(&self) -> u64
        ensures { result ≡ own_kappa_of self.now }
    {
        self.own.kappa
    }

    /// How far an offset over an edge without a span may be off when it is used, in clock units.
    pub fn delta(&self) -> u64
        ensures { result ≡ own_delta_of self.now }
    {
        self.own.delta
    }

    /// What a beacon's clock is raised by for its way over an edge without a span, in clock units.
    pub fn comp(&self) -> u64
        ensures { result ≡ own_comp_of self.now }
    {
        self.own.comp
    }

    /// What a beacon's maximum is raised by for its way over an edge without a span, in clock units.
    pub fn jump(&self) -> u64
        ensures { result ≡ own_jump_of self.now }
    {
        self.own.jump
    }

    /// How far the maximum has to be ahead of the clock, in clock units, for a node to be fast where
    /// neither trigger holds.
    pub fn iota(&self) -> u64
        ensures { result ≡ iota_in (text_of self.now) }
    {
        self.iota
    }

    /// How far the maximum of a node may lag behind the greatest clock, in clock units.
    pub fn lambda(&self) -> u64
        ensures { result ≡ lag_of self.now }
    {
        self.lambda
    }

    /// The greatest kappa of the plan and its edges, in clock units.
    pub fn greatest_kappa(&self) -> u64
        ensures { result ≡ greatest_kappa_of self.now }
    {
        self.greatest_kappa
    }

    /// The bound of level `s`, in clock units. Level 0 bounds the difference of any two clocks.
    pub fn g_level(&self, s: u32) -> u64
        requires { s ≤ (text_of self.now).levels }
        ensures { result ≡ bound_of self.now s }
    {
        self.levels.bound(s)
    }

    /// The bound that level `s` gives for the difference of the ends of any edge, in clock units.
    pub fn local(&self, s: u32) -> u64
        requires { s ≤ (text_of self.now).levels }
        ensures { result ≡ local_of self.now s }
    {
        self.levels.skew(self.greatest_kappa, s)
    }

    /// The first level whose bound for any edge is least, and that bound in clock units.
    pub fn best(&self) -> (u32, u64)
        ensures value { result ≡ best_local_of self.now }
        ensures best { IsBest (local_of self.now)
            (text_of self.now).levels result }
    {
        self.best_over(self.greatest_kappa)
    }

    /// The numbers of the edge of this number.
    pub fn edge(&self, e: u32) -> EdgeNumbers
        requires { e < length (graph_of self.now).edges }
        ensures { slice_get (edges_of self.now) e ≡ Some result }
    {
        self.edges[e as usize]
    }

    /// The numbers of the edge between `v` and `w`, where there is one.
    pub fn edge_over(&self, v: u32, w: u32) -> Option<EdgeNumbers>
        ensures { result ≡ edge_of self.now v w }
    {
        let e = self.topo.edge_between(v, w)?;
        Some(self.edges[e as usize])
    }

    /// The first level whose bound for the edge of this number is least, and that bound in clock
    /// units.
    pub fn best_edge(&self, e: u32) -> (u32, u64)
        requires { e < length (graph_of self.now).edges }
        ensures value { IfSome (slice_get (edges_of self.now) e)
            (λ edge. result ≡ best_edge_of self.now edge.kappa) }
        ensures best { IfSome (slice_get (edges_of self.now) e) (λ edge.
            IsBest (edge_bound_of self.now edge.kappa) (text_of self.now).levels result) }
    {
        self.best_over(self.edge(e).kappa)
    }

    /// The first level whose bound for the ends of an edge of this kappa is least, and that bound, in
    /// clock units.
    pub fn best_over(&self, kappa: u64) -> (u32, u64)
        requires { 2 * (text_of self.now).levels * kappa < 2 ^ 62 }
        ensures value { result ≡ best_edge_of self.now kappa }
        ensures best { IsBest (edge_bound_of self.now kappa)
            (text_of self.now).levels result }
    {
        self.levels.best(kappa)
    }

    /// The weight of two nodes: the least sum of the kappas of the edges of a walk from `v` to `w`,
    /// in clock units.
    pub fn weight(&self, v: u32, w: u32) -> u128
        requires { (v < (graph_of self.now).nodes) × (w < (graph_of self.now).nodes) }
        ensures value { result ≡ weight_of self.now v w }
        ensures least { IsLeast (Adjacent (graph_of self.now)) (graph_of self.now).nodes
            (kappa_of self.now) v w result }
        ensures small { result < 2 ^ 70 }
    {
        self.weights.weight(&self.topo, v, w)
    }

    /// What node `v` is told before it runs: each of its links has the numbers of its edge.
    pub fn node(&self, alloc: Global, v: u32) -> Result<NodeParams, AllocError>
        requires { v < (graph_of self.now).nodes }
        ensures value { IfOk result (λ params.
            params ≡ params_for self.now v) }
        ensures valid { IfOk result AreValid }
    {
        // Read on their own, these two are known to be words of 32 bits.
        let (cluster, every) = (self.text.cluster, self.text.every);
        Ok(NodeParams {
            cluster,
            node: v,
            links: Links::from_vec(self.links(alloc, v)?),
            rate: self.rate,
            iota: self.iota,
            every,
        })
    }

    /// The links of `v` in ascending order of its neighbours.
    fn links(&self, alloc: Global, v: u32) -> Result<Vec<Link>, AllocError>
        requires { v < (graph_of self.now).nodes }
        ensures { IfOk result (λ links.
            links.items ≡ map (link_in (text_of self.now) v) (neighbours_of (graph_of self.now) v)) }
    {
        let mut links = Vec::new(alloc);
        for x in self.topo.neighbours(v) {
            links.push(self.link(v, *x))?;
        }
        Ok(links)
    }

    /// The link from `v` to its neighbour `x`.
    fn link(&self, v: u32, x: u32) -> Link
        requires { Adjacent (graph_of self.now) v x }
        ensures { result ≡ link_in (text_of self.now) v x }
    {
        match self.edge_over(v, x) {
            Some(edge) => Link {
                node: x,
                comp: edge.comp,
                jump: edge.jump,
                kappa: edge.kappa,
                delta: edge.delta,
            },
            None => unreachable!(),
        }
    }
}
