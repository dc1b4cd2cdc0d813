ghost use Rattle.std.specs.Prelude.{◌≡◌, IfOk};

use crate::rate::Rate;
use std::alloc::{AllocError, Global};
use std::marker::Model;

/// What a node is told of the link to one neighbour before it runs, in clock units.
#[derive(Clone, Copy, Debug, PartialEq, Eq)]
pub struct Link {
    /// The neighbour.
    pub node: u32,
    /// What a beacon's clock is raised by for its way.
    pub comp: u64,
    /// What a beacon's maximum is raised by for its way.
    pub jump: u64,
    /// The skew that one level of the gradient allows at this link.
    pub kappa: u64,
    /// How far an offset may be off when it is used.
    pub delta: u64,
}

/// The links of a node. Contracts see the list of them.
#[derive(Debug, Drop)]
pub struct Links {
    items: Vec<Link>,
}

impl Model for Links {
    ghost use Rattle.std.specs.Prelude.{List};
    ghost use Rattle.gs_units.specs.declared.params.Link.{Link};

    ghost Value = { List Link };

    ghost view = { λ a. a.items.items };
}

impl Links {
    /// The links of this list, in its order.
    pub fn from_vec(items: Vec<Link>) -> Self
        ensures { result ≡ items.items }
    {
        Links { items }
    }

    /// The links in order.
    pub fn as_slice(&self) -> &[Link]
        ensures { result.now ≡ self.now }
    {
        &self.items
    }

    /// The same links once more.
    pub fn copy(&self, alloc: Global) -> Result<Links, AllocError>
        ensures { IfOk result (λ copy. copy ≡ self.now) }
    {
        Ok(Links {
            items: self.items.as_slice().to_vec(alloc)?,
        })
    }
}

impl PartialEq for Links {
    ghost use Rattle.std.specs.Bool.{Decides};
    ghost use Rattle.std.specs.Cmp.{partial_equiv_from_equiv};
    ghost use Rattle.gs_units.specs.Equality.{same_links, same_links-laws};

    ghost eq = { same_links };

    ghost laws = { partial_equiv_from_equiv same_links-laws };

    fn eq(&self, other: &Links) -> bool
        ensures value { result ≡ same_links self.now other.now }
        ensures exact { Decides result (self.now ≡ other.now) }
    {
        self.items.as_slice() == other.items.as_slice()
    }
}

impl Eq for Links {
    ghost use Rattle.gs_units.specs.Equality.{same_links-laws};

    ghost laws = { same_links-laws };
}

/// What a node is told before it runs.
#[derive(Debug, Drop)]
pub struct NodeParams {
    /// The cluster that the node and its neighbours are in.
    pub cluster: u32,
    /// The node's own number.
    pub node: u32,
    /// One link for each neighbour, in ascending order of their numbers.
    pub links: Links,
    /// How fast clocks may run.
    pub rate: Rate,
    /// How far the maximum has to be ahead of the clock, in clock units, for a node to be fast where
    /// neither trigger holds.
    pub iota: u64,
    /// The node sends a beacon at every `every`-th tick.
    pub every: u32,
}

impl NodeParams {
    /// The same parameters once more.
    pub fn copy(&self, alloc: Global) -> Result<NodeParams, AllocError>
        ensures { IfOk result (λ copy. copy ≡ self.now) }
    {
        Ok(NodeParams {
            cluster: self.cluster,
            node: self.node,
            links: self.links.copy(alloc)?,
            rate: self.rate,
            iota: self.iota,
            every: self.every,
        })
    }
}

impl PartialEq for NodeParams {
    ghost use Rattle.std.specs.Bool.{Decides};
    ghost use Rattle.std.specs.Cmp.{partial_equiv_from_equiv};
    ghost use Rattle.gs_units.specs.Equality.{same_params, same_params-laws};

    ghost eq = { same_params };

    ghost laws = { partial_equiv_from_equiv same_params-laws };

    fn eq(&self, other: &NodeParams) -> bool
        ensures value { result ≡ same_params self.now other.now }
        ensures exact { Decides result (self.now ≡ other.now) }
    {
        self.cluster == other.cluster
            && self.node == other.node
            && self.links == other.links
            && self.rate == other.rate
            && self.iota == other.iota
            && self.every == other.every
    }
}

impl Eq for NodeParams {
    ghost use Rattle.gs_units.specs.Equality.{same_params-laws};

    ghost laws = { same_params-laws };
}
