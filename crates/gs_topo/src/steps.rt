ghost use Rattle.std.specs.Prelude.{◌≡◌, List};

use std::marker::Model;

/// A step of a walk: to a neighbour, over an edge of this length.
#[derive(Clone, Copy)]
pub(crate) struct Step {
    pub(crate) to: u32,
    pub(crate) length: u64,
}

/// The steps from one node. Contracts see the list of them.
#[derive(Drop)]
pub(crate) struct Steps {
    items: Vec<Step>,
}

impl Model for Steps {
    ghost use Rattle.std.specs.Prelude.{List};
    ghost use Rattle.gs_topo.specs.declared.steps.Step.{Step};

    ghost Value = { List Step };

    ghost view = { λ a. a.items.items };
}

impl Steps {
    pub(crate) fn from_vec(items: Vec<Step>) -> Self
        ensures { result ≡ items.items }
    {
        Steps { items }
    }

    pub(crate) fn as_slice(&self) -> &[Step]
        ensures { result.now ≡ self.now }
    {
        &self.items
    }
}
