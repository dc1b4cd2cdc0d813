ghost use Rattle.std.specs.Prelude.{◌≡◌, ℕ, List};

use std::marker::Model;

/// A list of nodes. Contracts see the list.
#[derive(Drop)]
pub(crate) struct Nodes {
    items: Vec<u32>,
}

impl Model for Nodes {
    ghost Value = { List ℕ };

    ghost view = { λ a. a.items.items };
}

impl Nodes {
    pub(crate) fn from_vec(items: Vec<u32>) -> Self
        ensures { result ≡ items.items }
    {
        Nodes { items }
    }

    pub(crate) fn as_slice(&self) -> &[u32]
        ensures { result.now ≡ self.now }
    {
        &self.items
    }
}
