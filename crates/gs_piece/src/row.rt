ghost use Rattle.std.specs.Prelude.{◌≡◌, length, replicate, IfOk};

use std::alloc::{AllocError, Global};
use std::marker::Model;

/// The clocks of some nodes at one moment, in clock units. Contracts see the list of them.
#[derive(Drop)]
pub(crate) struct Row {
    clocks: Vec<u64>,
}

impl Model for Row {
    ghost use Rattle.std.specs.Prelude.{List, ℕ};

    ghost Value = { List ℕ };

    ghost view = { λ a. a.clocks.items };
}

impl Row {
    /// The row of `count` clocks at 0.
    pub(crate) fn new(alloc: Global, count: usize) -> Result<Row, AllocError>
        ensures { IfOk result (λ r. r ≡ replicate count 0) }
    {
        Ok(Row {
            clocks: vec![in alloc; 0; count]?,
        })
    }

    /// The clocks in order.
    pub(crate) fn clocks(&self) -> &[u64]
        ensures { result.now ≡ self.now }
    {
        &self.clocks
    }

    /// Takes over these clocks.
    pub(crate) fn copy(&mut self, clocks: &[u64])
        requires { length clocks.now ≡ length self.old }
        ensures { self.new ≡ clocks.now }
    {
        self.clocks.copy_from_slice(clocks);
    }
}
