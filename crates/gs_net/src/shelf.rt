ghost use Rattle.std.specs.Prelude.{◌≡◌, ◌+◌, ◌<◌, ◌≤◌, [], ◌∷◌, ◌++◌, OnOk, OnErr, vec_len};
ghost use Rattle.std.specs.Vec.{vec_capacity};

use std::alloc::{AllocError, Global};

/// What came back of a kind, with room for all that is out.
#[derive(Debug, Drop)]
pub(crate) struct Shelf<T> {
    returned: Vec<T>,
    out: usize,
    ghost fits: { vec_len returned + out ≤ vec_capacity returned },
}

impl<T> Shelf<T> {
    /// Nothing is out, and nothing came back.
    pub(crate) fn new(alloc: Global) -> Self
        ensures returned { result.returned.items ≡ [] }
        ensures out { result.out ≡ 0 }
    {
        Shelf {
            returned: Vec::new(alloc),
            out: 0,
        }
    }

    /// Makes room for one more, and counts it as out.
    pub(crate) fn lend(&mut self) -> Result<(), AllocError>
        ensures ok { OnOk result (self.new.out ≡ self.old.out + 1) }
        ensures err { OnErr result (self.new.out ≡ self.old.out) }
        ensures returned { self.new.returned.items ≡ self.old.returned.items }
    {
        let out = self.out.checked_add(1).ok_or(AllocError)?;
        self.returned.reserve(out)?;
        self.out = out;
        Ok(())
    }

    /// Keeps one that came back.
    pub(crate) fn take_back(&mut self, one: T)
        requires { 0 < self.old.out }
        ensures out { self.new.out + 1 ≡ self.old.out }
        ensures returned { self.new.returned.items ≡ self.old.returned.items ++ one ∷ [] }
    {
        self.out -= 1;
        self.returned.push_reserved(one);
    }

    /// What came back, in order.
    pub(crate) fn returned(&self) -> &[T]
        ensures { result.now ≡ self.now.returned.items }
    {
        &self.returned
    }
}
