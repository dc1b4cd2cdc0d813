ghost use Rattle.std.specs.Prelude.{◌≡◌};
ghost use Rattle.gs_view.specs.Lists.{last_or};

use crate::Snap;
use left_right::Absorb;
use std::alloc::AllocError;

/// What each of the two copies holds of the snaps that were published after the first: how many there
/// are, and the last of them.
#[derive(Clone, Copy)]
pub struct Shown {
    pub count: u64,
    pub last: Option<Snap>,
}

impl Shown {
    /// The last snap, where this is the one before all.
    pub fn last_or(&self, first: Snap) -> Snap
        ensures { result ≡ last_or first self.now.last }
    {
        match self.last {
            Some(last) => last,
            None => first,
        }
    }
}

// What is published next takes the place of what was.
impl Absorb<Shown> for Shown {
    type State = Shown;

    ghost state = { λ shown. shown };

    ghost applied = { λ _ next. next };

    ghost never_fails = { Unit {0} };

    fn absorb_first(&mut self, next: &Shown, _other: &Shown) -> Result<(), AllocError> {
        *self = *next;
        Ok(())
    }
}
