ghost use Rattle.std.specs.Prelude.{◌≡◌, ◌≤◌, [], ◌∷◌, ◌++◌, MatchResult, IfOk};
ghost use Rattle.gs_view.specs.Lists.{last_place};

use crate::desks::Desk;
use crate::handles::Handle;
use crate::shown::Shown;
use crate::{Reader, Snap};
use gs_units::Rate;
use std::alloc::{AllocError, Global};
use std::marker::Model;
use std::sync::Wait;

/// The reader, and the notes that are neither learnt nor let go, have a place each.
const PLACES: usize = 64;

/// Publishes a clock, one snap after the other. Contracts see it as the list of the snaps that it has
/// published. It is ended by `end`.
pub struct Publisher {
    first: Snap,
    desk: Option<Desk>,
}

impl Model for Publisher {
    ghost use Rattle.std.specs.Prelude.{List, ◌∷◌, IsSome};
    ghost use Rattle.gs_view.specs.declared.snaps.Snap.{Snap};
    ghost use Rattle.gs_view.specs.Lists.{or_none};

    ghost Value = { List Snap };

    ghost view = { λ publisher. publisher.first ∷ or_none publisher.desk };

    ghost invariant = { λ publisher. IsSome publisher.desk };
}

/// A list of published snaps that a reader may learn. Contracts see it as that list.
#[derive(Drop)]
pub struct Note {
    pub(crate) first: Snap,
    pub(crate) shown: Shown,
    pub(crate) handle: Handle,
}

impl Model for Note {
    ghost use Rattle.std.specs.Prelude.{List, ◌∷◌};
    ghost use Rattle.gs_view.specs.Telling.{Shows};
    ghost use Rattle.gs_view.specs.declared.snaps.Snap.{Snap};

    ghost Value = { List Snap };

    ghost view = { λ note. note.first ∷ note.handle };

    ghost invariant = { λ note. Shows note.shown note.handle };
}

impl Publisher {
    /// A publisher whose list is the first snap alone, and a reader that knows it. The rate is that of
    /// the clock between its snaps.
    pub fn new(alloc: Global, rate: Rate, first: Snap) -> Result<(Publisher, Reader), AllocError>
        ensures publisher { IfOk result (λ pair. pair.0 ≡ first ∷ []) }
        ensures reader { IfOk result (λ pair. pair.1 ≡ record { rate = rate; snaps = first ∷ []; answer = 0 }) }
    {
        let desk = Desk::new(alloc, PLACES)?;
        let reader = Reader::over(rate, first, desk.shown(), desk.handle());
        let desk = Some(desk);
        Ok((Publisher { first, desk }, reader))
    }

    /// Publishes a snap behind the others, and tells of it by a note. It waits for readers that are
    /// still inside the older copy. It fails where memory runs out or, while some 60 notes are neither
    /// learnt nor let go, of a place for one more; the list is then as it was.
    pub fn publish<R: Wait>(&mut self, rt: &R, snap: Snap) -> Result<Note, AllocError>
        requires { last_place 0 self.old ≤ snap.place }
        ensures { MatchResult result
            (λ note. (self.new ≡ self.old ++ snap ∷ []) × (note ≡ self.new))
            (λ _. self.new ≡ self.old) }
    {
        let Some(desk) = self.desk.take() else {
            unreachable!()
        };
        let (desk, done) = desk.publish(rt, snap);
        let shown = desk.shown();
        match self.desk.replace(desk) {
            None => (),
            Some(_other) => unreachable!(),
        }
        Ok(Note {
            first: self.first,
            shown,
            handle: done?,
        })
    }

    /// One more reader, which knows all that is published and has not answered yet. It fails where no
    /// place is left.
    pub fn reader(&mut self, rate: Rate) -> Result<Reader, AllocError>
        ensures same { self.new ≡ self.old }
        ensures reader { IfOk result (λ reader. reader ≡ record { rate = rate; snaps = self.old; answer = 0 }) }
    {
        let (handle, shown) = match &mut self.desk {
            Some(desk) => (desk.informed_handle(), desk.shown()),
            None => unreachable!(),
        };
        let handle = handle.ok_or(AllocError)?;
        Ok(Reader::over(rate, self.first, shown, Some(handle)))
    }

    /// The place of the snap that was published last: that of the next must not be below it.
    pub fn last(&self) -> u64
        ensures { result ≡ last_place 0 self.now }
    {
        let shown = match &self.desk {
            Some(desk) => desk.shown(),
            None => unreachable!(),
        };
        shown.last_or(self.first).place
    }

    /// Ends the publisher and lets its two copies go. It waits for readers that are still inside.
    /// Readers answer from the last snap that they know from then on.
    pub fn end<R: Wait>(self, rt: &R) {
        let Publisher { first: _, desk } = self;
        match desk {
            Some(desk) => desk.end(rt),
            None => (),
        }
    }
}
