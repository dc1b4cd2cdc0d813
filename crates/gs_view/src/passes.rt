ghost use Rattle.std.specs.Prelude.{◌≡◌, ◌≤◌, ◌∷◌, length};
ghost use Rattle.gs_view.specs.Lists.{StartsWith, or_none};
ghost use Rattle.gs_view.specs.Answers.{answer_at, value_of};
ghost use Rattle.gs_view.specs.Telling.{Shows};

use crate::handles::Handle;
use crate::shown::Shown;
use crate::{Note, Snap};
use gs_units::{END, Rate};
use std::marker::Model;

/// Asks the clock that is published. Contracts see its pass: the rate, the snaps that it knows and its
/// last answer. Asking takes no lock and no memory, and does not wait.
#[derive(Drop)]
pub struct Reader {
    rate: Rate,
    first: Snap,
    // How many snaps it knows after the first, and the last of them.
    shown: Shown,
    own: Option<Handle>,
    // A note that has fewer snaps than were known when it was learnt, after the publisher's end.
    late: Option<Handle>,
    answer: u64,
}

impl Model for Reader {
    ghost use Rattle.std.specs.Prelude.{◌∷◌};
    ghost use Rattle.gs_view.specs.Lists.{or_none, joined};
    ghost use Rattle.gs_view.specs.Telling.{Shows, IsBelow};
    ghost use Rattle.gs_view.specs.Passes.{Pass};

    ghost Value = { Pass };

    ghost view = { λ reader. record {
      rate = reader.rate;
      snaps = reader.first ∷ joined (or_none reader.late) (or_none reader.own);
      answer = reader.answer;
    } };

    ghost invariant = { λ reader. Shows reader.shown (or_none reader.own) × IsBelow reader.late (or_none reader.own) };
}

impl Reader {
    /// A reader that knows what its handle does, or the first snap alone where it has none; then it will
    /// know no other until it learns a note.
    pub(crate) fn over(rate: Rate, first: Snap, shown: Shown, handle: Option<Handle>) -> Reader
        requires { Shows shown (or_none handle) }
        ensures { result ≡ record { rate = rate; snaps = first ∷ or_none handle; answer = 0 } }
    {
        Reader {
            rate,
            first,
            shown,
            own: handle,
            late: None,
            answer: 0,
        }
    }

    /// Learns a note: from now on all snaps of the note are known, and no fewer than before. The note
    /// should be of the publisher that was made with this reader. No memory, no lock, no waiting.
    pub fn learn(&mut self, note: Note)
        ensures note { StartsWith self.new.snaps note }
        ensures no_fewer { length self.old.snaps ≤ length self.new.snaps }
        ensures same { (self.new.rate ≡ self.old.rate) × (self.new.answer ≡ self.old.answer) }
    {
        let Note {
            first,
            shown,
            handle,
        } = note;
        let (handle, shown) = renewed(handle, shown);
        self.first = first;
        if shown.count >= self.shown.count {
            self.shown = shown;
            self.own = Some(handle);
            self.late = None;
        } else {
            // The publisher has ended, and more than the note is known.
            self.late = Some(handle);
        }
    }

    /// Looks what is published now. Where the publisher has ended, what is known stays.
    pub fn look(&mut self)
        ensures snaps { StartsWith self.new.snaps self.old.snaps }
        ensures same { (self.new.rate ≡ self.old.rate) × (self.new.answer ≡ self.old.answer) }
    {
        if self.late.is_some() {
            return;
        }
        let Some(handle) = self.own.take() else {
            return;
        };
        match handle.look() {
            Ok((handle, shown)) => {
                self.shown = shown;
                self.own = Some(handle);
            }
            Err(handle) => self.own = Some(handle),
        }
    }

    /// The clock at a reading, by the last of the snaps that are then known, or the last answer where
    /// that is greater. No memory, no lock, no waiting.
    pub fn now(&mut self, hw: u64) -> u64
        ensures snaps { StartsWith self.new.snaps self.old.snaps }
        ensures answer { result ≡ answer_at self.old.rate self.new.snaps self.old.answer hw }
        ensures never_falls { self.old.answer ≤ result }
        ensures kept { (self.new.rate ≡ self.old.rate) × (self.new.answer ≡ result) }
    {
        self.look();
        let snap = self.shown.last_or(self.first);
        self.answer = self.answer.max(value(&self.rate, &snap, hw));
        self.answer
    }
}

/// What a note knows once it has looked: all that is published, or the same where the publisher has ended.
fn renewed(handle: Handle, shown: Shown) -> (Handle, Shown)
    requires { Shows shown handle }
    ensures { StartsWith result.0 handle × Shows result.1 result.0 }
{
    match handle.look() {
        Ok(seen) => seen,
        Err(handle) => (handle, shown),
    }
}

/// The clock of a snap at a reading.
fn value(rate: &Rate, snap: &Snap, hw: u64) -> u64
    ensures { result ≡ value_of rate.now snap.now hw }
{
    let elapsed = hw.saturating_sub(snap.at).min(END - 1);
    snap.l
        .saturating_add(rate.steer(snap.mode, elapsed))
        .min(END - 1)
}
