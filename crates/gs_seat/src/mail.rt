ghost use Rattle.std.specs.Prelude.{◌≡◌};
ghost use Rattle.gs_calendar.specs.Due.{key_cmp};

use crate::sent::SentBeacon;
use std::cmp::Ordering;
use std::marker::Model;

/// A beacon on its way to a node. Contracts see a letter.
#[derive(Clone, Copy, Debug)]
pub(crate) struct Mail {
    due: u32,
    /// The place of the sender among the node's neighbours.
    place: u32,
    sent: SentBeacon,
}

impl Model for Mail {
    ghost use Rattle.gs_seat.specs.Letters.{Letter};

    ghost Value = { Letter };

    ghost view = { λ a. record { due = a.due; place = a.place; sent = a.sent } };

    ghost inverse = { λ b. record { due = b.due; place = b.place; sent = b.sent } };
}

impl Mail {
    ghost use Rattle.gs_seat.specs.Letters.{key_of};

    /// What was sent, due in a quantum, from the neighbour at a place.
    pub(crate) fn new(due: u32, place: u32, sent: SentBeacon) -> Self
        ensures { result ≡ record { due = due; place = place; sent = sent } }
    {
        Mail { due, place, sent }
    }

    /// The quantum that it is due in.
    pub(crate) fn due(&self) -> u32
        ensures { result ≡ self.now.due }
    {
        self.due
    }

    /// The place of the sender among the node's neighbours.
    pub(crate) fn place(&self) -> u32
        ensures { result ≡ self.now.place }
    {
        self.place
    }

    /// What was sent.
    pub(crate) fn sent(&self) -> &SentBeacon
        ensures { result.now ≡ self.now.sent }
    {
        &self.sent
    }

    /// How the keys of two beacons stand: by when they are due, then by sender, then by sequence.
    pub(crate) fn cmp_key(&self, other: &Mail) -> Ordering
        ensures { result ≡ key_cmp (key_of self.now) (key_of other.now) }
    {
        match self.due.cmp(&other.due) {
            Ordering::Equal => {
                let a = self.sent.beacon();
                let b = other.sent.beacon();
                a.sender.cmp(&b.sender).then(a.seq.cmp(&b.seq))
            }
            order => order,
        }
    }
}
