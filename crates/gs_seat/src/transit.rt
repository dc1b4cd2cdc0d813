ghost use Rattle.std.specs.Prelude.{◌≡◌, [], true, false, length, IfSome, IfNone, OnOk, OnErr};
ghost use Rattle.gs_calendar.specs.Transits.{AreInOrder, Has};
ghost use Rattle.gs_seat.specs.Letters.{IsFirstDue, IsGap, IsNoneDue, TakesFirst, first_due, key_of, keys, put_letter};

use crate::mail::Mail;
use std::alloc::{AllocError, Global};
use std::collections::VecDeque;
use std::marker::Model;

/// The beacons in transit to one node, in the order of their keys. Contracts see the list of letters.
#[derive(Drop)]
pub(crate) struct Transit {
    mails: VecDeque<Mail>,
}

impl Model for Transit {
    ghost use Rattle.std.specs.Prelude.{List};
    ghost use Rattle.gs_seat.specs.Letters.{Letter};

    ghost Value = { List Letter };

    ghost view = { λ a. a.mails.items };
}

impl Transit {
    /// None.
    pub(crate) fn new(alloc: Global) -> Transit
        ensures { result ≡ [] }
    {
        Transit {
            mails: VecDeque::new(alloc),
        }
    }

    /// How many there are.
    pub(crate) fn len(&self) -> usize
        ensures { result ≡ length self.now }
    {
        self.mails.len()
    }

    /// The place of one that is not there. Most belong near the end.
    #[inline(never)]
    #[tactic(auto, using(crate::proofs::Put::gap_found))]
    fn gap(&self, mail: &Mail) -> usize
        requires order { AreInOrder (keys self.now) }
        requires new { Has (key_of mail.now) (keys self.now) → ⊥ }
        ensures { IsGap mail.now self.now result }
    {
        let mut at = self.mails.len();
        while at > 0 && mail.cmp_key(&self.mails[at - 1]).is_lt() {
            at -= 1;
        }
        at
    }

    /// One that is not there is sent.
    #[tactic(auto, using(crate::proofs::Put::insert_is))]
    pub(crate) fn put(&mut self, mail: Mail) -> Result<(), AllocError>
        requires order { AreInOrder (keys self.old) }
        requires new { Has (key_of mail) (keys self.old) → ⊥ }
        ensures ok { OnOk result (self.new ≡ put_letter mail self.old) }
        ensures err { OnErr result (self.new ≡ self.old) }
    {
        let at = self.gap(&mail);
        self.mails.insert(at, mail)?;
        Ok(())
    }

    /// The quantum that the first is due in, and no later than `most`.
    pub(crate) fn first_due(&self, most: u32) -> u32
        ensures { result ≡ first_due most self.now }
    {
        match self.mails.front() {
            Some(mail) => most.min(mail.due()),
            None => most,
        }
    }

    /// Whether the first is due by quantum `t`.
    #[tactic(auto, using(crate::proofs::First::first_yes, crate::proofs::First::first_no))]
    fn is_due(&self, t: u32) -> bool
        ensures yes { result ≡ true → IsFirstDue t self.now }
        ensures no { result ≡ false → IsNoneDue t self.now }
    {
        match self.mails.front() {
            Some(mail) => mail.due() <= t,
            None => false,
        }
    }

    /// Takes the first beacon, if it is due by quantum `t`.
    #[tactic(auto, using(crate::proofs::First::takes))]
    pub(crate) fn pop_due(&mut self, t: u32) -> Option<Mail>
        ensures some { IfSome result (λ b. TakesFirst t self.old b self.new) }
        ensures none { IfNone result ((self.new ≡ self.old) × IsNoneDue t self.old) }
    {
        if self.is_due(t) {
            self.mails.pop_front()
        } else {
            None
        }
    }
}
