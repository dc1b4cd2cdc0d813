ghost use Rattle.std.specs.Prelude.{◌≡◌, ◌<◌, ◌≤◌, nat_lt};

use gs_units::{END, Rate};

/// What a node has heard of the greatest clock.
#[derive(Clone, Copy, Debug, PartialEq, Eq)]
pub struct Max {
    /// What the greatest clock had reached when it was heard, in clock units.
    pub base: u64,
    /// The node's own hardware reading then.
    pub at: u64,
}

impl Max {
    ghost use Rattle.gs_maximum.specs.Maximum.{heard_of, maximum_of, raised_to};

    /// What the node can claim at the reading `now`, where its own clock is `l`, in clock units: its
    /// own clock, or what it has heard and any clock has crept since. See `docs/MODEL.md`, rule 2.
    pub fn value(&self, rate: &Rate, now: u64, l: u64) -> u64
        requires before { (self.now.at ≤ now) × (now < END) }
        requires base { self.now.base < END }
        ensures value { result ≡ maximum_of rate.now self.now now l }
        ensures above { l ≤ result }
    {
        l.max(self.heard(rate, now))
    }

    /// Takes the maximum `value` of a beacon, already raised for its way, at the reading `now`. It
    /// becomes the base only where it is greater than what was heard before and has crept since.
    /// See `docs/MODEL.md`, rule 8.
    pub fn hear(&mut self, rate: &Rate, value: u64, now: u64)
        requires before { (self.old.at ≤ now) × (now < END) }
        requires base { self.old.base < END }
        ensures { self.new ≡ raised_to rate.now self.old value now }
    {
        if self.is_passed(rate, value, now) {
            *self = Max {
                base: value,
                at: now,
            };
        }
    }

    /// Whether a value is greater than what was heard and has crept since. The creep is at most the
    /// growth of the reading, so only a value between the two needs its division.
    #[tactic(auto, using(crate::proofs::Creeping::creep_at_most))]
    fn is_passed(&self, rate: &Rate, value: u64, now: u64) -> bool
        requires before { (self.now.at ≤ now) × (now < END) }
        requires base { self.now.base < END }
        ensures { result ≡ nat_lt (heard_of rate.now self.now now) value }
    {
        if value <= self.base {
            return false;
        }
        value > self.base + (now - self.at) || value > self.heard(rate, now)
    }

    /// What was heard of the greatest clock, crept on to the reading `now`.
    fn heard(&self, rate: &Rate, now: u64) -> u64
        requires before { (self.now.at ≤ now) × (now < END) }
        requires base { self.now.base < END }
        ensures { result ≡ heard_of rate.now self.now now }
    {
        self.base + rate.creep(now - self.at)
    }
}
