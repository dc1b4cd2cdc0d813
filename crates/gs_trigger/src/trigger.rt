ghost use Rattle.std.specs.Prelude.{◌≡◌, ℕ, pos, neg_ℤ, ◌≤ℤ◌, ◌-ℤ◌, ◌+◌, ◌*◌, ◌<◌, ◌≤◌, ◌^◌, ◌↔◌, IsTrue};
ghost use Rattle.gs_units.specs.Offsets.{IsOffset};
ghost use Rattle.gs_units.specs.Params.{HasMargin};

use gs_units::Link;

/// A trigger, by the side on which it looks for a neighbour that is far away.
#[derive(Clone, Copy)]
pub(crate) enum Trigger {
    /// Some neighbour is far enough ahead, and none is too far behind.
    Fast,
    /// Some neighbour is far enough behind, and none is too far ahead.
    Slow,
}

impl Trigger {
    ghost use Rattle.gs_trigger.specs.inside.Sides.{distance_of, lead_of, Allows, Reaches};

    /// The least level that the neighbour on this link allows.
    pub(crate) fn allowed_from(self, link: &Link, offset: i128) -> u64
        requires link { HasMargin link.now }
        requires offset { IsOffset offset }
        ensures first { 1 ≤ result }
        ensures allows { (s : ℕ) → result ≤ s → Allows self s (link.now, offset) }
        ensures least { (s : ℕ) → 1 ≤ s → Allows self s (link.now, offset) → result ≤ s }
    {
        self.level(link.kappa, lag(self.lead(offset), link.delta))
    }

    /// Whether the neighbour on this link is far enough away for level `s`.
    pub(crate) fn is_reached(self, link: &Link, offset: i128, s: u64) -> bool
        requires link { HasMargin link.now }
        requires offset { IsOffset offset }
        requires first { 1 ≤ s }
        ensures { IsTrue result ↔ Reaches self s (link.now, offset) }
    {
        reaches(self.lead(offset), link.delta, self.distance(link.kappa, s))
    }

    /// How far the neighbour is on the trigger's side.
    fn lead(self, offset: i128) -> i128
        requires { IsOffset offset }
        ensures value { result ≡ lead_of self offset }
        ensures offset { IsOffset result }
    {
        match self {
            Trigger::Fast => offset,
            Trigger::Slow => -offset,
        }
    }

    /// The distance that level `s` asks for on a link of this `kappa`.
    fn distance(self, kappa: u64, s: u64) -> u128
        requires kappa { kappa < 2 ^ 62 }
        requires first { 1 ≤ s }
        ensures value { result ≡ distance_of self kappa s }
        ensures fits { result < 2 ^ 127 }
    {
        let steps = match self {
            Trigger::Fast => 2 * u128::from(s) - 1,
            Trigger::Slow => 2 * u128::from(s),
        };
        steps * u128::from(kappa)
    }

    /// The least level whose distance is at least the lag.
    fn level(self, kappa: u64, lag: u128) -> u64
        requires kappa { 0 < kappa }
        requires lag { lag ≤ 2 ^ 64 }
        ensures first { 1 ≤ result }
        ensures covers { (s : ℕ) → result ≤ s → lag ≤ distance_of self kappa s }
        ensures least { (s : ℕ) → 1 ≤ s → lag ≤ distance_of self kappa s → result ≤ s }
    {
        let kappa = u128::from(kappa);
        let whole = match self {
            Trigger::Fast => lag + kappa,
            Trigger::Slow => lag,
        };
        whole.div_ceil(2 * kappa).max(1) as u64
    }
}

/// How far the offset is below `-delta`.
fn lag(offset: i128, delta: u64) -> u128
    requires { IsOffset offset }
    ensures allows { (n : ℕ) → result ≤ n → neg_ℤ (pos (n + delta)) ≤ℤ offset }
    ensures least { (n : ℕ) → neg_ℤ (pos (n + delta)) ≤ℤ offset → result ≤ n }
    ensures at_most { result ≤ 2 ^ 64 }
{
    let shifted = offset + i128::from(delta);
    if shifted < 0 { (-shifted) as u128 } else { 0 }
}

/// Whether the offset is at least `distance - delta`.
fn reaches(offset: i128, delta: u64, distance: u128) -> bool
    requires offset { IsOffset offset }
    requires fits { distance < 2 ^ 127 }
    ensures { IsTrue result ↔ ((pos distance -ℤ pos delta) ≤ℤ offset) }
{
    distance as i128 <= offset + i128::from(delta)
}
