ghost use Rattle.std.specs.Prelude.{◌≡◌, ℕ, ◌<◌, ◌≤◌, ◌↔◌, length, All, Any, IsTrue, IfSome, IfNone};
ghost use Rattle.std.specs.List.{zip};
ghost use Rattle.gs_units.specs.Offsets.{IsOffset};
ghost use Rattle.gs_units.specs.Params.{HasMargin};
ghost use Rattle.gs_trigger.specs.Triggers.{FastAt, SlowAt, fast_level, slow_level};
ghost use Rattle.gs_trigger.specs.inside.Sides.{Reaches, TriggerAt, trigger_level, IsLowestAllowed};

use crate::trigger::Trigger;
use gs_units::Link;

/// The least level at which the fast trigger holds, None where it holds at none (rule 4 of
/// `docs/MODEL.md`). Offsets are in clock units, one for each link. No level is tried in turn: each
/// link's least level comes from one division, and the greatest of these is the only candidate.
pub fn fast(links: &[Link], offsets: &[i128]) -> Option<u64>
    requires count { length offsets.now ≡ length links.now }
    requires links { All HasMargin links.now }
    requires offsets { All IsOffset offsets.now }
    ensures exact { result ≡ fast_level (zip links.now offsets.now) }
    ensures some { IfSome result (λ s. (1 ≤ s) × FastAt (zip links.now offsets.now) s) }
    ensures least { IfSome result (λ s. (t : ℕ) → 1 ≤ t → FastAt (zip links.now offsets.now) t → s ≤ t) }
    ensures none { IfNone result ((s : ℕ) → 1 ≤ s → ¬ FastAt (zip links.now offsets.now) s) }
{
    least_level(Trigger::Fast, links, offsets)
}

/// The least level at which the slow trigger holds, None where it holds at none (rule 5 of
/// `docs/MODEL.md`). As `fast`, with ahead and behind exchanged.
pub fn slow(links: &[Link], offsets: &[i128]) -> Option<u64>
    requires count { length offsets.now ≡ length links.now }
    requires links { All HasMargin links.now }
    requires offsets { All IsOffset offsets.now }
    ensures exact { result ≡ slow_level (zip links.now offsets.now) }
    ensures some { IfSome result (λ s. (1 ≤ s) × SlowAt (zip links.now offsets.now) s) }
    ensures least { IfSome result (λ s. (t : ℕ) → 1 ≤ t → SlowAt (zip links.now offsets.now) t → s ≤ t) }
    ensures none { IfNone result ((s : ℕ) → 1 ≤ s → ¬ SlowAt (zip links.now offsets.now) s) }
{
    least_level(Trigger::Slow, links, offsets)
}

/// The least level at which the trigger holds. There is none where no neighbour is far enough away for
/// the first, since a higher level asks for more.
fn least_level(trigger: Trigger, links: &[Link], offsets: &[i128]) -> Option<u64>
    requires links { All HasMargin links.now }
    requires offsets { All IsOffset offsets.now }
    ensures exact { result ≡ trigger_level trigger (zip links.now offsets.now) }
    ensures some { IfSome result (λ s. (1 ≤ s) × TriggerAt trigger (zip links.now offsets.now) s) }
    ensures least { IfSome result (λ s. (t : ℕ) → 1 ≤ t → TriggerAt trigger (zip links.now offsets.now) t → s ≤ t) }
    ensures none { IfNone result ((s : ℕ) → 1 ≤ s → ¬ TriggerAt trigger (zip links.now offsets.now) s) }
{
    if !some_reach(trigger, links, offsets, 1) {
        return None;
    }
    let s = lowest_allowed(trigger, links, offsets);
    if some_reach(trigger, links, offsets, s) {
        Some(s)
    } else {
        None
    }
}

/// The least level that every neighbour allows.
fn lowest_allowed(trigger: Trigger, links: &[Link], offsets: &[i128]) -> u64
    requires links { All HasMargin links.now }
    requires offsets { All IsOffset offsets.now }
    ensures { IsLowestAllowed trigger (zip links.now offsets.now) result }
{
    let mut lowest = 1;
    for (link, offset) in links.iter().zip(offsets) {
        lowest = trigger.allowed_from(link, *offset).max(lowest);
    }
    lowest
}

/// Whether some neighbour is far enough away for level `s`.
fn some_reach(trigger: Trigger, links: &[Link], offsets: &[i128], s: u64) -> bool
    requires links { All HasMargin links.now }
    requires offsets { All IsOffset offsets.now }
    requires first { 1 ≤ s }
    ensures { IsTrue result ↔ Any (Reaches trigger s) (zip links.now offsets.now) }
{
    for (link, offset) in links.iter().zip(offsets) {
        if trigger.is_reached(link, *offset, s) {
            return true;
        }
    }
    false
}
