ghost use Rattle.std.specs.Prelude.{◌≡◌, ◌+◌, ◌^◌, ◌<◌, ◌≤◌, [], ◌∷◌, length, IfSome, IfNone};
ghost use Rattle.gs_core.specs.declared.event.Event.TheVariants as event;
ghost use Rattle.gs_calendar.specs.inside.Keys.{key_of};
ghost use Rattle.gs_calendar.specs.inside.Feeds.{NoneIsDue, Takes, ticks_left};

use crate::transit::{InTransit, Transit};
use crate::turn::NodeTurn;

/// Takes the beacon that is due first by quantum `t`, from this receiver on, and names its receiver.
pub(crate) fn take_due(waiting: &mut [Transit], to: u32, t: u32) -> Option<(u32, InTransit)>
    requires { (to ≤ length waiting.old) × (length waiting.old < 2 ^ 32) }
    ensures some { IfSome result (λ p. Takes t to waiting.old p.0 (key_of p.1) waiting.new) }
    ensures none { IfNone result ((waiting.new ≡ waiting.old) × NoneIsDue t to waiting.old) }
{
    for v in to as usize..waiting.len() {
        if let Some(key) = waiting[v].pop_due(t) {
            return Some((v as u32, key));
        }
    }
    None
}

/// The first node that ticks in quantum `t`, from this one on.
#[tactic(auto, using(crate::proofs::Ticking::ticking))]
pub(crate) fn next_tick(turns: &[NodeTurn], at: u32, t: u32) -> Option<u32>
    requires { (at ≤ length turns.now) × (length turns.now < 2 ^ 32) }
    ensures node { IfSome result (λ v. v < length turns.now) }
    ensures some { IfSome result (λ v. ticks_left t turns.now at ≡ event.Tick v ∷ ticks_left t turns.now (v + 1)) }
    ensures none { IfNone result (ticks_left t turns.now at ≡ []) }
{
    for v in at as usize..turns.len() {
        if turns[v].last() == t {
            return Some(v as u32);
        }
    }
    None
}
