ghost use Rattle.std.specs.Prelude.{◌≡◌, ◌+◌, ◌<◌, ◌≤◌, ◌^◌, ℕ, suc, length, IfErr, IfOk, IfSome, IfNone, Some, None};
ghost use Rattle.gs_run.specs.Nets.{net_of};
ghost use Rattle.gs_calendar.specs.Course.{Course};
ghost use Rattle.gs_calendar.specs.Stale.{breach_at, breach_upto};
ghost use Rattle.gs_calendar.specs.Stops.{StopsAt};
ghost use Rattle.gs_calendar.specs.declared.stop.PlayStop.TheVariants.{Stale};
ghost use Rattle.gs_run.specs.Net.{neighbour, neighbours};
ghost use Rattle.gs_seat.specs.inside.Freshness.{AreFresh};
ghost use Rattle.gs_play.specs.inside.Pieces.{ArePieces};

use gs_calendar::PlayStop;
use gs_piece::Piece;
use gs_plan::Plan;

/// The breach of quantum `t + 1`, if it is one: the least receiver and then the least sender.
pub(crate) fn breach(pieces: &[Piece], plan: &Plan, t: u32) -> Option<PlayStop>
    requires end { t + 1 < 2 ^ 32 }
    requires pieces { (c : Course) × (by : ℕ → ℕ → ℕ) × (size : ℕ) × (m : ℕ) × ArePieces (net_of plan.now) c by size m t pieces.now }
    ensures some { (c : Course) (by : ℕ → ℕ → ℕ) (size m : ℕ) → ArePieces (net_of plan.now) c by size m t pieces.now
        → IfSome result (StopsAt (breach_at (net_of plan.now) c (suc t))) }
    ensures none { (c : Course) (by : ℕ → ℕ → ℕ) (size m : ℕ) → ArePieces (net_of plan.now) c by size m t pieces.now
        → IfNone result (breach_at (net_of plan.now) c (suc t) ≡ None) }
    ensures fresh { (c : Course) (by : ℕ → ℕ → ℕ) (size m : ℕ) → ArePieces (net_of plan.now) c by size m t pieces.now
        → IfNone result (AreFresh (net_of plan.now) c t (suc t)) }
{
    for i in 0..pieces.len() {
        if let Some((to, place)) = pieces[i].first_stale(plan, t) {
            return Some(stop_at(plan, t, to, place));
        }
    }
    None
}

/// A quantum up to which nothing turns stale that was heard by the end of quantum `t`: `safe`, of which
/// that is known, where a window of `n` quanta fits, and else it is looked for anew. It is at least `t + 1`,
/// or that quantum is the first breach.
pub(crate) fn look_ahead(
    pieces: &[Piece],
    plan: &Plan,
    t: u32,
    n: u32,
    safe: u32,
) -> Result<u32, PlayStop>
    requires end { t + n < 2 ^ 32 }
    requires some { 1 ≤ n }
    requires pieces { (c : Course) × (by : ℕ → ℕ → ℕ) × (size : ℕ) × (m : ℕ) × ArePieces (net_of plan.now) c by size m t pieces.now }
    ensures ok { (c : Course) (by : ℕ → ℕ → ℕ) (size m : ℕ) → ArePieces (net_of plan.now) c by size m t pieces.now
        → AreFresh (net_of plan.now) c t safe → IfOk result (AreFresh (net_of plan.now) c t) }
    ensures later { IfOk result (λ s. suc t ≤ s) }
    ensures err { (c : Course) (by : ℕ → ℕ → ℕ) (size m u : ℕ) → ArePieces (net_of plan.now) c by size m t pieces.now
        → breach_upto (net_of plan.now) c t ≡ None → suc t ≤ u
        → IfErr result (StopsAt (breach_upto (net_of plan.now) c u)) }
{
    if t + n <= safe {
        return Ok(safe);
    }
    match breach(pieces, plan, t) {
        Some(stop) => Err(stop),
        None => Ok(safe_until(pieces, plan).max(t + 1)),
    }
}

/// The stop at quantum `t + 1`, for what node `to` heard last of its neighbour at a place.
fn stop_at(plan: &Plan, t: u32, to: u32, place: usize) -> PlayStop
    requires end { t + 1 < 2 ^ 32 }
    requires node { to < (net_of plan.now).nodes }
    requires place { place < length (neighbours (net_of plan.now) to) }
    ensures { result ≡ Stale (t + 1) (neighbour (net_of plan.now) to place) to }
{
    PlayStop::Stale {
        quantum: t + 1,
        from: plan.topo().neighbours(to)[place],
        to,
    }
}

/// A quantum up to which nothing turns stale that was heard by the end of quantum `t`.
pub(crate) fn safe_until(pieces: &[Piece], plan: &Plan) -> u32
    ensures { (c : Course) (by : ℕ → ℕ → ℕ) (size m t : ℕ) → ArePieces (net_of plan.now) c by size m t pieces.now
        → AreFresh (net_of plan.now) c t result }
{
    let mut oldest = u32::MAX;
    for i in 0..pieces.len() {
        oldest = oldest.min(pieces[i].oldest());
    }
    oldest.saturating_add(plan.text().age)
}
