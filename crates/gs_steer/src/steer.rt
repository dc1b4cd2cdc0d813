ghost use Rattle.std.specs.Prelude.{◌≡◌, ℕ, ◌-◌, ◌<◌, ◌≤◌, length, All};
ghost use Rattle.std.specs.List.{zip};
ghost use Rattle.gs_units.specs.declared.rate.Mode.TheVariants.{Slow, Fast};
ghost use Rattle.gs_units.specs.Offsets.{IsOffset};
ghost use Rattle.gs_units.specs.Params.{HasMargin};
ghost use Rattle.gs_trigger.specs.Triggers.{FastAt, SlowAt};
ghost use Rattle.gs_steer.specs.Modes.{following_mode, mode_of};

use gs_trigger::{fast, slow};
use gs_units::{Link, Mode};

/// The mode of a node whose clock is `l`, whose maximum is `m` and whose neighbours are at these
/// offsets, one for each link, all in clock units (rule 6 of `docs/MODEL.md`). Neither trigger holds
/// where no neighbour is far away: then the node runs after the maximum once it is `iota` behind.
pub fn decide(links: &[Link], iota: u64, offsets: &[i128], m: u64, l: u64) -> Mode
    requires count { length offsets.now ≡ length links.now }
    requires links { All HasMargin links.now }
    requires offsets { All IsOffset offsets.now }
    requires ahead { l ≤ m }
    ensures exact { result ≡ mode_of iota (zip links.now offsets.now) m l }
    ensures fast { (s : ℕ) → 1 ≤ s → FastAt (zip links.now offsets.now) s → result ≡ Fast }
    ensures slow { (s : ℕ) → 1 ≤ s → SlowAt (zip links.now offsets.now) s → result ≡ Slow }
    ensures far { ((s : ℕ) → 1 ≤ s → ¬ SlowAt (zip links.now offsets.now) s) → iota ≤ m - l → result ≡ Fast }
    ensures near { ((s : ℕ) → 1 ≤ s → ¬ FastAt (zip links.now offsets.now) s) → m - l < iota → result ≡ Slow }
{
    if fast(links, offsets).is_some() {
        Mode::Fast
    } else if slow(links, offsets).is_some() {
        Mode::Slow
    } else {
        follow_maximum(iota, m, l)
    }
}

/// The mode of such a node where neither trigger holds: it runs after the maximum once it is `iota`
/// behind.
pub fn follow_maximum(iota: u64, m: u64, l: u64) -> Mode
    requires ahead { l ≤ m }
    ensures { result ≡ following_mode iota m l }
{
    if m - l >= iota {
        Mode::Fast
    } else {
        Mode::Slow
    }
}
