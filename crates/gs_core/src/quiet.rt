ghost use Rattle.std.specs.Prelude.{◌≡◌, ◌<◌, ◌≤◌, All};
ghost use Rattle.gs_units.specs.Params.{HasMargin};
ghost use Rattle.gs_core.specs.inside.Quiet.{is_near, is_quiet};

use gs_estimate::Entry;
use gs_units::{END, Link};

/// Whether every neighbour is so near to the clock `l`, at the reading `now`, that neither trigger holds
/// at any level. Most ticks are so, and this takes neither a list of offsets nor numbers of 128 bits.
pub(crate) fn is_quiet(links: &[Link], entries: &[Entry], now: u64, l: u64) -> bool
    requires links { All HasMargin links.now }
    requires heard { All (λ e. e.at ≤ now) entries.now }
    requires values { All (λ e. e.value < END) entries.now }
    requires now { now < END }
    requires clock { l < END }
    ensures { result ≡ is_quiet l now links.now entries.now }
{
    for (link, entry) in links.iter().zip(entries) {
        if !is_near(link, entry, now, l) {
            return false;
        }
    }
    true
}

/// Whether a neighbour is too near for the first level of either trigger.
fn is_near(link: &Link, entry: &Entry, now: u64, l: u64) -> bool
    requires link { HasMargin link.now }
    requires heard { entry.now.at ≤ now }
    requires value { entry.now.value < END }
    requires now { now < END }
    requires clock { l < END }
    ensures { result ≡ is_near l now (link.now, entry.now) }
{
    let estimate = entry.value + (now - entry.at);
    estimate + link.delta < l + link.kappa && l + link.delta < estimate + 2 * link.kappa
}
