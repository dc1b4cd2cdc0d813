ghost use Rattle.std.specs.Prelude.{◌≡◌, ◌+◌, ◌<◌, ◌≤◌, ℕ};
ghost use Rattle.gs_run.specs.Nets.{net_of};
ghost use Rattle.gs_plan.specs.Plans.{text_of};
ghost use Rattle.gs_seat.specs.Held.{IsWindow};
ghost use Rattle.gs_play.specs.inside.Windows.{least_delay, longest_window};

use gs_plan::Plan;

/// The quanta of a window: as many as the least delay of the plan and its spans, but at least 1 and at most
/// 64. Nothing that is sent in a window is due in it.
pub(crate) fn longest_window(plan: &Plan) -> u32
    ensures value { result ≡ longest_window (text_of plan.now) }
    ensures some { 1 ≤ result }
    ensures window { (m n : ℕ) → n ≤ result → IsWindow (net_of plan.now) m (m + n) }
{
    least_delay(plan).max(1).min(64)
}

/// The least delay of the plan and its spans, in quanta.
fn least_delay(plan: &Plan) -> u32
    ensures { result ≡ least_delay (text_of plan.now).delay_min (text_of plan.now).spans }
{
    let text = plan.text();
    let mut least = text.delay_min;
    for span in text.spans.as_slice() {
        least = least.min(span.delay_min);
    }
    least
}
