ghost use Rattle.std.specs.Prelude.{◌≡◌, ◌+◌, ◌≤◌, length, IfErr, IfOk, None};
ghost use Rattle.gs_plan.specs.Plans.{graph_of, text_of};
ghost use Rattle.gs_level.specs.Reports.{report_of};
ghost use Rattle.gs_world.specs.RunReports.{IsWithinBounds};
ghost use Rattle.gs_play.specs.Headline.{PlayKeepsBounds};
ghost use Rattle.gs_play.specs.Scripts.{report_of_script};
ghost use Rattle.gs_run.specs.Nets.{net_of};
ghost use Rattle.gs_run.specs.RunRows.{fast_of, rows_of};
ghost use Rattle.gs_calendar.specs.Course.{course_of};
ghost use Rattle.gs_calendar.specs.Events.{events_of};
ghost use Rattle.gs_calendar.specs.Losses.{LosesFew};
ghost use Rattle.gs_calendar.specs.Scripts.{breach_of_script, start_of};
ghost use Rattle.gs_calendar.specs.Stops.{StopsAt};

use crate::player::Player;
use gs_calendar::PlayStop;
use gs_gate::Gate;
use gs_level::Report;
use gs_plan::Plan;
use gs_script::Script;
use std::alloc::Global;
use std::thread::Threads;

/// Plays a script on its plan from clocks that are all 0, by 1 to 64 workers, and reports the skews of the
/// clocks at the start and at the end of each quantum, in clock units. It stops at the first quantum that is
/// not allowed, which is one where a node has heard nothing new of a neighbour for too long; a script can
/// break no other rule. Every play that ends with a report keeps the bounds of the plan: see
/// [`scripts_keep_bounds`]. A script that loses no more beacons in a row than the plan's `losses` stops for
/// want of memory alone: see [`few_losses_never_breach`]. The report is the same for each number of workers.
///
/// Each worker has a piece of the nodes, and takes it through a window of quanta: it enters the gate before
/// that, and leaves it after.
///
/// [`scripts_keep_bounds`]: crate::scripts_keep_bounds
/// [`few_losses_never_breach`]: crate::few_losses_never_breach
pub fn play<R: Threads + Sync, G: Gate>(
    rt: &R,
    alloc: Global,
    plan: &Plan,
    script: &Script,
    workers: u32,
    gate: &G,
) -> Result<Report, PlayStop>
    requires workers { (1 ≤ workers) × (workers ≤ 64) }
    requires script { script.now.text ≡ text_of plan.now }
    ensures no_breach { IfOk result (λ report. breach_of_script plan.now script.now ≡ None) }
    ensures report { IfOk result (λ report. report ≡ report_of_script plan.now script.now) }
    ensures levels { IfOk result (λ report. length report.levels ≡ (text_of plan.now).levels + 1) }
    ensures kept { IfOk result (λ report. PlayKeepsBounds plan.now script.now) }
    ensures within { IfOk result (IsWithinBounds (text_of plan.now) (graph_of plan.now)) }
    ensures stop { IfErr result (StopsAt (breach_of_script plan.now script.now)) }
    ensures few_losses { LosesFew plan.now script.now → IfErr result (λ stop. stop ≡ PlayStop.OutOfMemory) }
{
    // From here on it is known that the script keeps the bounds of its plan.
    let _within_bounds = script.quanta();
    let report = play_windows(rt, alloc, plan, script, workers, gate)?;
    Ok(report)
}

/// Plays a script window after window, as `play` says.
fn play_windows<R: Threads + Sync, G: Gate>(
    rt: &R,
    alloc: Global,
    plan: &Plan,
    script: &Script,
    workers: u32,
    gate: &G,
) -> Result<Report, PlayStop>
    requires workers { (1 ≤ workers) × (workers ≤ 64) }
    requires script { script.now.text ≡ text_of plan.now }
    ensures no_breach { IfOk result (λ report. breach_of_script plan.now script.now ≡ None) }
    ensures report { IfOk result (λ report. report ≡ report_of (text_of plan.now) (graph_of plan.now)
        (rows_of (net_of plan.now) (start_of (net_of plan.now)) (events_of (net_of plan.now) (course_of script.now)))
        (fast_of (net_of plan.now) (start_of (net_of plan.now)) (events_of (net_of plan.now) (course_of script.now)))) }
    ensures levels { IfOk result (λ report. length report.levels ≡ (text_of plan.now).levels + 1) }
    ensures stop { IfErr result (StopsAt (breach_of_script plan.now script.now)) }
    ensures few_losses { LosesFew plan.now script.now → IfErr result (λ stop. stop ≡ PlayStop.OutOfMemory) }
{
    let quanta = script.quanta();
    let mut player = Player::start(alloc, plan, script, workers)?;
    while player.quanta() < quanta {
        player.window(rt, plan, script, gate)?;
    }
    Ok(player.report(alloc, plan)?)
}
