ghost use Rattle.std.specs.Prelude.{◌≡◌, ◌+◌, ◌*◌, ◌^◌, ◌<◌, ◌≤◌, ℕ, suc, length, IfOk, OnOk};
ghost use Rattle.gs_run.specs.Fast.{fast_in};
ghost use Rattle.gs_run.specs.Net.{Net};
ghost use Rattle.gs_run.specs.World.{clocks_in};
ghost use Rattle.gs_calendar.specs.Course.{Course};
ghost use Rattle.gs_seat.specs.Worlds.{world_of};
ghost use Rattle.gs_play.specs.inside.Pieces.{HaveRows};

use gs_piece::Piece;
use std::alloc::AllocError;

/// Puts the clocks of all nodes at the end of quantum `j + 1` of the window into a row, and counts the
/// nodes that took that quantum in the fast mode.
pub(crate) fn gather(pieces: &[Piece], j: u32, row: &mut Vec<u64>) -> Result<u64, AllocError>
    requires few { length pieces.now ≤ 64 }
    requires rows { (net : Net) × (c : Course) × (size : ℕ) × (m : ℕ) × (n : ℕ) × (j < n) × HaveRows net c size m n pieces.now }
    ensures few { IfOk result (λ fast. fast ≤ 2 ^ 32 * length pieces.now) }
    ensures clocks { (net : Net) (c : Course) (size m n : ℕ) → j < n → HaveRows net c size m n pieces.now
        → OnOk result (row.new.items ≡ clocks_in net (world_of net c (suc (m + j)))) }
    ensures fast { (net : Net) (c : Course) (size m n : ℕ) → j < n → HaveRows net c size m n pieces.now
        → IfOk result (λ fast. fast ≡ fast_in (world_of net c (m + j))) }
{
    row.clear();
    let mut fast = 0;
    for i in 0..pieces.len() {
        row.extend_from_slice(pieces[i].row(j))?;
        fast += u64::from(pieces[i].fasts(j));
    }
    Ok(fast)
}
