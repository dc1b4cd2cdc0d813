ghost use Rattle.std.specs.Prelude.{◌≡◌, ◌<◌, IsTrue};
ghost use Rattle.gs_board.specs.Slips.{SameSeat};

use gs_board::{Board, ReserveStop, Seat, Shared};
use gs_clock::Clock;
use std::sync::Wait;

/// For how many entries or events room is made at once.
const ROOM: u64 = 1_024;

/// Makes room in a seat that has none. Tells whether it has room.
pub(crate) fn has_room<C: Clock>(seat: &mut Seat<C>) -> bool
    ensures room { IsTrue result → 0 < seat.new.room }
    ensures told { seat.new.told ≡ seat.old.told }
    ensures same { SameSeat seat.old seat.new }
{
    if seat.room() == 0 && seat.reserve(ROOM).is_err() {
        return false;
    }
    true
}

/// Makes room in the journal of a board that has none.
pub(crate) fn make_spare<C: Clock>(board: &mut Board<C>) -> Result<(), ReserveStop> {
    if board.spare() == 0 {
        return board.reserve(ROOM);
    }
    Ok(())
}

/// Whether events still come to the board.
pub(crate) fn is_open<R: Wait, C: Clock>(rt: &R, board: &Shared<C>) -> bool {
    !board.lock(rt).closed()
}
