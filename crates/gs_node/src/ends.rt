ghost use Rattle.std.specs.Prelude.{MatchOption, All};
ghost use Rattle.gs_board.specs.Boards.{ledger_in};
ghost use Rattle.gs_board.specs.Torn.{IsWhole};
ghost use Rattle.gs_node.specs.Ends.{IsFirstTorn};

use gs_board::{Board, Halt, Seat, Torn};
use gs_clock::Clock;

/// How a run of a node ended: the first of these that holds.
#[derive(Clone, Copy, Debug, PartialEq, Eq)]
pub enum End {
    /// What the first seat gives that differs from the board.
    Torn(Torn),
    /// A thread could not be started.
    NoThread,
    /// The halt of the board's clock, or the view clock failed.
    ClockFault(Halt),
    /// A reading, the clock or the maximum of the node reached the end of all clocks.
    ClockEnd,
    /// The journal was full.
    JournalEnd,
    /// An inlet, the outlet or the door failed.
    LinkFault,
    /// Memory was refused, or a caller met a refusal that the values handed back do not show.
    OutOfMemory,
    /// The timer took all its turns.
    Done,
}

/// What the first seat gives that differs from the board.
pub(crate) fn first_torn<C: Clock>(board: &Board<C>, seats: &[Seat<C>]) -> Option<Torn>
    ensures { MatchOption result
        (All (IsWhole (ledger_in board.now)) seats.now) (IsFirstTorn (ledger_in board.now) seats.now) }
{
    for seat in seats {
        if let Some(torn) = board.compare(seat) {
            return Some(torn);
        }
    }
    None
}
