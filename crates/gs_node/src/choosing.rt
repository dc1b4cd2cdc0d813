ghost use Rattle.std.specs.Prelude.{◌≡◌};
ghost use Rattle.gs_node.specs.inside.Signs.{end_of};

use crate::ends::End;
use gs_board::{Halt, Torn};

/// The least journal to which a caller could be refused more room.
const FILLED: u64 = 4_193_281;

/// What the values that are handed back show, and what the callers met.
#[derive(Clone, Copy, Debug, PartialEq, Eq)]
pub struct Signs {
    /// How the first seat differs that does.
    pub torn: Option<Torn>,
    /// A start was refused.
    pub no_thread: bool,
    /// The board's halt.
    pub halt: Option<Halt>,
    /// The view clock failed.
    pub view_failed: bool,
    /// A reserve found the journal full.
    pub filled: bool,
    /// How many events the journal has.
    pub length: u64,
    /// An inlet, the outlet or the door failed.
    pub link_failed: bool,
    /// A caller stopped for a reason that a run which was done does not have.
    pub short: bool,
}

/// The first end that the signs show.
pub(crate) fn choose(signs: &Signs) -> End
    ensures { result ≡ end_of signs.now }
{
    if let Some(torn) = signs.torn {
        return End::Torn(torn);
    }
    if signs.no_thread {
        return End::NoThread;
    }
    match signs.halt {
        Some(Halt::Far) => return End::ClockEnd,
        Some(halt) => return End::ClockFault(halt),
        None => (),
    }
    if signs.view_failed {
        return End::ClockFault(Halt::ClockFailed);
    }
    if signs.filled && signs.length >= FILLED {
        return End::JournalEnd;
    }
    if signs.link_failed {
        return End::LinkFault;
    }
    if signs.short {
        return End::OutOfMemory;
    }
    End::Done
}
