ghost use Rattle.std.specs.Prelude.{◌≡◌, ◌++◌};
ghost use Rattle.gs_cli.specs.declared.stop.Stop.TheVariants.{OutOfMemory};

use crate::reply::Reply;
use crate::status::Status;
use std::alloc::{AllocError, Global};

/// Why a command does not go on.
#[derive(Drop)]
pub enum Stop {
    /// Its input is refused: what is written, with the status.
    Refused(Reply),
    /// There is not enough memory.
    OutOfMemory,
}

impl Stop {
    ghost use Rattle.gs_cli.specs.Answers.{line};
    ghost use Rattle.gs_cli.specs.Stops.{StopsWith};

    /// A refusal by a line of two words, of which the first ends with its own space; `OutOfMemory` where
    /// there is no memory for the line.
    pub fn refused(alloc: Global, status: Status, first: &str, second: &str) -> Self
        ensures { StopsWith (λ answer. answer ≡ line status (first.now ++ second.now)) result }
    {
        match Reply::line_of(alloc, status, first, second) {
            Ok(reply) => Stop::Refused(reply),
            Err(AllocError) => Stop::OutOfMemory,
        }
    }
}

impl From<AllocError> for Stop {
    ghost from_gives = { λ _ stop. stop ≡ OutOfMemory };

    fn from(_error: AllocError) -> Self {
        Stop::OutOfMemory
    }
}
