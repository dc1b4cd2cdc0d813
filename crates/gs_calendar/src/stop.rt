ghost use Rattle.std.specs.Prelude.{◌≡◌};
ghost use Rattle.gs_calendar.specs.declared.stop.PlayStop.TheVariants.{OutOfMemory};

use std::alloc::AllocError;
use std::error::Error;
use std::fmt;

/// Why a play ends with no report.
#[derive(Clone, Copy, Debug, PartialEq, Eq)]
pub enum PlayStop {
    /// This quantum, counted from 1, is not allowed: what `to` last heard of `from` is as old as it may
    /// get.
    Stale { quantum: u32, from: u32, to: u32 },
    /// Memory was refused.
    OutOfMemory,
}

impl fmt::Display for PlayStop {
    ghost use Rattle.std.specs.Prelude.{Some};
    ghost use Rattle.gs_calendar.specs.StopTexts.{stop_text};

    ghost output = { λ stop. Some (stop_text stop) };

    fn fmt<W: fmt::Write>(&self, f: &mut fmt::Formatter<W>) -> fmt::Result {
        match self {
            PlayStop::Stale { quantum, from, to } => {
                write!(f, "breach at quantum {quantum}: stale {from} {to}")
            }
            PlayStop::OutOfMemory => f.write_str("out of memory"),
        }
    }
}

impl Error for PlayStop {}

impl From<AllocError> for PlayStop {
    ghost from_gives = { λ _ e. e ≡ OutOfMemory };

    fn from(_: AllocError) -> Self {
        PlayStop::OutOfMemory
    }
}
