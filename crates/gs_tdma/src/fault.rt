ghost use Rattle.std.specs.Prelude.{◌≡◌};
ghost use Rattle.gs_tdma.specs.declared.fault.SlotFault.TheVariants.{OutOfMemory};

use std::alloc::AllocError;
use std::error::Error;
use std::fmt;

/// Why there is no slot plan of a reach and a slot.
#[derive(Clone, Copy, Debug, PartialEq, Eq)]
pub enum SlotFault {
    /// The reach is 0 or above 4.
    Reach,
    /// A slot is no longer than its two guards, or is 2^48 clock units or more.
    Slot,
    /// Memory was refused.
    OutOfMemory,
}

impl fmt::Display for SlotFault {
    ghost use Rattle.std.specs.Prelude.{Some};
    ghost use Rattle.gs_tdma.specs.FaultWords.{why_of};

    ghost output = { λ fault. Some (why_of fault) };

    fn fmt<W: fmt::Write>(&self, f: &mut fmt::Formatter<W>) -> fmt::Result {
        match self {
            SlotFault::Reach => f.write_str("reach"),
            SlotFault::Slot => f.write_str("slot"),
            SlotFault::OutOfMemory => f.write_str("out of memory"),
        }
    }
}

impl Error for SlotFault {}

impl From<AllocError> for SlotFault {
    ghost from_gives = { λ _ e. e ≡ OutOfMemory };

    fn from(_: AllocError) -> Self {
        SlotFault::OutOfMemory
    }
}
