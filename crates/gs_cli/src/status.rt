ghost use Rattle.std.specs.Prelude.{◌≡◌};

/// How a run ended. The process ends with its `code`; see `docs/FORMATS.md`, "Statuses".
#[derive(Clone, Copy, Debug, PartialEq, Eq)]
pub enum Status {
    /// The input was read whole, the job done, all written.
    Done = 0,
    /// The words are no command.
    Usage = 1,
    /// A file could not be read.
    ReadFault = 2,
    /// A file is longer than it may be.
    TooLong = 3,
    /// The plan is refused.
    PlanRefused = 4,
    /// The script, the trace or another word's value is refused.
    InputRefused = 5,
    /// An event is not allowed.
    Breach = 6,
    /// The output could not be written.
    WriteFault = 7,
    /// There was not enough memory.
    OutOfMemory = 8,
    /// A clock could not be read, or fell.
    ClockFault = 9,
    /// A port or a datagram failed.
    LinkFault = 10,
    /// A thread could not be started.
    NoThread = 11,
    /// A clock reached its end.
    ClockEnd = 12,
    /// A journal is full.
    JournalEnd = 13,
    /// A journal and what was told of it differ.
    Torn = 14,
    /// The store of stamps failed.
    StoreFault = 16,
    /// No stamp is left.
    StampEnd = 17,
}

impl Status {
    ghost use Rattle.gs_cli.specs.Statuses.{code_of};

    /// The exit status of the process.
    pub fn code(self) -> u8
        ensures { result ≡ code_of self }
    {
        self as u8
    }
}
