//! The exit statuses of the program.
ghost use Rattle.std.specs.Prelude.{◌≡◌};
ghost use Rattle.hep_outcome.specs.Statuses.{status_code};

/// The result of a run, in a word (docs/MACHINE.md, "The program").
#[derive(Clone, Copy, Debug, PartialEq, Eq)]
pub enum Status {
    /// The run is done, and no process ended by a fault.
    Done,
    /// The source is refused.
    Refused,
    /// The command line, the choices or a history can't be used.
    Usage,
    /// The run is over, and a process ended by a fault.
    Faulted,
    /// All living processes wait, and none has ended by a fault.
    Waiting,
    /// A frame doesn't fit the arena.
    ArenaFull,
    /// The history is full.
    StepLimit,
    /// Memory was refused.
    NoMemory,
    /// A read or a write failed.
    DeviceFailed,
    /// A race was found.
    Raced,
    /// The outcomes that a search found aren't those that were expected.
    Unexpected,
}

impl Status {
    /// The exit status of the program.
    pub fn code(self) -> u8
        ensures { result ≡ status_code self }
    {
        match self {
            Status::Done => 0,
            Status::Refused => 1,
            Status::Usage => 2,
            Status::Faulted => 3,
            Status::Waiting => 4,
            Status::ArenaFull => 5,
            Status::StepLimit => 6,
            Status::NoMemory => 7,
            Status::DeviceFailed => 8,
            Status::Raced => 9,
            Status::Unexpected => 10,
        }
    }
}
