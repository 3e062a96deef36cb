//! How a run ended.

ghost use Rattle.strat_model.specs.Ended.{status_of};
ghost use Rattle.std.specs.Prelude.{◌≡◌};

/// How a run of the program ended.
#[derive(Clone, Copy, Debug, PartialEq, Eq)]
pub enum Ended {
    /// All there was to do is done.
    Done,
    /// The arguments are no subcommand of the program.
    Usage,
    /// The file holds no store.
    NotAStore,
    /// A frame was longer than a frame may be.
    FrameTooLong,
    /// The input ended within a frame.
    Truncated,
    /// The device failed.
    Device,
    /// The input failed.
    Source,
    /// The output failed.
    Sink,
    /// Memory ran out.
    NoMemory,
    /// This block of the store is damaged.
    Damaged { block: u32 },
    /// As many bytes were read as the run may read.
    Budget,
    /// The store breaks a rule.
    Unsound,
    /// The store has no such version.
    UnknownVersion,
}

impl Ended {
    /// The program's exit status, 0 to 12 in the order of the endings.
    pub fn status(&self) -> u8
        ensures { result ≡ status_of self.now }
    {
        match self {
            Ended::Done => 0,
            Ended::Usage => 1,
            Ended::NotAStore => 2,
            Ended::FrameTooLong => 3,
            Ended::Truncated => 4,
            Ended::Device => 5,
            Ended::Source => 6,
            Ended::Sink => 7,
            Ended::NoMemory => 8,
            Ended::Damaged { .. } => 9,
            Ended::Budget => 10,
            Ended::Unsound => 11,
            Ended::UnknownVersion => 12,
        }
    }
}
