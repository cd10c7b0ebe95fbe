//! What a call can't do, and the codes that C is told.
ghost use Rattle.std.specs.Prelude.{◌≡◌};
ghost use Rattle.debounce_c.specs.Desk.Codes.{answer_code, fault_code};

/// Why a call did nothing.
#[derive(Clone, Copy)]
pub enum Fault {
    /// The handle holds no debouncer.
    Empty,
    /// An allocation failed.
    NoMemory,
    /// As many events were taken as can be counted.
    Full,
    /// A text isn't UTF-8.
    NotText,
    /// No kind has this number.
    NoKind,
    /// An event, or an error, of the last call for them wasn't read.
    Unread,
    /// All was read.
    AtEnd,
    /// The buffer is shorter than the texts.
    TooShort,
    /// An event has at most two paths.
    TooManyPaths,
    /// More events were emitted than were taken.
    BadCounts,
    /// The folder in which a path would stand isn't there, or the path has no part.
    NoFolder,
    /// An event of the last look wasn't fed.
    Unfed,
    /// A look has ended before.
    Begun,
}

impl Fault {
    pub fn code(self) -> u32
        ensures { result ≡ fault_code self }
    {
        match self {
            Fault::Empty => 1,
            Fault::NoMemory => 2,
            Fault::Full => 3,
            Fault::NotText => 4,
            Fault::NoKind => 5,
            Fault::Unread => 6,
            Fault::AtEnd => 7,
            Fault::TooShort => 8,
            Fault::TooManyPaths => 9,
            Fault::BadCounts => 10,
            Fault::NoFolder => 11,
            Fault::Unfed => 12,
            Fault::Begun => 13,
        }
    }
}

/// The code of an outcome: 0 if the call did what it says.
pub fn code_of(outcome: Result<(), Fault>) -> u32
    ensures { result ≡ answer_code outcome }
{
    match outcome {
        Ok(()) => 0,
        Err(fault) => fault.code(),
    }
}
