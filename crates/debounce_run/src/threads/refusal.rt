//! Why a run in threads has no journal.
ghost use Rattle.std.specs.Prelude.{◌≡◌, ◌⊎◌};
ghost use Rattle.debounce_run.specs.Threads.Merged.{refusal_error, refusal_of};

use notify_paths::{Error, ErrorKind};
use std::alloc::Allocator;
use std::io;

/// Why a run in threads has no journal. A thread answers one without memory of its own.
#[derive(Clone, Copy, Debug, PartialEq, Eq)]
pub enum Refusal {
    /// An event came after 2^64 - 1 others.
    Full,
    /// An allocation failed.
    Memory,
    /// A thread could not be started.
    NotStarted,
    /// The journal isn't one of the scripts.
    Differs,
}

impl Refusal {
    /// The refusal of a command that was refused with this error.
    pub(crate) fn of<A: Allocator>(error: &Error<A>) -> Refusal
        ensures value { result ≡ refusal_of error.now.kind }
        ensures step { (result ≡ Refusal.Full) ⊎ (result ≡ Refusal.Memory) }
    {
        match error.kind {
            ErrorKind::Full => Refusal::Full,
            _ => Refusal::Memory,
        }
    }

    pub(crate) fn into_error<A: Allocator + Copy>(self, alloc: A) -> Error<A>
        ensures { result ≡ refusal_error self }
    {
        match self {
            Refusal::Full => Error::new(alloc, ErrorKind::Full),
            Refusal::Memory => Error::out_of_memory(alloc),
            Refusal::NotStarted => Error::new(alloc, ErrorKind::Io(io::ErrorKind::Other)),
            Refusal::Differs => Error::new(alloc, ErrorKind::Generic(String::new(alloc))),
        }
    }
}
