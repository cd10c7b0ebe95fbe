//! Why a run can't begin, or can't go on.
ghost use Rattle.std.specs.Prelude.{◌≡◌, OnOk};
ghost use Rattle.std.specs.Io.KnownBytes.{Appends};
ghost use Rattle.mirror_run.specs.Script.Faults.{fault_status, fault_line};
ghost use Rattle.mirror_run.specs.declared.script.fault.Fault.TheVariants.{Memory};

use notify_paths::Error;
use std::alloc::{AllocError, AllocFailed, Allocator};
use std::io;
use std::io::Write;

/// Why a run can't begin, or can't go on. Each fault has one exit status and one line.
#[derive(Clone, Copy, Debug, PartialEq, Eq)]
pub enum Fault {
    /// The words after the program's name ask for no run.
    Usage,
    /// A word after the program's name isn't UTF-8.
    NotUtf8,
    /// The script's file can't be read.
    CannotRead,
    /// This line, counted from 1, is none that a script can have there. If the timeout is missing and
    /// every line is skipped, it is one more than the number of lines.
    NotCommand(u64),
    /// An allocation failed.
    Memory,
    /// The folder can't be watched.
    CannotWatch,
    /// The output can't be written.
    OutputFailed,
    /// A thread can't be started.
    NoThread,
}

impl Fault {
    /// Returns the exit status of a run that ends so.
    pub fn status(self) -> u8
        ensures { result ≡ fault_status self }
    {
        match self {
            Fault::CannotRead => 1,
            Fault::Usage | Fault::NotUtf8 => 2,
            Fault::NotCommand(_) => 3,
            Fault::Memory => 4,
            Fault::CannotWatch => 5,
            Fault::OutputFailed => 6,
            Fault::NoThread => 8,
        }
    }

    /// Writes the fault's line, for a script or a folder of this name. If the output failed, there is none.
    pub fn write<E: Write>(self, name: &str, err: &mut E) -> io::Result<()>
        ensures silent { self ≡ Fault.OutputFailed → E.contents err.new ≡ E.contents err.old }
        ensures line { OnOk result (Appends (E.contents err.old) (E.contents err.new)
            (fault_line name.now self)) }
    {
        match self {
            Fault::Usage => writeln!(
                err,
                "usage: mirror SCRIPT | --check SCRIPT | --threads SCRIPT.. | --watch DIR TICKS"
            ),
            Fault::NotUtf8 => writeln!(err, "mirror: an argument is not UTF-8"),
            Fault::CannotRead => writeln!(err, "mirror: cannot read {name}"),
            Fault::NotCommand(line) => writeln!(err, "mirror: {name}: line {line}: not a command"),
            Fault::Memory => writeln!(err, "mirror: out of memory"),
            Fault::CannotWatch => writeln!(err, "mirror: cannot watch {name}"),
            Fault::OutputFailed => Ok(()),
            Fault::NoThread => writeln!(err, "mirror: cannot start a thread"),
        }
    }
}

impl From<AllocError> for Fault {
    ghost from_gives = { λ _ e. e ≡ Memory };

    fn from(_error: AllocError) -> Fault {
        Fault::Memory
    }
}

impl<T: Drop> From<AllocFailed<T>> for Fault {
    ghost from_gives = { λ _ e. e ≡ Memory };

    fn from(_error: AllocFailed<T>) -> Fault {
        Fault::Memory
    }
}

/// The debouncer and the path set refuse only if an allocation fails, in the calls that a run makes by
/// itself.
impl<A: Allocator> From<Error<A>> for Fault {
    ghost from_gives = { λ _ e. e ≡ Memory };

    fn from(_error: Error<A>) -> Fault {
        Fault::Memory
    }
}
