//! Why a run in threads can't begin, or can't go on.
ghost use Rattle.std.specs.Prelude.{◌≡◌, ◌≢◌};
ghost use Rattle.mirror_threads.specs.Threads.{stop_status};

use mirror_run::Fault;
use std::io::Write;

/// Why a run in threads can't begin, or can't go on.
#[derive(Clone, Copy, Debug, PartialEq, Eq)]
pub enum Stop<'n> {
    /// The script of this name can't be read, or the run as a whole can't go on.
    Faulty(&'n str, Fault),
    /// The scripts have different timeouts.
    Timeouts,
}

impl Stop<'_> {
    /// Returns the exit status.
    #[tactic(auto, using(crate::proofs::Statuses::other_status))]
    pub fn status(self) -> u8
        ensures status { result ≡ stop_status self.entry }
        ensures other { (result ≢ 0) × (result ≢ 7) }
    {
        match self {
            Stop::Faulty(_, fault) => fault.status(),
            Stop::Timeouts => 3,
        }
    }

    /// Writes the line that says why. If the output failed, there is none.
    pub fn write<E: Write>(self, err: &mut E) {
        let _ = match self {
            Stop::Faulty(name, fault) => fault.write(name, err),
            Stop::Timeouts => writeln!(err, "mirror: the scripts differ in timeout"),
        };
    }
}
