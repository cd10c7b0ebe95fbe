//! Programs that follow reports.
ghost use Rattle.std.specs.Prelude.{◌≡◌, Option, None};

use crate::Fault;
use notify_watch::DebounceEventResult;
use std::time::Duration;

/// A program that follows reports.
///
/// Its ghost members say what its calls make of it, for whoever proves something of the program; by default
/// nothing is said, but of how long it waits.
pub trait TakesReports: Drop {
    ghost use Rattle.std.specs.declared.alloc.Global.{Global};
    ghost use Rattle.std.specs.declared.time.Duration.{Duration};
    ghost use Rattle.notify_watch.specs.Handler.{Outcome};
    ghost use Rattle.program_frame.specs.Reports.Loop.{Answer};

    /// What its beginning answers and leaves.
    ghost begins: { Self → Answer → Self → Type 0 } = { λ _ _ _. Unit {0} };

    /// What a report makes of it.
    ghost takes: { Self → Outcome Global → Answer → Self → Type 0 } = { λ _ _ _ _. Unit {0} };

    /// How long it waits for the next report at most.
    ghost waits: { Self → Option Duration } = { λ _. None };

    /// What a wait that gave nothing makes of it.
    ghost passes: { Self → Answer → Self → Type 0 } = { λ _ _ _. Unit {0} };

    /// What it does once the folder is watched: what changes from now on is reported.
    fn begin(&mut self) -> Result<(), Fault>
        ensures { begins self.old result self.new };

    /// Takes a report: a batch, or errors. An error ends the program.
    fn take(&mut self, report: DebounceEventResult) -> Result<(), Fault>
        ensures { takes self.old report result self.new };

    /// How long it waits for the next report at most. `None` says: as long as it takes.
    fn patience(&self) -> Option<Duration>
        ensures { result ≡ waits self.now };

    /// What it does if nothing was reported for so long.
    fn pass(&mut self) -> Result<(), Fault>
        ensures { passes self.old result self.new };
}
