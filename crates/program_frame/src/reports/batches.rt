//! Programs that take batches.
use crate::Fault;
use notify_paths::PathBuf;
use notify_types::DebouncedEvent;

/// The places that a program's words name.
#[derive(Drop)]
pub struct Places {
    /// The folder that is watched.
    pub folder: PathBuf,
    /// The second place, or the empty path if the words name one alone.
    pub second: PathBuf,
}

/// What a program answers that has taken a batch.
#[derive(Drop)]
pub enum Taken {
    /// All was done.
    All,
    /// Something failed, and the program asks for these events again. They come before those of the next batch, or
    /// else after a pause, and once more at the end; what was asked for then and is asked for again ends the
    /// program by `Fault::Incomplete`. If none are asked for, all was done.
    Again(Vec<DebouncedEvent>),
}

/// What a program does with the batches of a folder.
///
/// Its ghost members say what its beginning and a batch make of it, for whoever proves something of the program; by
/// default nothing is said.
pub trait TakesBatches: Drop {
    ghost use Rattle.program_frame.specs.Reports.Batches.{Begins, Takes, Wants};

    /// What its beginning makes of it.
    ghost begins: { Begins Self } = { λ _ _ _ _. Unit {0} };

    /// What a batch makes of it.
    ghost takes: { Takes Self } = { λ _ _ _ _ _. Unit {0} };

    /// What it answers to whether it wants what is there already.
    ghost wants: { Wants Self } = { λ _ _. Unit {0} };

    /// Whether what is there already is in the first batches, as created.
    fn wants_initial(&self) -> bool
        ensures { wants self.now result };

    /// What it does first. The folder is watched: what changes from now on comes in batches. An error ends the
    /// program.
    fn begin(&mut self, places: &Places) -> Result<(), Fault>
        ensures { begins self.old places.now result self.new };

    /// Takes a batch, which isn't empty. An error ends the program.
    fn take(&mut self, places: &Places, batch: Vec<DebouncedEvent>) -> Result<Taken, Fault>
        ensures { takes self.old places.now batch result self.new };
}
