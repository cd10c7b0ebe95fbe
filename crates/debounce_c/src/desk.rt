//! The calls of the C library, on what a handle holds: a debouncer, the batch and the errors that are being
//! read, a journal if one is kept, and what is known and said to stand at paths. Each call finds first whether it can be done, and then does it; its contract
//! says exactly when it answers which fault. [`crate::handle`] puts a [`Desk`] behind a handle, and [`crate::exports`]
//! has the calls that C sees.
ghost use Rattle.std.specs.Prelude.{◌≡◌, ◌<◌, ◌≤◌, ◌+◌, ◌-◌, ◌^◌, ◌==◌, length, nat_lt, slice_get, IfOk, IfErr, OnOk, true};
ghost use Rattle.std.specs.Option.{option_copied};
ghost use Rattle.debounce_model.specs.Calls.{recursive_mode};
ghost use Rattle.debounce_c.specs.Numbered.Numbers.{number_at, with_number, with_numbers, without_numbers};
ghost use Rattle.debounce_c.specs.Desk.{IsAsked, IsForeseen, IsOpened, IsTicked, begun, entries_in, entry_at};
ghost use Rattle.debounce_c.specs.Desk.Faults.{errors_need, tick_needs};
ghost use Rattle.debounce_c.specs.Desk.Tells.{TellsCounts};
ghost use Rattle.debounce_c.specs.declared.desk.fault.Fault.TheVariants.{NoMemory};

pub mod calls;
pub mod entries;
pub mod fault;
pub mod laws;
pub mod looks;
pub mod numbers;
pub mod reading;
pub mod records;
mod steps;
pub mod telling;
mod written;

use crate::desk::fault::Fault;
use crate::desk::records::Counts;
use crate::desk::telling::word;
use crate::numbered::NumberedCore;
use debounce_book::Entry;
use debounce_model::FileId;
use listing_looks::Looker;
use notify_paths::{Error, PathBuf};
use notify_types::{DebouncedEvent, Moment, RecursiveMode};
use std::alloc::Global;
use std::marker::Model;

/// A debouncer, with the file numbers that C said; its last batch, and the errors that were last asked for, of each of
/// which so many were read; a journal, if one is kept; and what is known and said to stand at paths.
#[derive(Drop)]
pub struct Desk {
    pub(crate) core: NumberedCore,
    batch: Vec<DebouncedEvent>,
    read: usize,
    errors: Vec<Error>,
    errors_read: usize,
    pub(crate) journal: Option<Vec<Entry>>,
    pub(crate) looker: Looker,
}

impl Model for Desk {
    ghost use Rattle.std.specs.Option.{option_map};
    ghost use Rattle.debounce_c.specs.Desk.{DeskValue};

    ghost Value = { DeskValue };

    ghost view = { λ a. record {
      core = a.core;
      batch = a.batch.items;
      read = a.read;
      errors = a.errors.items;
      errors_read = a.errors_read;
      journal = option_map (λ v. v.items) a.journal;
      looker = a.looker;
    } };
}

impl Desk {
    /// A debouncer that waits for nothing, and has taken and emitted so many events.
    pub fn new(alloc: Global, timeout: Moment, taken: u64, given: u64) -> Desk
        requires { given ≤ taken }
        ensures { IsOpened timeout taken given result }
    {
        Desk {
            core: NumberedCore::with_counts(alloc, timeout, taken, given),
            batch: Vec::new(alloc),
            read: 0,
            errors: Vec::new(alloc),
            errors_read: 0,
            journal: None,
            looker: Looker::new(alloc),
        }
    }

    /// A journal begins, or none is kept any longer. What was kept before is dropped.
    pub fn keep_journal(&mut self, alloc: Global, on: bool)
        ensures { self.new ≡ record self.old { journal = begun on } }
    {
        self.journal = if on { Some(Vec::new(alloc)) } else { None };
    }

    /// How many entries the journal has.
    pub fn entries(&self) -> usize
        ensures { result ≡ length (entries_in self.now) }
    {
        match &self.journal {
            Some(journal) => journal.len(),
            None => 0,
        }
    }

    /// The entry at this place of the journal.
    pub fn entry(&self, place: usize) -> Option<&Entry>
        ensures { option_copied result ≡ entry_at self.now place }
    {
        match &self.journal {
            Some(journal) => journal.as_slice().get(place),
            None => None,
        }
    }

    /// Whether as many events were taken as can be counted.
    pub fn is_full(&self) -> bool
        ensures { result ≡ (self.now.core.state.taken == 2 ^ 64 - 1) }
    {
        self.core.taken() == u64::MAX
    }

    /// The path has this number from now on.
    pub fn set_number(&mut self, path: PathBuf, id: FileId) -> Result<(), Fault>
        ensures ok { OnOk result (self.new ≡ record self.old {
          core = with_numbers self.old.core (with_number self.old.core.cache path id);
        }) }
        ensures err { IfErr result (λ f. (f ≡ NoMemory) × (self.new ≡ self.old)) }
    {
        match self.core.set_number(path, id) {
            Ok(()) => Ok(()),
            Err(_) => Err(Fault::NoMemory),
        }
    }

    /// The path has no number any longer, nor has what lies below it.
    pub fn forget(&mut self, path: &PathBuf)
        ensures { self.new ≡ record self.old {
          core = with_numbers self.old.core (without_numbers self.old.core.cache path.now);
        } }
    {
        self.core.forget(path);
    }

    /// The number of the path, if it has one.
    pub fn number(&self, path: &PathBuf) -> Option<FileId>
        ensures { result ≡ number_at self.now.core.cache path.now }
    {
        self.core.number(path)
    }

    /// The mode in which a path is watched.
    pub fn mode(&self, path: &PathBuf) -> RecursiveMode
        ensures { result ≡ recursive_mode self.now.core.state path.now }
    {
        self.core.recursive_mode(path)
    }

    /// What the debouncer has counted.
    pub fn counts(&self) -> Counts
        ensures { TellsCounts self.now result }
    {
        Counts {
            taken: self.core.taken(),
            given: self.core.given(),
            waiting: self.core.waiting(),
            visited: self.core.visited(),
            latest: word(self.core.latest()),
            timeout: word(self.core.timeout()),
            errors: self.core.pending_errors().len(),
            numbers: self.core.numbers(),
            entries: self.entries(),
        }
    }

    /// Whether an event of the last batch wasn't read.
    pub fn is_unread(&self) -> bool
        ensures { result ≡ nat_lt self.now.read (length self.now.batch) }
    {
        self.read < self.batch.len()
    }

    /// Emits what is expired: the batch to be read from now on.
    pub fn tick(&mut self, now: Moment) -> Result<usize, Fault>
        ensures ok { IfOk result (λ count. IsTicked self.old now count self.new) }
        ensures err { IfErr result (λ f. (f ≡ NoMemory)
            × ((tick_needs now self.old ≡ true) × (self.new ≡ self.old))) }
    {
        match self.emit(now) {
            Ok(batch) => Ok(self.begin(batch)),
            Err(fault) => Err(fault),
        }
    }

    /// What waits is to be read from now on, as a batch.
    pub fn outlook(&mut self) -> Result<usize, Fault>
        ensures ok { IfOk result (λ count. IsForeseen self.old count self.new) }
        ensures err { IfErr result (λ f. (f ≡ NoMemory) × (self.new ≡ self.old)) }
    {
        match self.core.outlook() {
            Ok(batch) => Ok(self.begin(batch)),
            Err(_) => Err(Fault::NoMemory),
        }
    }

    /// This batch is to be read from now on.
    fn begin(&mut self, batch: Vec<DebouncedEvent>) -> usize
        ensures left { self.new ≡ record self.old { batch = batch.items; read = 0 } }
        ensures count { result ≡ length batch.items }
    {
        self.batch = batch;
        self.read = 0;
        self.batch.len()
    }

    /// The next event of the batch.
    pub fn next(&self) -> Option<&DebouncedEvent>
        ensures { option_copied result ≡ slice_get self.now.batch self.now.read }
    {
        self.batch.as_slice().get(self.read)
    }

    /// The next event was read.
    pub fn advance(&mut self)
        requires { self.old.read < length self.old.batch }
        ensures { self.new ≡ record self.old { read = self.old.read + 1 } }
    {
        self.read += 1;
    }

    /// Whether an error that was asked for wasn't read.
    pub fn has_unread_error(&self) -> bool
        ensures { result ≡ nat_lt self.now.errors_read (length self.now.errors) }
    {
        self.errors_read < self.errors.len()
    }

    /// The errors that were kept are to be read from now on.
    pub fn ask(&mut self, alloc: Global) -> Result<usize, Fault>
        ensures ok { IfOk result (λ count. IsAsked self.old count self.new) }
        ensures err { IfErr result (λ f. (f ≡ NoMemory)
            × ((errors_need self.old ≡ true) × (self.new ≡ self.old))) }
    {
        match self.hand_out(alloc) {
            Ok(errors) => Ok(self.begin_errors(errors)),
            Err(fault) => Err(fault),
        }
    }

    /// These errors are to be read from now on.
    fn begin_errors(&mut self, errors: Vec<Error>) -> usize
        ensures left { self.new ≡ record self.old { errors = errors.items; errors_read = 0 } }
        ensures count { result ≡ length errors.items }
    {
        self.errors = errors;
        self.errors_read = 0;
        self.errors.len()
    }

    /// The next error.
    pub fn next_error(&self) -> Option<&Error>
        ensures { option_copied result ≡ slice_get self.now.errors self.now.errors_read }
    {
        self.errors.as_slice().get(self.errors_read)
    }

    /// The next error was read.
    pub fn advance_error(&mut self)
        requires { self.old.errors_read < length self.old.errors }
        ensures { self.new ≡ record self.old { errors_read = self.old.errors_read + 1 } }
    {
        self.errors_read += 1;
    }
}
