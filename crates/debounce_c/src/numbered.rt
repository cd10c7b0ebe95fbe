//! A core whose caller says the numbers of files: [`NumberedCore`]. It is the core of `debounce_core`, with a
//! cache that looks nothing up: [`table::NumberTable`].
//!
//! ```text
//! let mut core = NumberedCore::with_counts(rt.alloc(), 50, 0, 0);
//! core.set_number(path, FileId { device, number })?;
//! core.add_event(event, 0, true)?;
//! ```
ghost use Rattle.std.specs.Prelude.{◌≡◌, ◌≤◌, [], true, false, None, length, IfOk, IfErr, IsOk, OnErr, OnOk};
ghost use Rattle.notify_paths.specs.Errors.{out_of_memory};
ghost use Rattle.debounce_model.specs.Calls.{recursive_mode};
ghost use Rattle.debounce_model.specs.State.{counted_state, waiting, with_error, with_state, without_errors};
ghost use Rattle.debounce_model.specs.Step.{IfSure, IsRefused, IsRooted, IsRootRefused, IsTaken, IsUnrooted};
ghost use Rattle.debounce_model.specs.Tick.{IsBatch, IsOnlyBatch, IsOutlook, IsOnlyOutlook, after_tick, is_due};
ghost use Rattle.debounce_c.specs.Numbered.Marks.{IsNoneGone, restored, settled, with_table};
ghost use Rattle.debounce_c.specs.Numbered.Numbers.{number_at, said_numbers, with_number, with_numbers, without_numbers};

pub mod table;

use crate::numbered::table::NumberTable;
use debounce_core::DebounceDataInner;
use debounce_model::FileId;
use notify_paths::{Error, PathBuf};
use notify_types::{DebouncedEvent, Event, Moment, RecursiveMode};
use std::alloc::{AllocError, Global};
use std::marker::Model;

/// A debouncer without a clock, whose caller says the numbers of files: that of a path before an event by which the
/// path may have come into being. A removal, and the first half of a rename, take the numbers at their path and below it
/// out. Two halves whose files have one number are joined, as if they had one tracker.
///
/// An event that is refused leaves all as it was, also the numbers.
#[derive(Drop)]
pub struct NumberedCore {
    core: DebounceDataInner<NumberTable>,
    alloc: Global,
}

impl Model for NumberedCore {
    ghost use Rattle.debounce_model.specs.State.{Core};
    ghost use Rattle.debounce_c.specs.Numbered.Marks.{IsNoneGone, said_core};
    ghost use Rattle.debounce_c.specs.Numbered.Numbers.{Numbers};

    ghost Value = { Core Numbers };

    ghost view = { λ a. said_core a.core };

    ghost invariant = { λ a. IsNoneGone a.core.cache };
}

/// What was taken out of the numbers is dropped.
fn settle(core: &mut DebounceDataInner<NumberTable>, alloc: Global)
    ensures { core.new ≡ with_table core.old (settled core.old.cache) }
{
    if core.cache().is_settled() {
        return;
    }
    let mut table = core.replace_cache(NumberTable::new(alloc));
    table.settle();
    drop(core.replace_cache(table));
}

/// What was taken out of the numbers is there again.
fn restore(core: &mut DebounceDataInner<NumberTable>, alloc: Global)
    ensures { core.new ≡ with_table core.old (restored core.old.cache) }
{
    let mut table = core.replace_cache(NumberTable::new(alloc));
    table.restore();
    drop(core.replace_cache(table));
}

impl NumberedCore {
    /// Returns a debouncer that waits for nothing and knows no number, and has taken and emitted so many events.
    pub fn with_counts(alloc: Global, timeout: Moment, taken: u64, given: u64) -> NumberedCore
        requires { given ≤ taken }
        ensures { result
            ≡ record {
              state = counted_state timeout taken given;
              cache = [];
              answer = None;
              visited = 0;
            } }
    {
        NumberedCore {
            core: DebounceDataInner::with_counts(
                alloc,
                NumberTable::new(alloc),
                timeout,
                taken,
                given,
            ),
            alloc,
        }
    }

    /// The path has this number from now on. If there is no memory for it, nothing has changed.
    pub fn set_number(&mut self, path: PathBuf, id: FileId) -> Result<(), AllocError>
        ensures ok { OnOk result
            (self.new ≡ with_numbers self.old (with_number self.old.cache path id)) }
        ensures err { OnErr result (self.new ≡ self.old) }
    {
        let mut table = self.core.replace_cache(NumberTable::new(self.alloc));
        let outcome = table.insert(path, id);
        drop(self.core.replace_cache(table));
        outcome
    }

    /// The path has no number any longer, nor has what lies below it. It takes no memory.
    pub fn forget(&mut self, path: &PathBuf)
        ensures { self.new ≡ with_numbers self.old (without_numbers self.old.cache path.now) }
    {
        let mut table = self.core.replace_cache(NumberTable::new(self.alloc));
        table.take_out(path);
        table.settle();
        drop(self.core.replace_cache(table));
    }

    /// The number of the path, if it has one.
    pub fn number(&self, path: &PathBuf) -> Option<FileId>
        ensures { result ≡ number_at self.now.cache path.now }
    {
        self.core.cache().number(path)
    }

    /// How many paths have a number.
    pub fn numbers(&self) -> usize
        ensures { result ≡ length self.now.cache }
    {
        self.core.cache().len()
    }

    /// Takes an event, as [`DebounceDataInner::add_event`] does.
    pub fn add_event(&mut self, event: Event, now: Moment, exists: bool) -> Result<(), Error>
        ensures ok { OnOk result (IsTaken said_numbers self.old event now exists self.new) }
        ensures err { IfErr result (λ e. IsRefused said_numbers self.old event exists e self.new) }
        ensures unchanged { OnErr result (self.new ≡ self.old) }
        ensures sure { IfSure said_numbers self.old event exists (IsOk result) }
    {
        match self.core.add_event(event, now, exists) {
            Ok(()) => {
                settle(&mut self.core, self.alloc);
                Ok(())
            }
            Err(error) => {
                restore(&mut self.core, self.alloc);
                Err(error)
            }
        }
    }

    /// Returns how many events were taken.
    pub fn taken(&self) -> u64
        ensures { result ≡ self.now.state.taken }
    {
        self.core.taken()
    }

    /// Returns how many events were emitted.
    pub fn given(&self) -> u64
        ensures { result ≡ self.now.state.given }
    {
        self.core.given()
    }

    /// Returns how many events wait.
    pub fn waiting(&self) -> u64
        ensures { result ≡ waiting self.now.state }
    {
        self.core.waiting()
    }

    /// Returns how many queues the last accepted tick found due.
    pub fn visited(&self) -> u64
        ensures { result ≡ self.now.visited }
    {
        self.core.visited()
    }

    /// Returns the answer that the cache gave to the last event that was taken.
    pub fn answer(&self) -> Option<FileId>
        ensures { result ≡ self.now.answer }
    {
        self.core.answer()
    }

    /// Returns the greatest moment at which an event or a tick was accepted.
    pub fn latest(&self) -> Moment
        ensures { result ≡ self.now.state.latest }
    {
        self.core.latest()
    }

    /// Returns how old an event is when it is emitted, in nanoseconds.
    pub fn timeout(&self) -> Moment
        ensures { result ≡ self.now.state.timeout }
    {
        self.core.timeout()
    }

    /// Emits what is expired, as [`DebounceDataInner::debounced_events`] does.
    pub fn debounced_events(&mut self, now: Moment) -> Result<Vec<DebouncedEvent>, Error>
        ensures batch { IfOk result (λ batch. IsBatch self.old.state now batch.items) }
        ensures only { IfOk result (λ batch. IsOnlyBatch self.old.state now batch.items) }
        ensures ok { IfOk result (λ batch. self.new ≡ after_tick self.old now batch.items) }
        ensures err { IfErr result (λ e. (e ≡ out_of_memory) × (self.new ≡ self.old)) }
        ensures sure { is_due self.old.state now ≡ false → IsOk result }
    {
        self.core.debounced_events(now)
    }

    /// Returns the batch that a tick at this moment would emit, and leaves everything as it is. If nothing is expired
    /// then, no memory is needed.
    pub fn batch_at(&self, now: Moment) -> Result<Vec<DebouncedEvent>, Error>
        ensures batch { IfOk result (λ batch. IsBatch self.now.state now batch.items) }
        ensures only { IfOk result (λ batch. IsOnlyBatch self.now.state now batch.items) }
        ensures err { IfErr result (λ e. e ≡ out_of_memory) }
        ensures sure { is_due self.now.state now ≡ false → IsOk result }
    {
        self.core.batch_at(now)
    }

    /// Returns the batch that would be emitted if every event that waits were expired.
    pub fn outlook(&self) -> Result<Vec<DebouncedEvent>, Error>
        ensures outlook { IfOk result (λ batch. IsOutlook self.now.state batch.items) }
        ensures only { IfOk result (λ batch. IsOnlyOutlook self.now.state batch.items) }
        ensures err { IfErr result (λ e. e ≡ out_of_memory) }
    {
        self.core.outlook()
    }

    /// Keeps an error until it is asked for. If there is no memory for it, nothing has changed.
    pub fn add_error(&mut self, error: Error) -> Result<(), Error>
        ensures ok { OnOk result (self.new
            ≡ with_state self.old (with_error self.old.state error)) }
        ensures err { IfErr result (λ e. (e ≡ out_of_memory) × (self.new ≡ self.old)) }
    {
        self.core.add_error(error)
    }

    /// Hands out the errors that were kept. It never refuses.
    pub fn errors(&mut self) -> Vec<Error>
        ensures errors { result.items ≡ self.old.state.errors }
        ensures state { self.new ≡ with_state self.old (without_errors self.old.state) }
    {
        self.core.errors()
    }

    /// Returns the errors that are kept, and leaves them.
    pub fn pending_errors(&self) -> &[Error]
        ensures { result.now ≡ self.now.state.errors }
    {
        self.core.pending_errors()
    }

    /// Watches a path from now on, as [`DebounceDataInner::add_root`] does. No number is looked up: the caller says
    /// those of what is there. If an allocation fails, nothing has changed.
    pub fn add_root(&mut self, path: &PathBuf, mode: RecursiveMode) -> Result<(), Error>
        ensures ok { OnOk result (IsRooted said_numbers self.old path.now mode self.new) }
        ensures err { IfErr result (λ e.
            IsRootRefused said_numbers self.old path.now mode e self.new) }
        ensures unchanged { OnErr result (self.new ≡ self.old) }
    {
        match self.core.add_root(path, mode) {
            Ok(()) => {
                settle(&mut self.core, self.alloc);
                Ok(())
            }
            Err(error) => {
                restore(&mut self.core, self.alloc);
                Err(error)
            }
        }
    }

    /// Watches a path no longer, nor any root below it; the numbers there are taken out. It takes no memory, and is
    /// never refused.
    pub fn remove_root(&mut self, path: &PathBuf) -> Result<(), Error>
        ensures ok { OnOk result (IsUnrooted said_numbers self.old path.now self.new) }
        ensures sure { IsOk result }
    {
        self.core.remove_root(path)?;
        settle(&mut self.core, self.alloc);
        Ok(())
    }

    /// Returns the mode in which a path is watched.
    pub fn recursive_mode(&self, path: &PathBuf) -> RecursiveMode
        ensures { result ≡ recursive_mode self.now.state path.now }
    {
        self.core.recursive_mode(path)
    }
}
