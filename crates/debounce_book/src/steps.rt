//! The steps of a running debouncer. Each is done while the book's lock is held.
ghost use Rattle.std.specs.Prelude.{◌≡◌, IfErr, OnOk};
ghost use Rattle.notify_paths.specs.Errors.{out_of_memory};
ghost use Rattle.debounce_model.specs.Command.{RootCommand, UnrootCommand, RootedReply, UnrootedReply};
ghost use Rattle.debounce_book.specs.Book.{IsDone, IsNotDone, TicksBoth, fed_command, fed_reply};

use crate::book::Book;
use debounce_cache::FileIdCache;
use notify_paths::{Error, PathBuf};
use notify_types::{DebouncedEvent, Event, Moment, RecursiveMode};
use std::alloc::Allocator;

/// What a tick emits: the batch, or why there is none, and the errors.
pub type Ticked<A> = (
    Result<Vec<DebouncedEvent<A>, A>, Error<A>>,
    Vec<Error<A>, A>,
);

/// Takes an event at a moment, or keeps an error of the watcher. `exists` says whether an event's
/// first path exists then.
///
/// An event is refused as `Full` if 2^64 - 1 events were taken, and an event or an error as `Memory` if an
/// allocation fails. Then the state and the journal are as they were, and the cache is as its own calls left it.
pub fn feed_step<C: FileIdCache<A>, A: Allocator + Copy>(
    book: &mut Book<C, A>,
    item: Result<Event<A>, Error<A>>,
    now: Moment,
    exists: bool,
) -> Result<(), Error<A>>
    ensures ok { OnOk result (IsDone C.rules book.old 0 (fed_command item now exists)
        (fed_reply item book.new.core.answer) book.new) }
    ensures err { IfErr result (λ e.
        IsNotDone C.rules book.old (fed_command item now exists) e book.new) }
{
    match item {
        Ok(event) => book.add_event(0, event, now, exists),
        Err(error) => book.add_error(0, error),
    }
}

/// Emits what is expired at the moment, and then the errors. A tick that is refused doesn't keep
/// the errors back. If there is no memory for the errors' entry in the journal, they wait for the next
/// tick, and no error is emitted, which isn't counted as a refusal; without a journal errors are always
/// emitted.
pub fn tick_step<C: FileIdCache<A>, A: Allocator + Copy>(
    book: &mut Book<C, A>,
    now: Moment,
) -> Ticked<A>
    ensures { TicksBoth C.rules book.old now result.0 result.1.items book.new }
{
    let batch = book.debounced_events(0, now);
    match book.errors(0) {
        Ok(errors) => (batch, errors),
        Err(_) => (batch, Vec::new(book.alloc)),
    }
}

/// Watches a path from now on in this mode. If an equal path is a root, its mode stays. If an
/// allocation fails, the roots and the journal are as they were, and the cache is as its own call left
/// it.
pub fn root_step<C: FileIdCache<A>, A: Allocator + Copy>(
    book: &mut Book<C, A>,
    path: &PathBuf<A>,
    mode: RecursiveMode,
) -> Result<(), Error<A>>
    ensures ok { OnOk result
        (IsDone C.rules book.old 0 (RootCommand path.now mode) RootedReply book.new) }
    ensures err { IfErr result (λ e.
        IsNotDone C.rules book.old (RootCommand path.now mode) e book.new) }
    ensures memory { IfErr result (λ e. e ≡ out_of_memory) }
{
    book.add_root(0, path, mode)
}

/// Watches a path no longer, nor any root below it. If an allocation fails, the roots and the journal
/// are as they were, and the cache is as its own call left it.
pub fn unroot_step<C: FileIdCache<A>, A: Allocator + Copy>(
    book: &mut Book<C, A>,
    path: &PathBuf<A>,
) -> Result<(), Error<A>>
    ensures ok { OnOk result
        (IsDone C.rules book.old 0 (UnrootCommand path.now) UnrootedReply book.new) }
    ensures err { IfErr result (λ e.
        IsNotDone C.rules book.old (UnrootCommand path.now) e book.new) }
    ensures memory { IfErr result (λ e. e ≡ out_of_memory) }
{
    book.remove_root(0, path)
}
