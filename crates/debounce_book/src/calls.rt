//! The calls of a book: each is the call of the core that has its name, and one entry.
ghost use Rattle.std.specs.Prelude.{◌≡◌, IfErr, IfOk, OnOk};
ghost use Rattle.notify_paths.specs.Errors.{out_of_memory};
ghost use Rattle.debounce_model.specs.Command.{EventCommand, ErrorCommand, RootCommand, UnrootCommand, ErrorsCommand, TickCommand, TakenReply, NotedReply, RootedReply, UnrootedReply, ErrorsReply, BatchReply};
ghost use Rattle.debounce_book.specs.Book.{IsDone, IsNotDone, IsUnwritten};

use crate::book::Book;
use crate::written::{draft, draft_errors, reserve, write};
use debounce_cache::FileIdCache;
use debounce_model::{Command, Reply};
use notify_paths::{Error, ErrorKind, PathBuf};
use notify_types::{DebouncedEvent, Event, Moment, RecursiveMode};
use std::alloc::Allocator;

impl<C: FileIdCache<A>, A: Allocator + Copy> Book<C, A> {
    /// Takes an event, which came from the script of this number. An event at the limit is refused
    /// before memory is asked for.
    pub(crate) fn add_event(
        &mut self,
        from: usize,
        event: Event<A>,
        now: Moment,
        exists: bool,
    ) -> Result<(), Error<A>>
        ensures ok { OnOk result (IsDone C.rules self.old from (EventCommand event now exists)
            (TakenReply self.new.core.answer) self.new) }
        ensures err { IfErr result (λ e.
            IsNotDone C.rules self.old (EventCommand event now exists) e self.new) }
    {
        let Book {
            core,
            journal,
            alloc,
            ..
        } = self;
        let Some(journal) = journal else {
            return core.add_event(event, now, exists);
        };
        if core.taken() == u64::MAX {
            return Err(Error::new(*alloc, ErrorKind::Full));
        }
        let copy = draft(*alloc, journal, &event)?;
        core.add_event(event, now, exists)?;
        let reply = Reply::Taken(core.answer());
        write(journal, from, Command::Event(copy, now, exists), reply);
        Ok(())
    }

    /// Keeps an error of the watcher.
    pub(crate) fn add_error(&mut self, from: usize, error: Error<A>) -> Result<(), Error<A>>
        ensures ok { OnOk result
            (IsDone C.rules self.old from (ErrorCommand error) NotedReply self.new) }
        ensures err { IfErr result (λ e.
            IsNotDone C.rules self.old (ErrorCommand error) e self.new) }
    {
        let Book {
            core,
            journal,
            alloc,
            ..
        } = self;
        let Some(journal) = journal else {
            return core.add_error(error);
        };
        let copy = draft(*alloc, journal, &error)?;
        core.add_error(error)?;
        write(journal, from, Command::Error(copy), Reply::Noted);
        Ok(())
    }

    /// Adds a root.
    pub(crate) fn add_root(
        &mut self,
        from: usize,
        path: &PathBuf<A>,
        mode: RecursiveMode,
    ) -> Result<(), Error<A>>
        ensures ok { OnOk result
            (IsDone C.rules self.old from (RootCommand path.now mode) RootedReply self.new) }
        ensures err { IfErr result (λ e.
            IsNotDone C.rules self.old (RootCommand path.now mode) e self.new) }
        ensures memory { IfErr result (λ e. e ≡ out_of_memory) }
    {
        let Book {
            core,
            journal,
            alloc,
            ..
        } = self;
        let Some(journal) = journal else {
            return core.add_root(path, mode);
        };
        let copy = draft(*alloc, journal, path)?;
        core.add_root(path, mode)?;
        write(journal, from, Command::Root(copy, mode), Reply::Rooted);
        Ok(())
    }

    /// Drops a root, and the roots below it.
    pub(crate) fn remove_root(&mut self, from: usize, path: &PathBuf<A>) -> Result<(), Error<A>>
        ensures ok { OnOk result
            (IsDone C.rules self.old from (UnrootCommand path.now) UnrootedReply self.new) }
        ensures err { IfErr result (λ e.
            IsNotDone C.rules self.old (UnrootCommand path.now) e self.new) }
        ensures memory { IfErr result (λ e. e ≡ out_of_memory) }
    {
        let Book {
            core,
            journal,
            alloc,
            ..
        } = self;
        let Some(journal) = journal else {
            return core.remove_root(path);
        };
        let copy = draft(*alloc, journal, path)?;
        core.remove_root(path)?;
        write(journal, from, Command::Unroot(copy), Reply::Unrooted);
        Ok(())
    }

    /// Hands out the errors that were kept. With a journal each call is an entry, also one that finds none. If
    /// there is no memory for it, they are kept.
    pub(crate) fn errors(&mut self, from: usize) -> Result<Vec<Error<A>, A>, Error<A>>
        ensures ok { IfOk result (λ errors.
            IsDone C.rules self.old from ErrorsCommand (ErrorsReply errors.items) self.new) }
        ensures err { IfErr result (λ e. IsUnwritten self.old ErrorsCommand e self.new) }
    {
        let Book {
            core,
            journal,
            alloc,
            ..
        } = self;
        let Some(journal) = journal else {
            return Ok(core.errors());
        };
        let copies = draft_errors(*alloc, core, journal)?;
        let errors = core.errors();
        write(journal, from, Command::Errors, Reply::Errors(copies));
        Ok(errors)
    }

    /// Emits what is expired at the moment. With a journal each tick is an entry, also one that emits
    /// nothing, and can be refused for want of room for it. The entry's batch is a copy, which is asked for
    /// before the tick: what was emitted couldn't be put back after a refusal.
    pub(crate) fn debounced_events(
        &mut self,
        from: usize,
        now: Moment,
    ) -> Result<Vec<DebouncedEvent<A>, A>, Error<A>>
        ensures ok { IfOk result (λ batch.
            IsDone C.rules self.old from (TickCommand now) (BatchReply batch.items) self.new) }
        ensures err { IfErr result (λ e.
            IsNotDone C.rules self.old (TickCommand now) e self.new) }
    {
        let Book {
            core,
            journal,
            alloc,
            ..
        } = self;
        let Some(journal) = journal else {
            return core.debounced_events(now);
        };
        reserve(*alloc, journal)?;
        let copy = core.batch_at(now)?;
        let batch = core.debounced_events(now)?;
        write(journal, from, Command::Tick(now), Reply::Batch(copy));
        Ok(batch)
    }
}
