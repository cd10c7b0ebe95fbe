//! What carries out commands with memory that can be refused, and shows what can be seen of it.
use crate::numbers::Numbers;
use notify_debouncer_full::{
    Book, Command, DebounceDataInner, Error, Event, FileIdCache, FileIdMap, NoCache, Reply,
    command_step, feed_step, root_step, unroot_step,
};
use std::alloc::AllocError;
use test_fakes::allocator::RefusingHeap;

/// What carries out commands.
#[derive(Drop)]
pub enum Subject<A: RefusingHeap> {
    /// A core without a cache.
    Core(DebounceDataInner<NoCache, A>),
    /// A core with a cache of file numbers.
    Cached(DebounceDataInner<FileIdMap<Numbers<A>, A>, A>),
    /// A book, which carries out all commands by one call.
    Book(Book<NoCache, A>),
    /// A book, which carries out each command by the call that a feed or a watcher makes.
    Calls(Book<NoCache, A>),
}

impl<A: RefusingHeap> Subject<A> {
    /// Carries out a command.
    pub fn step(&mut self, command: Command<A>) -> Reply<A> {
        match self {
            Subject::Core(core) => core.step(command),
            Subject::Cached(core) => core.step(command),
            Subject::Book(book) => command_step(book, 0, command),
            Subject::Calls(book) => call(book, command),
        }
    }

    /// Writes what can be seen of it, and the modes of these commands' paths.
    pub fn show(
        &self,
        heap: A,
        commands: &[Command<A>],
        text: &mut String,
    ) -> Result<(), AllocError> {
        match self {
            Subject::Core(core) => show_core(core, heap, commands, text),
            Subject::Cached(core) => show_core(core, heap, commands, text),
            Subject::Book(book) | Subject::Calls(book) => {
                show_core(book.core(), heap, commands, text)?;
                writeln!(text, "{:?}", book.journal())
            }
        }
    }
}

/// Writes what can be seen of a core. What takes no memory is asked while each request is refused.
fn show_core<C: FileIdCache<A>, A: RefusingHeap>(
    core: &DebounceDataInner<C, A>,
    heap: A,
    commands: &[Command<A>],
    text: &mut String,
) -> Result<(), AllocError> {
    heap.refuse(u64::MAX);
    show_counts(core, text)?;
    show_modes(core, commands, text)?;
    heap.refuse(0);
    writeln!(text, "{:?}", core.outlook())
}

/// Writes the counts, the latest moment, the cache's answer and the errors.
fn show_counts<C, A: RefusingHeap>(
    core: &DebounceDataInner<C, A>,
    text: &mut String,
) -> Result<(), AllocError> {
    let counts = [core.waiting(), core.taken(), core.given(), core.visited()];
    let errors = core.pending_errors();
    writeln!(
        text,
        "{counts:?} {} {:?} {errors:?}",
        core.latest(),
        core.answer()
    )
}

/// Writes the mode of each path that the commands name.
fn show_modes<C, A: RefusingHeap>(
    core: &DebounceDataInner<C, A>,
    commands: &[Command<A>],
    text: &mut String,
) -> Result<(), AllocError> {
    for command in commands {
        let path = match command {
            Command::Root(path, _) | Command::Unroot(path) => Some(path),
            Command::Event(event, _, _) => event.first_path(),
            _ => None,
        };
        if let Some(path) = path {
            writeln!(text, "{:?}", core.recursive_mode(path))?;
        }
    }
    Ok(())
}

/// Carries out the command by the call that a feed or a watcher makes, if there is one for it alone.
fn call<A: RefusingHeap>(book: &mut Book<NoCache, A>, command: Command<A>) -> Reply<A> {
    match command {
        Command::Event(event, now, exists) => {
            reply_of(feed_step(book, Ok(event), now, exists), Reply::Taken(None))
        }
        Command::Error(error) => reply_of(feed_step(book, Err(error), 0, false), Reply::Noted),
        Command::Root(path, mode) => reply_of(root_step(book, &path, mode), Reply::Rooted),
        Command::Unroot(path) => reply_of(unroot_step(book, &path), Reply::Unrooted),
        other => command_step(book, 0, other),
    }
}

/// The reply to a command that has this one if it is accepted.
fn reply_of<A: RefusingHeap>(answer: Result<(), Error<A>>, accepted: Reply<A>) -> Reply<A> {
    match answer {
        Ok(()) => accepted,
        Err(error) => Reply::Refused(error),
    }
}
