//! A story whose commands are carried out again and again, while one request for memory after the
//! other is refused.
use crate::calls::is_out_of_memory;
use crate::numbers::Numbers;
use crate::subject::Subject;
use mirror_run::script::{Counts, Fault, Script, read_script};
use notify_debouncer_full::{Book, Command, DebounceDataInner, FileIdMap, Moment, NoCache, Reply};
use std::alloc::{AllocError, Global};
use test_fakes::allocator::RefusingHeap;

/// More requests than a command makes.
pub const MOST: u64 = 10_000;

/// By what a story's commands are carried out.
#[derive(Clone, Copy, Debug, PartialEq)]
enum Way {
    /// A core without a cache.
    Core,
    /// A core with a cache of file numbers.
    Cached,
    /// `command_step` on a book.
    Book,
    /// `command_step` on a book with a journal.
    Journal,
    /// The calls of a feed and of a watcher, on a book.
    Calls,
    /// The calls of a feed and of a watcher, on a book with a journal.
    JournalCalls,
}

const WAYS: [Way; 6] = [
    Way::Core,
    Way::Cached,
    Way::Book,
    Way::Journal,
    Way::Calls,
    Way::JournalCalls,
];

/// What came of a call of which one request for memory was to be refused.
#[derive(Clone, Copy, PartialEq)]
pub enum Ending {
    /// The request came, and the call says that memory is out.
    Refused,
    /// The call makes fewer requests.
    Accepted,
    /// The request came and the call doesn't say so, or it didn't come and the call says so.
    Wrong,
}

impl Ending {
    /// Returns the ending of a call, from whether the request came and whether the call says so.
    pub fn of(came: bool, said: bool) -> Ending {
        match (came, said) {
            (true, true) => Ending::Refused,
            (false, false) => Ending::Accepted,
            _ => Ending::Wrong,
        }
    }

    /// Returns the ending of two calls, of which each had its own.
    pub fn and(self, other: Ending) -> Ending {
        match (self, other) {
            (Ending::Wrong, _) | (_, Ending::Wrong) => Ending::Wrong,
            (Ending::Accepted, Ending::Accepted) => Ending::Accepted,
            _ => Ending::Refused,
        }
    }
}

/// The script with commands at its end that give the errors and emit all that waits. It is empty if
/// the text is no script.
pub fn script_of<A: RefusingHeap>(heap: A, text: &str) -> Result<Option<Script<A>>, AllocError> {
    match read_script(heap, &mut text.as_bytes()) {
        Ok(mut script) => {
            script.commands.push(Command::Errors)?;
            script.commands.push(Command::Tick(Moment::MAX))?;
            Ok(Some(script))
        }
        Err(Fault::Memory) => Err(AllocError),
        Err(_) => Ok(None),
    }
}

/// Refuses each request of each command in turn, in each way, and writes down which commands ask a
/// core without a cache for no memory, or where a refused command leaves a trace. Returns false if the
/// text is no script.
pub fn note(
    heap: impl RefusingHeap,
    alloc: Global,
    text: &str,
    note: &mut String,
) -> Result<bool, AllocError> {
    let Some(script) = script_of(heap, text)? else {
        return Ok(false);
    };
    for way in WAYS {
        note_way(way, heap, alloc, &script, note)?;
    }
    Ok(true)
}

fn note_way<A: RefusingHeap>(
    way: Way,
    heap: A,
    alloc: Global,
    script: &Script<A>,
    note: &mut String,
) -> Result<(), AllocError> {
    for place in 0..script.commands.len() {
        match count_refused(way, heap, alloc, script, place)? {
            Some(0) if way == Way::Core => note_free(place, note)?,
            Some(_) => {}
            None => write!(note, ", differs after {place} commands by {way:?}")?,
        }
    }
    Ok(())
}

/// Writes down that the command after so many others asks for no memory.
fn note_free(place: usize, note: &mut String) -> Result<(), AllocError> {
    let words = if note.is_empty() {
        ", no memory for"
    } else {
        ""
    };
    write!(note, "{words} {}", place.saturating_add(1))
}

/// How many requests the command at this place makes, each of which is refused in turn. It is empty if
/// what is seen after a refusal isn't what is seen of one that never saw the refused command.
fn count_refused<A: RefusingHeap>(
    way: Way,
    heap: A,
    alloc: Global,
    script: &Script<A>,
    place: usize,
) -> Result<Option<u64>, AllocError> {
    let mut wanted = String::new(alloc);
    tell(way, heap, script, place, 0, &mut wanted)?;
    for n in 1..MOST {
        let mut seen = String::new(alloc);
        match tell(way, heap, script, place, n, &mut seen)? {
            Ending::Refused if seen == wanted => {}
            Ending::Accepted => return Ok(Some(n.saturating_sub(1))),
            _ => return Ok(None),
        }
    }
    Ok(None)
}

impl Way {
    /// What carries out a story in this way. A core without a cache goes on from the script's counts.
    fn start<A: RefusingHeap>(self, heap: A, script: &Script<A>) -> Subject<A> {
        let timeout = script.timeout;
        let cache = NoCache::new();
        match self {
            Way::Core => {
                let Counts { taken, given } = script.counts;
                let core = DebounceDataInner::with_counts(heap, cache, timeout, taken, given);
                Subject::Core(core)
            }
            Way::Cached => {
                let numbers = FileIdMap::new(heap, Numbers::new(heap));
                Subject::Cached(DebounceDataInner::new(heap, numbers, timeout))
            }
            Way::Book => Subject::Book(Book::new(heap, cache, timeout)),
            Way::Journal => Subject::Book(Book::journaled(heap, cache, timeout)),
            Way::Calls => Subject::Calls(Book::new(heap, cache, timeout)),
            Way::JournalCalls => Subject::Calls(Book::journaled(heap, cache, timeout)),
        }
    }
}

/// Carries out the story in this way, as [`follow`] does.
fn tell<A: RefusingHeap>(
    way: Way,
    heap: A,
    script: &Script<A>,
    place: usize,
    n: u64,
    text: &mut String,
) -> Result<Ending, AllocError> {
    // what is made takes no memory
    heap.refuse(u64::MAX);
    let mut subject = way.start(heap, script);
    heap.refuse(0);
    let commands = script.commands.as_slice();
    follow(heap, &mut subject, commands, place, n, text)
}

/// Carries out the commands, and writes the replies. Before the one at this place it is tried while its
/// nth request for memory is refused, or not at all if n is 0; then, and at the end, what can be seen
/// is written too.
fn follow<A: RefusingHeap>(
    heap: A,
    subject: &mut Subject<A>,
    commands: &[Command<A>],
    place: usize,
    n: u64,
    text: &mut String,
) -> Result<Ending, AllocError> {
    let (before, after) = commands.split_at(place.min(commands.len()));
    carry_out(subject, before, text)?;
    let ending = attempt(heap, subject, after, n)?;
    subject.show(heap, after, text)?;
    carry_out(subject, after, text)?;
    subject.show(heap, after, text)?;
    Ok(ending)
}

/// Carries out the commands, and writes the replies.
fn carry_out<A: RefusingHeap>(
    subject: &mut Subject<A>,
    commands: &[Command<A>],
    text: &mut String,
) -> Result<(), AllocError> {
    for command in commands {
        step(subject, command.clone()?, text)?;
    }
    Ok(())
}

fn step<A: RefusingHeap>(
    subject: &mut Subject<A>,
    command: Command<A>,
    text: &mut String,
) -> Result<(), AllocError> {
    let reply = subject.step(command);
    writeln!(text, "{reply:?}")
}

/// Tries the first of the commands while its nth request is refused.
fn attempt<A: RefusingHeap>(
    heap: A,
    subject: &mut Subject<A>,
    commands: &[Command<A>],
    n: u64,
) -> Result<Ending, AllocError> {
    match commands {
        [command, ..] if n > 0 => {
            let copy = command.clone()?;
            heap.refuse(n);
            let reply = subject.step(copy);
            let came = heap.left() == 0;
            heap.refuse(0);
            Ok(Ending::of(came, is_refused(&reply)))
        }
        _ => Ok(Ending::Refused),
    }
}

/// Whether the reply says that memory is out.
fn is_refused<A: RefusingHeap>(reply: &Reply<A>) -> bool {
    match reply {
        Reply::Refused(error) => is_out_of_memory(error),
        _ => false,
    }
}
