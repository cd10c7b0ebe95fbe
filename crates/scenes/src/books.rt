//! What a scene prints of books and journals.
use crate::acts::path;
use crate::scene::Scene;
use crate::words::{given, push_batch, push_errors, push_event};
use notify_debouncer_full::{
    Book, Command, DebounceDataInner, DebouncedEvent, Entry, EventKind, ModifyKind, Moment,
    NoCache, RecursiveMode, RenameMode, Reply,
};
use std::alloc::{AllocError, Global};
use std::io;
use std::sync::Wait;
use std::time::Clock;
use test_fakes::allocator::TestHeap;

/// A core that carries out the commands of a journal.
pub type Core<A> = DebounceDataInner<NoCache, A>;

/// A half of a rename that doesn't say which one it is.
const HALF: EventKind = EventKind::Modify(ModifyKind::Name(RenameMode::Any));

impl<R: Clock + Wait + AllocGlobal + Drop, A: TestHeap> Scene<R, A> {
    /// Prints the timeout, in nanoseconds.
    fn say_timeout(&mut self, line: &str, timeout: Moment) -> io::Result<()> {
        writeln!(self.text, "{line}: {timeout}")?;
        Ok(())
    }

    /// Prints the modes that the core has of the paths.
    pub fn tell_modes(&mut self, core: &Core<A>, words: &str) -> io::Result<()> {
        for word in words.split(' ') {
            if !word.is_empty() {
                let mode = mode_of(core, self.heap, word)?;
                self.say(word, mode)?;
            }
        }
        Ok(())
    }

    /// Notes an entry of the journal, and prints its command, if it isn't a tick or asks for errors.
    fn note_entry(&mut self, entry: &Entry<A>) -> Result<(), AllocError> {
        self.entries = self.entries.saturating_add(1);
        if matches!(entry.command, Command::Tick(_)) {
            self.ticks = self.ticks.saturating_add(1);
        }
        if self.stage.has("moments") {
            push_moment(&mut self.text, &entry.command)?;
        }
        push_command(&mut self.text, &entry.command)?;
        push_reply(&mut self.emitted, &entry.reply)
    }

    /// Notes the entries of a part of the journal.
    fn note_entries(&mut self, part: &[Entry<A>]) -> Result<(), AllocError> {
        for entry in part {
            self.note_entry(entry)?;
        }
        Ok(())
    }
}

fn mode_of<A: TestHeap>(core: &Core<A>, heap: A, word: &str) -> io::Result<&'static str> {
    let place = path(heap, word)?;
    Ok(match core.recursive_mode(&place) {
        RecursiveMode::Recursive => "Recursive",
        RecursiveMode::NonRecursive => "NonRecursive",
    })
}

/// Appends the moment of an event, or a line for a tick.
fn push_moment<A: TestHeap>(text: &mut String, command: &Command<A>) -> Result<(), AllocError> {
    match command {
        Command::Event(_, moment, _) => write!(text, "at {moment} "),
        Command::Tick(moment) => writeln!(text, "at {moment} tick"),
        _ => Ok(()),
    }
}

/// Appends a line for the command. Of a half of a rename it says whether the path existed.
fn push_command<A: TestHeap>(text: &mut String, command: &Command<A>) -> Result<(), AllocError> {
    match command {
        Command::Event(event, _, exists) => {
            text.push_str("event")?;
            push_event(text, event)?;
            if event.kind == HALF {
                write!(text, " {exists}")?;
            }
        }
        Command::Error(error) => write!(text, "error {error}")?,
        Command::Root(place, _) => write!(text, "root {}", place.as_str())?,
        Command::Unroot(place) => write!(text, "unroot {}", place.as_str())?,
        Command::Errors | Command::Tick(_) => return Ok(()),
    }
    text.push_str("\n")
}

/// Appends what the handler is called with after this reply, if it is called.
fn push_reply<A: TestHeap>(text: &mut String, reply: &Reply<A>) -> Result<(), AllocError> {
    match reply {
        Reply::Batch(batch) if !batch.is_empty() => push_batch(text, batch.as_slice()),
        Reply::Errors(errors) if !errors.is_empty() => push_errors(text, errors.as_slice()),
        _ => Ok(()),
    }
}

/// Prints what is in this part of a journal, with which the core goes on.
pub fn tell_entries<R: Clock + Wait + AllocGlobal + Drop, A: TestHeap>(
    scene: &mut Scene<R, A>,
    core: &mut Core<A>,
    line: &str,
    part: Vec<Entry<A>, A>,
) -> io::Result<()> {
    let noted = scene.note_entries(part.as_slice());
    let agrees = goes_on(core, part);
    noted?;
    scene.say(
        line,
        if agrees {
            "a core replies the same"
        } else {
            "a core replies otherwise"
        },
    )
}

/// Whether the core gives the replies of this part of a journal to its commands.
fn goes_on<A: TestHeap>(core: &mut Core<A>, part: Vec<Entry<A>, A>) -> bool {
    for entry in part {
        let Entry {
            from: _,
            command,
            reply,
        } = entry;
        let given = core.step(command);
        let agrees = given == reply;
        drop((given, reply));
        if !agrees {
            return false;
        }
    }
    true
}

/// Prints the timeout, and what is in this journal, which the core carries out.
pub fn tell_journal<R: Clock + Wait + AllocGlobal + Drop, A: TestHeap>(
    scene: &mut Scene<R, A>,
    core: &mut Core<A>,
    line: &str,
    timeout: Moment,
    journal: Vec<Entry<A>, A>,
) -> io::Result<()> {
    let said = scene.say_timeout(line, timeout);
    tell_entries(scene, core, "journal", journal)?;
    said
}

/// Prints what waits in a book, and whether it is what waited when the scene last asked; how many
/// errors wait; and what is in the journal, and whether it leads a core to what waits.
pub fn tell_book<R: Clock + Wait + AllocGlobal + Drop, A: TestHeap>(
    scene: &mut Scene<R, A>,
    core: &mut Core<A>,
    book: Book<NoCache, A>,
) -> io::Result<()> {
    let waiting = tell_waiting(scene, &book);
    tell_book_journal(scene, core, book)?;
    let waiting = waiting?;
    let led = waiting_text(scene.rt.alloc(), core)?;
    scene.tell("the core waits the same", led.as_str() == waiting.as_str())
}

/// What waits in a core: each event with its time.
fn waiting_text<A: TestHeap>(alloc: Global, core: &Core<A>) -> io::Result<String> {
    let events = given(core.outlook())?;
    let mut text = String::new(alloc);
    let pushed = push_batch(&mut text, events.as_slice());
    drop(events);
    pushed?;
    Ok(text)
}

/// Prints what waits in a book, and how many errors. Returns the text of what waits.
fn tell_waiting<R: Clock + Wait + AllocGlobal + Drop, A: TestHeap>(
    scene: &mut Scene<R, A>,
    book: &Book<NoCache, A>,
) -> io::Result<String> {
    let waiting = given(book.outlook())?;
    let pushed = push_waiting(&mut scene.text, waiting.as_slice());
    drop(waiting);
    pushed?;
    let text = waiting_text(scene.rt.alloc(), book.core())?;
    if !scene.seen.is_empty() {
        let same = scene.seen.as_str() == text.as_str();
        scene.tell("as before", same)?;
    }
    scene.count("errors", book.core().pending_errors().len() as u64)?;
    Ok(text)
}

/// Appends a line for each event.
fn push_waiting<A: TestHeap>(
    text: &mut String,
    events: &[DebouncedEvent<A>],
) -> Result<(), AllocError> {
    for event in events {
        text.push_str("waits")?;
        push_event(text, &event.event)?;
        text.push_str("\n")?;
    }
    Ok(())
}

/// Prints the journal of the book, or the last part of it.
fn tell_book_journal<R: Clock + Wait + AllocGlobal + Drop, A: TestHeap>(
    scene: &mut Scene<R, A>,
    core: &mut Core<A>,
    book: Book<NoCache, A>,
) -> io::Result<()> {
    if book.is_journaled() {
        let (timeout, journal) = book.into_journal();
        return tell_journal(scene, core, "timeout", timeout, journal);
    }
    let mut book = book;
    let part = book.take_journal();
    let journaled = book.is_journaled();
    drop(book);
    let said = scene.tell("journaled", journaled);
    tell_entries(scene, core, "last part", part)?;
    said
}
