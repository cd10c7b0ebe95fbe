//! Calls that no command makes: copies, a path's text, the order of events that the caller lists, the
//! moves of a batch, and a scan for file numbers. One request for memory after the other is refused.
use crate::numbers::{Numbers, numbers_in};
use crate::sorted::events_of;
use crate::sweep::{Ending, MOST};
use mirror_run::PathSet;
use mirror_run::script::read_script;
use notify_debouncer_full::{
    Command, DebouncedEvent, Error, ErrorKind, Event, EventKind, FileIdCache, FileIdMap, PathBuf,
    RecursiveMode, sort_events,
};
use reader_paths::moves::Moves;
use std::alloc::AllocError;
use test_fakes::allocator::RefusingHeap;

/// A call that asks for memory.
#[derive(Clone, Copy, PartialEq)]
pub enum Call {
    ToText,
    CopyPath,
    CopyAttributes,
    CopyEvent,
    CopyDebouncedEvent,
    CopyError,
    CopySet,
    SortEvents,
    ReadMoves,
    ReadSources,
    ScanFolders,
}

pub const CALLS: [Call; 11] = [
    Call::ToText,
    Call::CopyPath,
    Call::CopyAttributes,
    Call::CopyEvent,
    Call::CopyDebouncedEvent,
    Call::CopyError,
    Call::CopySet,
    Call::SortEvents,
    Call::ReadMoves,
    Call::ReadSources,
    Call::ScanFolders,
];

/// A script with the event that is copied, and then those that are put in order.
const SCRIPT: &str = "timeout 50\n\
    event 3 Modify(Any) tracker=7,info=words /a/b\n\
    event 2 Any - /b\n\
    event 2 Any - /a\n\
    event 1 Any - /a\n\
    event 2 Any -\n";

/// A folder that moved with its file, and a file that moved.
const MOVED: &str = "timeout 50\n\
    event 1 Remove(Folder) tracker=7 /a\n\
    event 1 Remove(File) tracker=8 /f\n\
    event 2 Create(Folder) tracker=7 /b\n\
    event 2 Create(File) tracker=7 /b/c\n\
    event 2 Create(File) tracker=8 /g\n";

impl Call {
    /// Returns the name of what is called.
    pub fn name(self) -> &'static str {
        match self {
            Call::ToText => "PathBuf::to_text",
            Call::CopyPath => "PathBuf::try_clone",
            Call::CopyAttributes => "EventAttributes::try_clone",
            Call::CopyEvent => "Event::try_clone",
            Call::CopyDebouncedEvent => "DebouncedEvent::try_clone",
            Call::CopyError => "Error::try_clone",
            Call::CopySet => "PathSet::try_clone",
            Call::SortEvents => "sort_events",
            Call::ReadMoves => "Moves::of",
            Call::ReadSources => "Moves::sources",
            Call::ScanFolders => "FileIdMap::add_path",
        }
    }

    /// Returns the script that has what the call is made on.
    fn script(self) -> &'static str {
        match self {
            Call::ReadMoves | Call::ReadSources => MOVED,
            _ => SCRIPT,
        }
    }

    /// Whether each request of the call is refused in turn, says so, and the call succeeds if none is.
    pub fn is_refused(self, heap: impl RefusingHeap) -> Result<bool, AllocError> {
        for n in 1..MOST {
            match self.attempt(heap, n)? {
                Ending::Refused => {}
                Ending::Accepted => return Ok(1 < n),
                Ending::Wrong => return Ok(false),
            }
        }
        Ok(false)
    }

    /// Makes the call while its nth request is refused.
    fn attempt(self, heap: impl RefusingHeap, n: u64) -> Result<Ending, AllocError> {
        let Ok(script) = read_script(heap, &mut self.script().as_bytes()) else {
            return Err(AllocError);
        };
        match script.commands.as_slice() {
            [_, rest @ ..] if self == Call::SortEvents => sort(heap, rest, n),
            all if self == Call::ReadMoves => read_moves(heap, all, n),
            all if self == Call::ReadSources => read_sources(heap, all, n),
            [first, ..] => self.attempt_on(heap, first, n),
            [] => Ok(Ending::Wrong),
        }
    }

    /// Makes the call on the command's event, or on a part of it.
    fn attempt_on<A: RefusingHeap>(
        self,
        heap: A,
        command: &Command<A>,
        n: u64,
    ) -> Result<Ending, AllocError> {
        let Command::Event(event, _, _) = command else {
            return Ok(Ending::Wrong);
        };
        match (self, event.first_path()) {
            (Call::CopyEvent, _) => {
                heap.refuse(n);
                Ok(ending_of(heap, event.try_clone()))
            }
            (Call::CopyAttributes, _) => {
                heap.refuse(n);
                Ok(ending_of(heap, event.attrs.try_clone(heap)))
            }
            (Call::ToText, Some(path)) => {
                heap.refuse(n);
                Ok(ending_of(heap, path.to_text()))
            }
            (Call::CopyPath, Some(path)) => {
                heap.refuse(n);
                Ok(ending_of(heap, path.try_clone()))
            }
            (Call::CopyDebouncedEvent, Some(path)) => copy_event(heap, path.clone()?, n),
            (Call::CopyError, Some(path)) => copy_error(heap, path.clone()?, n),
            (Call::CopySet, Some(path)) => copy_set(heap, path.clone()?, n),
            (Call::ScanFolders, Some(path)) => scan_folders(heap, path, n),
            _ => Ok(Ending::Wrong),
        }
    }
}

/// What came of a call that had this answer.
fn ending_of<A: RefusingHeap, T: Drop>(heap: A, answer: Result<T, Error<A>>) -> Ending {
    let came = heap.left() == 0;
    heap.refuse(0);
    match answer {
        Ok(_) => Ending::of(came, false),
        Err(error) => Ending::of(came, is_out_of_memory(&error)),
    }
}

/// Whether the error says that memory is out.
pub fn is_out_of_memory<A: RefusingHeap>(error: &Error<A>) -> bool {
    error.kind == ErrorKind::Memory && error.paths.is_empty()
}

/// The answer of a call, for which there is memory.
fn had<A: RefusingHeap, T: Drop>(answer: Result<T, Error<A>>) -> Result<T, AllocError> {
    match answer {
        Ok(value) => Ok(value),
        Err(_) => Err(AllocError),
    }
}

fn copy_event<A: RefusingHeap>(heap: A, path: PathBuf<A>, n: u64) -> Result<Ending, AllocError> {
    let event = had(Event::new(heap, EventKind::Any).add_path(path))?;
    let event = DebouncedEvent::new(event, 3);
    heap.refuse(n);
    Ok(ending_of(heap, event.try_clone()))
}

fn copy_error<A: RefusingHeap>(heap: A, path: PathBuf<A>, n: u64) -> Result<Ending, AllocError> {
    let error = had(Error::new(heap, ErrorKind::PathNotFound).add_path(path))?;
    heap.refuse(n);
    Ok(ending_of(heap, error.try_clone()))
}

fn copy_set<A: RefusingHeap>(heap: A, path: PathBuf<A>, n: u64) -> Result<Ending, AllocError> {
    let mut set = PathSet::new(heap);
    had(set.insert(path))?;
    heap.refuse(n);
    Ok(ending_of(heap, set.try_clone()))
}

fn sort<A: RefusingHeap>(heap: A, commands: &[Command<A>], n: u64) -> Result<Ending, AllocError> {
    let events = events_of(heap, commands)?;
    heap.refuse(n);
    Ok(ending_of(heap, sort_events(heap, events)))
}

fn read_moves<A: RefusingHeap>(
    heap: A,
    commands: &[Command<A>],
    n: u64,
) -> Result<Ending, AllocError> {
    let batch = events_of(heap, commands)?;
    heap.refuse(n);
    Ok(ending_of(heap, Moves::of(heap, batch.as_slice())))
}

fn read_sources<A: RefusingHeap>(
    heap: A,
    commands: &[Command<A>],
    n: u64,
) -> Result<Ending, AllocError> {
    let batch = events_of(heap, commands)?;
    let moves = had(Moves::of(heap, batch.as_slice()))?;
    heap.refuse(n);
    Ok(ending_of(heap, moves.sources(batch.as_slice())))
}

/// Folders that are scanned one after the other: so many that the map grows more than once.
const FOLDERS: [&str; 8] = ["a", "b", "c", "d", "e", "f", "g", "h"];

/// Scans each folder in the path twice, and before each time while the nth request is refused.
fn scan_folders<A: RefusingHeap>(heap: A, path: &PathBuf<A>, n: u64) -> Result<Ending, AllocError> {
    let mut map = FileIdMap::new(heap, Numbers::new(heap));
    let mut ending = Ending::Accepted;
    for name in FOLDERS {
        let Some(folder) = path.child(name)? else {
            return Ok(Ending::Wrong);
        };
        ending = ending.and(scan_twice(heap, &mut map, &folder, n)?);
    }
    Ok(ending)
}

fn scan_twice<A: RefusingHeap>(
    heap: A,
    map: &mut FileIdMap<Numbers<A>, A>,
    folder: &PathBuf<A>,
    n: u64,
) -> Result<Ending, AllocError> {
    let first = scan(heap, map, folder, n)?;
    had(map.add_path(folder, RecursiveMode::Recursive))?;
    let second = scan(heap, map, folder, n)?;
    Ok(first.and(second))
}

/// Scans the folder while the nth request is refused. A refused scan has to leave what the map held, and
/// one that is accepted gives each entry another number.
fn scan<A: RefusingHeap>(
    heap: A,
    map: &mut FileIdMap<Numbers<A>, A>,
    folder: &PathBuf<A>,
    n: u64,
) -> Result<Ending, AllocError> {
    let before = numbers_in(heap, map, folder)?;
    heap.refuse(n);
    let ending = ending_of(heap, map.add_path(folder, RecursiveMode::Recursive));
    let is_kept = numbers_in(heap, map, folder)? == before;
    let met = is_kept == (ending == Ending::Refused);
    Ok(if met { ending } else { Ending::Wrong })
}
