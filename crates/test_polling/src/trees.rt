//! What several tests build and print. There is memory for it, so each call gives what it is asked for.
use crate::build::path;
use notify_paths::{Error, ErrorKind, PathBuf};
use notify_types::{Event, RecursiveMode};
use notify_watch::EventHandler;
use poll_listing::{EntryKind, Listing};
use std::alloc::{AllocError, Allocator};
use std::fmt::Debug;
use std::mem::replace;
use std::process::Abort;
use test_fakes::folders::TreeFolders;

/// One root, which is watched with what is below it.
pub fn root<A: Allocator + Copy + Debug>(
    rt: &impl Abort,
    alloc: A,
    text: &str,
) -> Vec<(PathBuf<A>, RecursiveMode), A> {
    let mut roots = Vec::new(alloc);
    roots
        .push((path(rt, alloc, text), RecursiveMode::Recursive))
        .expect(rt, "memory");
    roots
}

/// The roots of a text, as `/a /b`, each of which is watched so.
pub fn roots<A: Allocator + Copy + Debug>(
    rt: &impl Abort,
    alloc: A,
    text: &str,
) -> Vec<(PathBuf<A>, RecursiveMode), A> {
    let mut roots = Vec::new(alloc);
    for place in text.split(' ') {
        roots
            .push((path(rt, alloc, place), RecursiveMode::Recursive))
            .expect(rt, "memory");
    }
    roots
}

/// The entries of a text, as `/ folder, /f file 3`. A number, as in `/f file 3 #7`, is none of a listing.
pub fn entries<A: Allocator + Copy + Debug>(
    rt: &impl Abort,
    alloc: A,
    text: &str,
) -> Vec<(PathBuf<A>, EntryKind, u64), A> {
    let mut entries = Vec::new(alloc);
    for entry in text.split(", ") {
        let (place, found) = entry.split_once(' ').expect(rt, entry);
        let (found, _number) = found.split_once(" #").unwrap_or((found, ""));
        let (kind, length) = found_of(rt, found);
        entries
            .push((path(rt, alloc, place), kind, length))
            .expect(rt, "memory");
    }
    entries
}

/// What stands at a path, and its length.
fn found_of(rt: &impl Abort, found: &str) -> (EntryKind, u64) {
    match found.split_once(' ') {
        Some((_, length)) => (EntryKind::File, number(rt, length)),
        None if found == "folder" => (EntryKind::Folder, 0),
        None => (EntryKind::Other, 0),
    }
}

pub fn number(rt: &impl Abort, text: &str) -> u64 {
    match text.parse::<u64>() {
        Ok(number) => number,
        Err(_) => panic!(rt; "{text} is no number"),
    }
}

pub fn listing<A: Allocator + Copy + Debug>(rt: &impl Abort, alloc: A, text: &str) -> Listing<A> {
    Listing::from_entries(alloc, entries(rt, alloc, text))
        .expect(rt, "memory")
        .expect(rt, text)
}

/// Folders that hold the entries of a text.
pub fn tree<A: Allocator + Copy + Debug>(rt: &impl Abort, alloc: A, text: &str) -> TreeFolders<A> {
    TreeFolders::new(alloc, listing(rt, alloc, text)).expect(rt, text)
}

/// What the events say, as `Create(File) /f, Remove(Folder) /d`, and `Create(File) /f #7` if there is a tracker.
pub fn text_of(rt: &(impl Abort + AllocGlobal), events: &[Event]) -> String {
    let mut text = String::new(rt.alloc());
    for event in events {
        add_event(&mut text, event).expect(rt, "memory");
    }
    text
}

/// Adds what the event says.
fn add_event<A: Allocator>(text: &mut String, event: &Event<A>) -> Result<(), AllocError> {
    add(text, event.kind.word())?;
    for place in &event.paths {
        text.push(' ')?;
        text.push_str(place.as_str())?;
    }
    add_tracker(text, event.tracker())
}

/// Adds the tracker, if there is one.
fn add_tracker(text: &mut String, tracker: Option<u64>) -> Result<(), AllocError> {
    let Some(tracker) = tracker else {
        return Ok(());
    };
    let words = format!(in *text.allocator(); " #{tracker}")?;
    text.push_str(words.as_str())
}

/// Adds the words, after a comma if there are others.
fn add(text: &mut String, words: &str) -> Result<(), AllocError> {
    if !text.is_empty() {
        text.push_str(", ")?;
    }
    text.push_str(words)
}

/// A handler that notes what it is called with. A note that finds no memory is lost, and the test that
/// reads the notes fails.
#[derive(Drop)]
pub struct Notes {
    text: String,
}

impl Notes {
    pub fn new(rt: &impl AllocGlobal) -> Notes {
        Notes {
            text: String::new(rt.alloc()),
        }
    }

    /// Returns the notes since the last time.
    pub fn take(&mut self) -> String {
        let alloc = *self.text.allocator();
        replace(&mut self.text, String::new(alloc))
    }
}

impl<A: Allocator + 'static> EventHandler<Result<Event<A>, Error<A>>> for Notes {
    ghost ready = { λ _. Unit {0} };

    ghost handles = { λ _ _ _. Unit {0} };

    fn handle_event(&mut self, event: Result<Event<A>, Error<A>>)
        ensures again { Unit {0} }
        ensures handled { Unit {0} }
    {
        let _ = match event {
            Ok(event) => add_event(&mut self.text, &event),
            Err(error) => match error.kind {
                ErrorKind::Memory => add(&mut self.text, "error Memory"),
                ErrorKind::Io(_) => add(&mut self.text, "error Io"),
                _ => add(&mut self.text, "another error"),
            },
        };
    }
}
