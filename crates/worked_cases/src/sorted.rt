//! A case of `sort_events`: events, as lines of a script, and the order in which they have to come out.
use mirror_run::script::read_script;
use notify_debouncer_full::{Command, DebouncedEvent, sort_events};
use std::alloc::{AllocError, Allocator, Global};
use std::io;
use std::io::Write;

/// The name of a case, the script with the events that are handed in, and the script with the same
/// events as they have to come out. A run would raise the events' moments; a script keeps them.
#[derive(Clone, Copy)]
pub struct SortedCase<'a> {
    name: &'a str,
    given: &'a str,
    wanted: &'a str,
}

impl<'a> SortedCase<'a> {
    /// Returns the case that a section of the document holds: its name in the first line, and two fenced
    /// blocks with the words `is sorted as` between them.
    pub fn read(section: &'a str) -> Option<SortedCase<'a>> {
        let (name, text) = section.split_once('\n')?;
        let (_before, text) = text.split_once("```\n")?;
        let (given, text) = text.split_once("```\n\nis sorted as\n\n```\n")?;
        let (wanted, _after) = text.split_once("```\n")?;
        Some(SortedCase {
            name,
            given,
            wanted,
        })
    }

    /// Returns true if the events come out as they should; or prints the case's name and what comes out,
    /// and returns false.
    pub fn check<O: Write>(self, alloc: Global, out: &mut O) -> io::Result<bool> {
        let wanted = events_in(alloc, self.wanted)?;
        let sorted = sort_events(alloc, events_in(alloc, self.given)?);
        let met = match &sorted {
            Ok(events) => *events == wanted,
            Err(_) => false,
        };
        if !met {
            writeln!(out, "{} is sorted as {sorted:?}", self.name)?;
        }
        Ok(met)
    }
}

/// The events of a script; none if the text is no script.
fn events_in(alloc: Global, script: &str) -> Result<Vec<DebouncedEvent>, AllocError> {
    match read_script(alloc, &mut script.as_bytes()) {
        Ok(script) => events_of(alloc, script.commands.as_slice()),
        Err(_) => Ok(Vec::new(alloc)),
    }
}

/// Copies of the events among the commands, each at its moment.
pub fn events_of<A: Allocator + Copy>(
    alloc: A,
    commands: &[Command<A>],
) -> Result<Vec<DebouncedEvent<A>, A>, AllocError> {
    let mut events = Vec::new(alloc);
    for command in commands {
        if let Command::Event(event, now, _) = command {
            events.push(DebouncedEvent::new(event.clone()?, *now))?;
        }
    }
    Ok(events)
}
