//! What a test compares, as text.
use crate::build::Outcome;
use notify_debouncer_full::{DebouncedEvent, Error, ErrorKind, Event};
use std::alloc::{AllocError, Allocator};

/// Appends ` KIND PATH`.
fn push_event<A: Allocator>(text: &mut String, event: &Event<A>) -> Result<(), AllocError> {
    let place = match event.first_path() {
        Some(path) => path.as_str(),
        None => "",
    };
    write!(text, " {} {place}", event.kind.word())
}

/// Appends `batch`, and ` KIND PATH TIME` for each event.
pub fn push_batch<A: Allocator>(
    text: &mut String,
    batch: &[DebouncedEvent<A>],
) -> Result<(), AllocError> {
    text.push_str("batch")?;
    for event in batch {
        push_event(text, &event.event)?;
        write!(text, " {}", event.time())?;
    }
    Ok(())
}

/// Appends `errors`, and each as a word.
fn push_errors<A: Allocator>(text: &mut String, errors: &[Error<A>]) -> Result<(), AllocError> {
    text.push_str("errors")?;
    for error in errors {
        write!(text, " {error}")?;
    }
    Ok(())
}

/// Appends a batch or errors, and `; `.
pub fn push_outcome<A: Allocator>(
    text: &mut String,
    outcome: &Outcome<A>,
) -> Result<(), AllocError> {
    match outcome {
        Ok(batch) => push_batch(text, batch.as_slice())?,
        Err(errors) => push_errors(text, errors.as_slice())?,
    }
    text.push_str("; ")
}

/// Why a call was refused, if it was.
pub fn word_of<T: Drop, A: Allocator>(answer: Result<T, Error<A>>) -> &'static str {
    match answer {
        Ok(_) => "",
        Err(error) => match error.kind {
            ErrorKind::PathNotFound => "PathNotFound",
            ErrorKind::WatchNotFound => "WatchNotFound",
            ErrorKind::Memory => "Memory",
            _ => "another",
        },
    }
}
