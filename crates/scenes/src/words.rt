//! What a scene prints of events, errors and calls.
use crate::stage::Outcome;
use notify_debouncer_full::{DebouncedEvent, Error, ErrorKind, Event};
use std::alloc::{AllocError, Allocator};
use std::fmt::Debug;
use std::io;

/// Appends ` KIND PATH`.
pub fn push_event<A: Allocator>(text: &mut String, event: &Event<A>) -> Result<(), AllocError> {
    let place = match event.first_path() {
        Some(path) => path.as_str(),
        None => "",
    };
    write!(text, " {} {place}", event.kind.word())
}

/// Appends `batch`, and all of its events.
pub fn push_batch<A: Allocator + Debug>(
    text: &mut String,
    batch: &[DebouncedEvent<A>],
) -> Result<(), AllocError> {
    write!(text, "batch {batch:?}; ")
}

/// Appends `errors`, and all of them.
pub fn push_errors<A: Allocator + Debug>(
    text: &mut String,
    errors: &[Error<A>],
) -> Result<(), AllocError> {
    write!(text, "errors {errors:?}; ")
}

/// Appends a batch or errors.
pub fn push_outcome<A: Allocator + Debug>(
    text: &mut String,
    outcome: &Outcome<A>,
) -> Result<(), AllocError> {
    match outcome {
        Ok(batch) => push_batch(text, batch.as_slice()),
        Err(errors) => push_errors(text, errors.as_slice()),
    }
}

/// What an error without paths says.
pub fn word_of<A: Allocator>(error: &Error<A>) -> &'static str {
    if !error.paths.is_empty() {
        return "an error with paths";
    }
    match &error.kind {
        ErrorKind::PathNotFound => "PathNotFound",
        ErrorKind::WatchNotFound => "WatchNotFound",
        ErrorKind::Memory => "Memory",
        ErrorKind::Generic(text) if text.is_empty() => "Generic",
        _ => "another",
    }
}

/// What a call gives that has to succeed.
pub fn given<T: Drop, A: Allocator>(answer: Result<T, Error<A>>) -> io::Result<T> {
    match answer {
        Ok(value) => Ok(value),
        Err(_) => Err(io::Error::from(io::ErrorKind::Other)),
    }
}

/// `ok`, or what the error says.
pub fn answer_of<T: Drop, A: Allocator>(answer: Result<T, Error<A>>) -> &'static str {
    match answer {
        Ok(_) => "ok",
        Err(error) => word_of(&error),
    }
}
