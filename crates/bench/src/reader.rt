//! What the words `paths` and `roots` share: reports of what is watched, and the paths that a reader keeps.

use anyhow::Result;
use notify_debouncer_full::{
    Config, DebounceEventResult, DebouncerRuntime, LastReports, PathBuf, RecommendedReports,
    Reports,
};
use reader_paths::PathSet;
use std::time::Duration;

/// Starts with nothing watched. What a folder holds at first comes as created.
pub fn start<R: DebouncerRuntime + AllocGlobal>(rt: &R) -> Result<RecommendedReports<R>> {
    let config = Config::default()
        .with_poll_interval(Duration::from_millis(5))
        .with_initial_events(true);
    let timeout = Duration::from_millis(20);
    Ok(Reports::start(*rt, rt.alloc(), timeout, None, config)?)
}

/// The path `stop` in the folder, which ends a program once it comes.
pub fn stop_in(rt: &impl AllocGlobal, folder: &str) -> Result<PathBuf> {
    let stop = format!(in rt.alloc(); "{folder}/stop")?;
    Ok(PathBuf::parse(rt.alloc(), stop.as_str())?)
}

/// Whether the path has come, or waits to be reported.
pub fn comes(
    reports: &mut RecommendedReports<impl DebouncerRuntime>,
    paths: &PathSet,
    path: &PathBuf,
) -> Result<bool> {
    let pending = reports.outlook()?;
    Ok(paths.contains(path) || pending.iter().any(|event| event.first_path() == Some(path)))
}

/// Plays a batch. Of errors it says how many there are.
pub fn play(rt: &impl Eprint, paths: &mut PathSet, report: &DebounceEventResult) -> Result<()> {
    match report {
        Ok(batch) => paths.play(batch.as_slice())?,
        Err(errors) => eprintln!(rt; "{} errors", errors.len())?,
    }
    Ok(())
}

/// Plays what still waits in the book, and says what was lost.
pub fn end(rt: &impl Eprint, paths: &mut PathSet, last: &LastReports) -> Result<()> {
    paths.play(last.book.outlook()?.as_slice())?;
    for error in last.book.core().pending_errors() {
        eprintln!(rt; "{error}")?;
    }
    if last.missed > 0 || last.unsent > 0 {
        eprintln!(rt; "{} missed, {} unsent", last.missed, last.unsent)?;
    }
    Ok(())
}

/// Prints each path on a line of its own.
pub fn print(rt: &impl Print, paths: &PathSet) -> Result<()> {
    for path in &paths.to_list()? {
        println!(rt; "{}", path.as_str())?;
    }
    Ok(())
}
