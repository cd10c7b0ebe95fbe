//! `bench roots FOLDER OTHER`, a program of the gate: it keeps the paths below two folders, of which one may lie in
//! the other, while it watches and unwatches both in turns, until something named `stop` comes into the first, or
//! twenty seconds long. Then it watches both, and prints the paths that it ends with.

use crate::reader::{comes, end, play, print, start, stop_in};
use anyhow::Result;
use notify_debouncer_full::{
    DebouncerRuntime, Error, ErrorKind, PathBuf, RecommendedReports, RecursiveMode,
};
use reader_paths::PathSet;
use std::time::Duration;

/// The folders, and what says that the end has come.
#[derive(Drop)]
struct Roots {
    folder: PathBuf,
    other: PathBuf,
    stop: PathBuf,
}

fn roots_of(rt: &impl AllocGlobal, folder: &str, other: &str) -> Result<Roots> {
    Ok(Roots {
        folder: PathBuf::parse(rt.alloc(), folder)?,
        other: PathBuf::parse(rt.alloc(), other)?,
        stop: stop_in(rt, folder)?,
    })
}

/// A folder that isn't there just now, or isn't watched, is no error.
fn unless_missing(answer: Result<(), Error>) -> Result<()> {
    match answer {
        Err(error)
            if error.kind != ErrorKind::PathNotFound && error.kind != ErrorKind::WatchNotFound => {
            Err(error.into())
        }
        _ => Ok(()),
    }
}

/// Watches or unwatches a folder, in each tenth turn.
fn change_roots(
    reports: &mut RecommendedReports<impl DebouncerRuntime>,
    roots: &Roots,
    turn: u64,
) -> Result<()> {
    let answer = match turn % 60 {
        0 | 30 => reports.watch(&roots.folder, RecursiveMode::Recursive),
        10 | 40 => reports.watch(&roots.other, RecursiveMode::Recursive),
        20 => reports.unwatch(&roots.folder),
        50 => reports.unwatch(&roots.other),
        _ => Ok(()),
    };
    unless_missing(answer)
}

fn follow(
    rt: &impl Eprint,
    reports: &mut RecommendedReports<impl DebouncerRuntime>,
    roots: &Roots,
    paths: &mut PathSet,
) -> Result<()> {
    for turn in 0..10_000 {
        change_roots(reports, roots, turn)?;
        if comes(reports, paths, &roots.stop)? {
            break;
        }
        if let Some(report) = reports.next_within(Duration::from_millis(2)) {
            play(rt, paths, &report)?;
        }
    }
    unless_missing(reports.watch(&roots.folder, RecursiveMode::Recursive))?;
    unless_missing(reports.watch(&roots.other, RecursiveMode::Recursive))
}

/// Keeps the paths below both folders, and prints those that it ends with.
pub fn change_in_turns<R: DebouncerRuntime + AllocGlobal + Print + Eprint>(
    rt: &R,
    folder: &str,
    other: &str,
) -> Result<()> {
    let mut paths = PathSet::new(rt.alloc());
    let roots = roots_of(rt, folder, other)?;
    let mut reports = start(rt)?;
    follow(rt, &mut reports, &roots, &mut paths)?;
    let last = reports.finish();
    for report in &last.queue {
        play(rt, &mut paths, report)?;
    }
    end(rt, &mut paths, &last)?;
    print(rt, &paths)
}
