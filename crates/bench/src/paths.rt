//! `bench paths FOLDER`, the tutorial's second program: it keeps the paths of a folder for ten seconds, or until
//! something named `stop` comes there. It prints them after each batch, and at the end.

use crate::reader::{comes, end, play, print, start, stop_in};
use anyhow::Result;
use notify_debouncer_full::{
    DebounceEventResult, DebouncerRuntime, PathBuf, RecommendedReports, RecursiveMode,
};
use reader_paths::PathSet;
use std::time::Duration;

fn print_all(rt: &impl Print, paths: &PathSet) -> Result<()> {
    print(rt, paths)?;
    println!(rt; "--")?;
    Ok(())
}

fn follow(
    rt: &(impl Print + Eprint),
    paths: &mut PathSet,
    report: &DebounceEventResult,
) -> Result<()> {
    play(rt, paths, report)?;
    if report.is_ok() {
        print_all(rt, paths)?;
    }
    Ok(())
}

fn mirror(
    rt: &(impl Print + Eprint),
    reports: &mut RecommendedReports<impl DebouncerRuntime>,
    paths: &mut PathSet,
    stop: &PathBuf,
) -> Result<()> {
    for _ in 0..5000 {
        if comes(reports, paths, stop)? {
            break;
        }
        if let Some(report) = reports.next_within(Duration::from_millis(2)) {
            follow(rt, paths, &report)?;
        }
    }
    Ok(())
}

/// Keeps the paths of the folder, and prints them.
pub fn keep_paths<R: DebouncerRuntime + AllocGlobal + Print + Eprint>(
    rt: &R,
    folder: &str,
) -> Result<()> {
    let mut paths = PathSet::new(rt.alloc());
    let stop = stop_in(rt, folder)?;
    let mut reports = start(rt)?;
    reports.watch(
        &PathBuf::parse(rt.alloc(), folder)?,
        RecursiveMode::Recursive,
    )?;
    mirror(rt, &mut reports, &mut paths, &stop)?;
    let last = reports.finish();
    for report in &last.queue {
        follow(rt, &mut paths, report)?;
    }
    end(rt, &mut paths, &last)?;
    print_all(rt, &paths)
}
