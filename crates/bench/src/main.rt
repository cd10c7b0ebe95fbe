//! The program `bench`: it times the debouncer on workloads of many events, and the watcher that polls on a
//! folder. `bench [N KIND]`; without words it runs every kind of workload on a few events.
//!
//! For each workload it prints `KIND N total_ns per_op_ns` on standard error, and on standard output a
//! line `KIND N CHECKSUM` with a sum over what was emitted, which is the same in each run.
//!
//! `bench rounds|rounds-with-numbers|rounds-without-times N FOLDER` makes N rounds over the folder, and prints the
//! nanoseconds of the fastest.
//!
//! `bench paths FOLDER` and `bench roots FOLDER OTHER` print the paths that a reader keeps of folders that change.
#![tactic(auto)]

mod checksum;
mod events;
mod kind;
mod locked;
mod paths;
mod reader;
mod roots;
mod rounds;
mod workloads;

use anyhow::{Result, bail};
use kind::{KINDS, Kind};
use notify_debouncer_full::DebouncerRuntime;
use paths::keep_paths;
use roots::change_in_turns;
use rounds::{Compared, fastest_round};
use std::env::{self, Env};
use std::process::ExitCode;
use workloads::run_workload;

/// The words that it takes.
const USAGE: &str = "usage: bench [N KIND] | paths FOLDER | roots FOLDER OTHER \
    | rounds|rounds-with-numbers|rounds-without-times N FOLDER";

/// How many events a workload has if the command line doesn't say.
const FEW: u64 = 10_000;

/// The most events that are run.
const MOST: u64 = 100_000_000;

/// What the program asks of its runtime.
trait Runs: DebouncerRuntime + AllocGlobal + Print + Eprint + Env {}

impl<R: DebouncerRuntime + AllocGlobal + Print + Eprint + Env> Runs for R {}

fn run_kind<R: Runs>(rt: &R, kind: Kind, n: u64) -> Result<()> {
    let figures = run_workload(rt, kind, n)?;
    let name = kind.name();
    println!(rt; "{name} {n} {}", figures.checksum)?;
    eprintln!(rt; "{name} {n} {} {}", figures.total, figures.per_operation())?;
    Ok(())
}

fn run_rounds<R: Runs>(rt: &R, n: &str, folder: &str, compared: Compared) -> Result<()> {
    match n.parse::<u64>() {
        Ok(n) if 0 < n && n <= MOST => {
            println!(rt; "{}", fastest_round(rt, folder, n, compared)?)?;
            Ok(())
        }
        _ => bail!("a number of rounds is from 1 to {MOST}"),
    }
}

fn run_asked<R: Runs>(rt: &R, words: &[String]) -> Result<()> {
    match words {
        [] => {
            for kind in KINDS {
                run_kind(rt, kind, FEW)?;
            }
            Ok(())
        }
        [form, folder] if form.as_str() == "paths" => keep_paths(rt, folder.as_str()),
        [form, folder, other] if form.as_str() == "roots" => {
            change_in_turns(rt, folder.as_str(), other.as_str())
        }
        [form, n, folder] => match Compared::from_word(form.as_str()) {
            Some(compared) => run_rounds(rt, n.as_str(), folder.as_str(), compared),
            None => bail!("{USAGE}"),
        },
        [n, kind] => match (n.parse::<u64>(), Kind::from_word(kind.as_str())) {
            (Ok(n), Some(kind)) if 0 < n && n <= MOST => run_kind(rt, kind, n),
            _ => bail!("{USAGE}, with N from 1 to {MOST}"),
        },
        _ => bail!("{USAGE}"),
    }
}

fn run<R: Runs>(rt: &R) -> Result<()> {
    let words: Vec<String> = env::args(rt)?.collect(rt.alloc())?;
    match words.as_slice() {
        [_, words @ ..] => run_asked(rt, words),
        [] => run_asked(rt, &[]),
    }
}

fn main(rt: HostRuntime) -> ExitCode {
    match run(&rt) {
        Ok(()) => ExitCode::SUCCESS,
        Err(error) => {
            let _ = eprintln!(rt; "bench: {error}");
            ExitCode::from(2)
        }
    }
}
