//! The program `mirror`: it runs a script of file events on a debouncer, and prints what a reader of
//! its batches sees; or it runs scripts in threads and compares; or it watches a folder, and prints what
//! the debouncer makes of its changes. `mirror SCRIPT`, `mirror --check SCRIPT`,
//! `mirror --threads SCRIPT..`, or `mirror --watch DIR TICKS`.
#![tactic(auto)]

use mirror_run::{Fault, Form, check_run, script_run};
use mirror_threads::{threads_run, watch_run};
use std::fs::File;
use std::io::{ErrorKind, Read};
use std::process::ExitCode;
use std::sync::Wait;
use std::thread::Threads;
use std::{env, io};

/// The script's file, or if it can't be opened a reader that fails.
#[derive(Drop)]
enum Source {
    Opened(File),
    Missing,
}

impl Source {
    fn open(rt: &HostRuntime, name: &str) -> Source {
        match File::open(rt, name) {
            Ok(file) => Source::Opened(file),
            Err(_) => Source::Missing,
        }
    }
}

impl Read for Source {
    fn read(&mut self, buf: &mut [u8]) -> io::Result<usize> {
        match self {
            Source::Opened(file) => file.read(buf),
            Source::Missing => Err(io::Error::from(ErrorKind::NotFound)),
        }
    }
}

/// Runs a script of this name. Returns the status.
fn run(rt: &HostRuntime, name: &str) -> u8 {
    let mut source = Source::open(rt, name);
    script_run(
        rt.alloc(),
        name,
        &mut source,
        &mut rt.stdout(),
        &mut rt.stderr(),
    )
}

/// Runs a script of this name, and checks its stream. Returns the status.
fn check(rt: &HostRuntime, name: &str) -> u8 {
    let mut source = Source::open(rt, name);
    check_run(
        rt.alloc(),
        name,
        &mut source,
        &mut rt.stdout(),
        &mut rt.stderr(),
    )
}

/// Runs the scripts that the words after the first name, each in a thread. Returns the status.
fn run_in_threads<T: Threads + Wait + Sync>(rt: &HostRuntime, threads: &T, words: &[String]) -> u8 {
    let names = after_first(words);
    let mut sources = Vec::new(rt.alloc());
    for name in names {
        let Ok(()) = sources.push(Source::open(rt, name.as_str())) else {
            return refuse(rt, Fault::Memory);
        };
    }
    threads_run(
        threads,
        rt.alloc(),
        names,
        sources.as_mut_slice(),
        &mut rt.stdout(),
        &mut rt.stderr(),
    )
}

/// Writes the fault's line, and returns its status.
fn refuse(rt: &HostRuntime, fault: Fault) -> u8 {
    let _ = fault.write("", &mut rt.stderr());
    fault.status()
}

/// The program's words, its name first.
fn words_of(rt: &HostRuntime) -> Result<Vec<String>, Fault> {
    match env::args(rt) {
        Ok(words) => Ok(words.collect(rt.alloc())?),
        Err(error) if error.kind() == ErrorKind::InvalidData => Err(Fault::NotUtf8),
        Err(_) => Err(Fault::Memory),
    }
}

/// What follows the first word, if anything does.
fn after_first(words: &[String]) -> &[String] {
    match words {
        [_, words @ ..] => words,
        [] => words,
    }
}

fn main(rt: HostRuntime) -> ExitCode {
    let words = match words_of(&rt) {
        Ok(words) => words,
        Err(fault) => return ExitCode::from(refuse(&rt, fault)),
    };
    let words = after_first(words.as_slice());
    let status = match Form::of(words) {
        Some(Form::Run(name)) => run(&rt, name),
        Some(Form::Check(name)) => check(&rt, name),
        Some(Form::Watch(folder, ticks)) => {
            let (mut out, mut err) = (rt.stdout(), rt.stderr());
            watch_run(rt, rt.alloc(), folder, ticks, &mut out, &mut err)
        }
        Some(Form::Threads) => run_in_threads(&rt, &rt, words),
        None => refuse(&rt, Fault::Usage),
    };
    ExitCode::from(status)
}
