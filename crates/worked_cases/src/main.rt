//! The program `worked_cases`: it runs each script of some documents, and says which of them print and show
//! what their document says; and it runs each again and again, while one request for memory, read, write
//! or flush after the other goes wrong. `worked_cases DOCUMENT..`. Or it compares answers of the Rust crate:
//! `worked_cases --answers FILE..`.
//!
//! For each script it prints `ok` and which of its commands, counted from 1, ask a debouncer without a
//! cache for no memory; to each script it adds `errors` and a `tick` at the greatest moment. Otherwise it
//! prints what differs. It ends with status 1 if a case differs, a failure isn't told or no document is
//! named, and with 2 if a document can't be read, memory is out or the output fails.
#![tactic(auto)]

mod answers;
mod calls;
mod case;
mod devices;
mod numbers;
mod printed;
mod seen;
mod sorted;
mod subject;
mod sweep;

use calls::CALLS;
use case::Case;
use sorted::SortedCase;
use std::alloc::Global;
use std::io::Write;
use std::process::ExitCode;
use std::{env, fs, io};
use test_fakes::allocator::{Refusing, RefusingHeap};

/// The name and the script of a section of a document: its first line, and its first fenced block.
fn story_of(section: &str) -> Option<(&str, &str)> {
    let (name, text) = section.split_once('\n')?;
    let (_before, text) = text.split_once("```\n")?;
    let (script, _after) = text.split_once("```\n")?;
    Some((name, script))
}

/// What a section says whose script is too long to be run again for each of its requests.
const ONCE: &str = "This script is run once";

/// Checks the case that the section holds, if it holds one, and then its script with each request
/// refused in turn, unless it is run once. Prints a line, and returns whether all was as it should be.
fn check_section<O: Write, E: Write>(
    heap: impl RefusingHeap,
    alloc: Global,
    section: &str,
    out: &mut O,
    err: &mut E,
) -> io::Result<bool> {
    let Some((name, script)) = story_of(section) else {
        return Ok(true);
    };
    if let Some(case) = Case::read(section) {
        if !case.check(alloc, out, err)? {
            return Ok(false);
        }
    }
    if let Some(case) = SortedCase::read(section) {
        if !case.check(alloc, out)? {
            return Ok(false);
        }
    }
    if section.contains(ONCE) {
        writeln!(out, "{name} ok")?;
        return Ok(true);
    }
    let mut note = String::new(alloc);
    if sweep::note(heap, alloc, script, &mut note)? {
        printed::note(heap, alloc, script, &mut note)?;
        writeln!(out, "{name} ok{note}")?;
    }
    Ok(true)
}

/// Checks the sections of a document in turn, and returns whether all was as it should be.
fn check_sections<O: Write, E: Write>(
    heap: impl RefusingHeap,
    alloc: Global,
    document: &str,
    out: &mut O,
    err: &mut E,
) -> io::Result<bool> {
    let mut all_met = true;
    for section in document.split("\n## ") {
        let met = check_section(heap, alloc, section, out, err)?;
        all_met = all_met && met;
    }
    Ok(all_met)
}

/// Refuses each request of the calls that are no commands, and returns whether each said so.
fn check_calls<O: Write>(heap: impl RefusingHeap, out: &mut O) -> io::Result<bool> {
    let mut all_met = true;
    for call in CALLS {
        let met = call.is_refused(heap)?;
        let word = if met { "ok" } else { "differs" };
        writeln!(out, "{} {word}", call.name())?;
        all_met = all_met && met;
    }
    Ok(all_met)
}

fn check_documents(rt: &HostRuntime, names: &[String]) -> io::Result<bool> {
    let heap = Refusing::new(rt.alloc());
    let mut all_met = check_calls(&heap, &mut rt.stdout())?;
    for name in names {
        let document = fs::read_to_string(rt, name.as_str())?;
        let met = check_sections(
            &heap,
            rt.alloc(),
            document.as_str(),
            &mut rt.stdout(),
            &mut rt.stderr(),
        )?;
        all_met = all_met && met;
    }
    Ok(all_met)
}

/// Compares the answers of each file, and returns whether all are the same.
fn compare_files(rt: &HostRuntime, names: &[String]) -> io::Result<bool> {
    let mut all_same = true;
    for name in names {
        let file = fs::read_to_string(rt, name.as_str())?;
        let same = answers::compare(rt.alloc(), file.as_str(), &mut rt.stdout())?;
        all_same = all_same && same;
    }
    Ok(all_same)
}

fn run(rt: &HostRuntime) -> io::Result<bool> {
    let words: Vec<String> = env::args(rt)?.collect(rt.alloc())?;
    match words.as_slice() {
        [_, form, names @ ..] if form.as_str() == "--answers" && !names.is_empty() => {
            compare_files(rt, names)
        }
        [_, names @ ..] if !names.is_empty() => check_documents(rt, names),
        _ => {
            rt.eprintln("usage: worked_cases DOCUMENT.. | --answers FILE..")?;
            Ok(false)
        }
    }
}

fn main(rt: HostRuntime) -> ExitCode {
    match run(&rt) {
        Ok(true) => ExitCode::SUCCESS,
        Ok(false) => ExitCode::from(1),
        Err(_) => {
            let _ = rt.eprintln(
                "worked_cases: a document can't be read, or the output or memory fails",
            );
            ExitCode::from(2)
        }
    }
}
