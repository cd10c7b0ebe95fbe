//! Answers of the Rust crate to random scripts. Each script is carried out again, and what is printed of it is
//! compared with the answer. The head of scripts/answers.py says what a line of their file is.
mod map_calls;
mod numbered;
mod signs;
mod walk;

use hex::encode;
use mirror_run::script_run;
use sha2::{Digest, Sha256};
use signs::Signs;
use std::alloc::{AllocError, Global};
use std::io;
use std::io::Write;

/// How many answers that differ are shown.
const SHOWN: usize = 3;

/// How many digits of a digest an answer has.
const DIGITS: usize = 16;

/// Compares the answers of a file. Prints the first that differ, and how many are the same; and returns
/// whether all are.
pub fn compare<O: Write>(alloc: Global, file: &str, out: &mut O) -> io::Result<bool> {
    let Some((head, answers)) = file.split_once("\n\n") else {
        writeln!(out, "no answers")?;
        return Ok(false);
    };
    let signs = Signs::read(alloc, head)?;
    compare_all(alloc, &signs, answers, out)
}

fn compare_all<O: Write>(
    alloc: Global,
    signs: &Signs<'_>,
    answers: &str,
    out: &mut O,
) -> io::Result<bool> {
    let mut same: usize = 0;
    let mut others: usize = 0;
    for answer in answers.lines() {
        if is_same(alloc, signs, answer)? {
            same = same.saturating_add(1);
            continue;
        }
        if others < SHOWN {
            show(alloc, signs, answer, out)?;
        }
        others = others.saturating_add(1);
    }
    writeln!(out, "{same} answers are the same, {others} differ")?;
    Ok(others == 0 && 0 < same)
}

/// Whether the answer is what is printed of its script.
fn is_same(alloc: Global, signs: &Signs<'_>, answer: &str) -> Result<bool, AllocError> {
    let Some((digest, script)) = answer.split_once(' ') else {
        return Ok(false);
    };
    let script = signs.spelled_out(alloc, script)?;
    let printed = printed_of(alloc, script.as_str())?;
    let whole = encode(alloc, Sha256::digest(printed.as_slice()))?;
    Ok(digest.len() == DIGITS && whole.as_str().starts_with(digest))
}

/// Prints the script of an answer, and what is printed of it.
fn show<O: Write>(alloc: Global, signs: &Signs<'_>, answer: &str, out: &mut O) -> io::Result<()> {
    let (_digest, script) = answer.split_once(' ').unwrap_or(("", answer));
    let script = signs.spelled_out(alloc, script)?;
    writeln!(
        out,
        "The Rust crate's answer is another of\n{script}\nPrinted:"
    )?;
    let printed = printed_of(alloc, script.as_str())?;
    out.write_all(printed.as_slice())
}

/// What is printed of the script.
fn printed_of(alloc: Global, script: &str) -> Result<Vec<u8>, AllocError> {
    match script.split_once('\n') {
        Some(("numbers", commands)) => Ok(numbered::carried_out(alloc, commands)?.into_bytes()),
        Some(("calls", calls)) => Ok(map_calls::carried_out(alloc, calls)?.into_bytes()),
        _ => Ok(printed_by_mirror(alloc, script)),
    }
}

/// What the program `mirror` prints of the script.
fn printed_by_mirror(alloc: Global, script: &str) -> Vec<u8> {
    let mut out = Vec::new(alloc);
    let mut err = Vec::new(alloc);
    let mut reader = script.as_bytes();
    match script_run(alloc, "script", &mut reader, &mut out, &mut err) {
        0 => out,
        _ => err,
    }
}
