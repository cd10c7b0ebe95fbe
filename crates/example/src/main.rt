//! The README's example: it watches a folder for ten seconds, and prints what the debouncer emits.
//! `example FOLDER`.
#![tactic(auto)]

use anyhow::{Result, bail};
use notify_debouncer_full::{DebounceEventResult, PathBuf, RecursiveMode, new_debouncer};
use std::time::Duration;
use std::{env, io, thread};

fn print(rt: &HostRuntime, outcome: &DebounceEventResult) -> io::Result<()> {
    match outcome {
        Ok(batch) => {
            for debounced in batch {
                print!(rt; "{}", debounced.event.kind.word())?;
                for path in &debounced.event.paths {
                    print!(rt; " {}", path.as_str())?;
                }
                println!(rt)?;
            }
        }
        Err(errors) => {
            for error in errors {
                eprintln!(rt; "error: {error}")?;
            }
        }
    }
    Ok(())
}

fn main(rt: HostRuntime) -> Result<()> {
    let words: Vec<String> = env::args(&rt)?.collect(rt.alloc())?;
    let [_, folder] = words.as_slice() else {
        bail!("usage: example FOLDER");
    };
    let handler = move |outcome: DebounceEventResult| {
        let _ = print(&rt, &outcome);
    };
    let timeout = Duration::from_millis(200);
    let mut debouncer = new_debouncer(rt, rt.alloc(), timeout, None, handler)?;
    debouncer.watch(
        &PathBuf::parse(rt.alloc(), folder.as_str())?,
        RecursiveMode::Recursive,
    )?;
    thread::sleep(&rt, Duration::from_secs(10)); // the program goes on, and batches are printed
    debouncer.stop();
    Ok(())
}
