//! A program, from its words to its exit status.
ghost use Rattle.std.specs.Prelude.{◌≡◌, ◌⊎◌, ℕ, List, map};
ghost use Rattle.std.specs.Fn.{FnOnceReturns, FnOnceReturnsAt};
ghost use Rattle.std.specs.String.{string_bytes};
ghost use Rattle.program_frame.specs.Words.{EndsAt};

use crate::ends::end;
use crate::fault::Fault;
use crate::words::{check_hint_words, matches_of, place_of, words_of};
use clap::{ArgMatches, Command};
use std::alloc::{AllocError, Global};
use std::io::Write;
use std::rt::Env;

/// Reads the program's words by its command line, and calls `run` with them, once. Returns the exit
/// status: that of the run, or 0 for help and the version, 2 if the words don't fit and 4 if an allocation
/// failed. In these three cases what there is to say is printed, and `run` isn't called. The line of a fault
/// is written to `err`.
pub fn run_with_words<
    R: Env + AllocGlobal + Print + Eprint,
    E: Write,
    L: FnOnce(Global, &str) -> Result<Command<'_>, AllocError>,
    F: FnOnce(&ArgMatches<'_>) -> Result<(), Fault>,
>(rt: &R, name: &str, line: L, err: &mut E, run: F) -> u8
    requires ready { L.IsAlwaysCallable line × F.IsAlwaysCallable run }
    // The words can't be read, or are these.
    ensures status { ((result ≡ 2) ⊎ (result ≡ 4)) ⊎ ((words : List (List ℕ)) × (asked : _)
        × (command : _) × FnOnceReturns L.FnOnce line asked command
        × EndsAt command words (FnOnceReturnsAt F.FnOnce run) result) }
{
    match words_of(rt) {
        Ok(words) => run_words(rt, name, line(rt.alloc(), name), words.as_slice(), err, run),
        Err(fault) => end(Err(fault), name, "", err),
    }
}

/// Reads these words by this command line, as [`run_with_words`] does those of the program.
pub fn run_words<'a, R: Print + Eprint, E: Write, F: FnOnce(&ArgMatches<'_>) -> Result<(), Fault>>(
    rt: &R,
    name: &str,
    command: Result<Command<'a>, AllocError>,
    words: &'a [String],
    err: &mut E,
    run: F,
) -> u8
    requires ready { F.IsAlwaysCallable run }
    ensures { EndsAt command.entry (map string_bytes words.entry.now)
        (FnOnceReturnsAt F.FnOnce run) result }
{
    let matches = match matches_of(rt, command, words) {
        Ok(matches) => matches,
        Err(status) => return status,
    };
    let checked = check_hint_words(&matches);
    if checked.is_err() {
        return end(checked, name, place_of(&matches), err);
    }
    let ran = run(&matches);
    end(ran, name, place_of(&matches), err)
}
