//! The program `change_journal`: it prints each change below some folders, as the debouncer emits it, until
//! it is stopped. docs/PROGRAMS.md has its page.
#![tactic(auto)]

ghost use Rattle.std.specs.Prelude.{◌≡◌, ◌⊎◌, map, IfErr, OnOk};
ghost use Rattle.program_reports.specs.Folders.Start.{IsStartFault};
ghost use Rattle.program_logic.specs.Journal.KeptView.{filter_rule};
ghost use Rattle.program_logic.specs.Journal.Printed.{WritesAll, WritesSome};
ghost use Rattle.notify_paths.specs.PathText.{parts_of};
ghost use Rattle.notify_types.specs.declared.event.RecursiveMode.TheVariants.{Recursive};
ghost use Rattle.program_reports.specs.FollowsFolder.{OfReports, folder_source};
ghost use Rattle.program_reports.specs.WholeProgram.{IsPace};
ghost use Rattle.program_frame.specs.declared.pace.Pace.{Pace};
ghost use Rattle.program_frame.specs.Words.{places_in};

mod words;

use clap::ArgMatches;
use notify_debouncer_full::{DebouncerRuntime, RecursiveMode};
use program_frame::{
    ClosedPaths, Complaints, Fault, folders_of, pace_of, places_of, run_with_words, write_missed,
};
use program_logic::journal::{Journal, PathFilter, Patterns, Printer};
use program_reports::follow_folders;
use std::io::Write;
use std::process::ExitCode;
use words::{NAME, command_line, form_of, patterns_of};

/// Watches the folders, and prints of them what passes the patterns.
fn run<R: DebouncerRuntime + AllocGlobal, O: Write + Drop, E: Write + Drop>(
    rt: R,
    matches: &ArgMatches<'_>,
    out: O,
    mut err: E,
    complaints: Complaints<'_, E>,
) -> Result<(), Fault> {
    let (include, exclude) = patterns_of(matches);
    let patterns = match Patterns::parse(rt.alloc(), include, exclude) {
        Ok(patterns) => patterns,
        Err(fault) => return Err(fault.say(NAME, &mut err)),
    };
    let filter: PathFilter<'_> = patterns.filter(rt.alloc())?;
    let mut printer = Printer {
        clock: rt,
        alloc: rt.alloc(),
        name: NAME,
        places: places_of(rt.alloc(), matches)?,
        journal: Journal::new(form_of(matches)),
        filter,
        out,
        err,
    };
    watch(rt, matches, complaints, &mut printer)
}

/// Watches the folders that the words name, and prints the journal of them.
fn watch<R: DebouncerRuntime + AllocGlobal, O: Write + Drop, E: Write + Drop>(
    rt: R,
    matches: &ArgMatches<'_>,
    complaints: Complaints<'_, E>,
    printer: &mut Printer<'_, '_, R, O, E>,
) -> Result<(), Fault>
    // Of the reports of these folders, at the pace that the words say.
    ensures written { OnOk result ((pace : Pace) × IsPace matches.now pace
        × OfReports pace (map parts_of (places_in matches.now)) Recursive
        (λ s. WritesAll folder_source s printer.old.journal.form
        (filter_rule printer.old.filter) printer.old.journal.next (O.contents printer.old.out)
        (O.contents printer.new.out))) }
    // The folders couldn't be watched; or it is so of what was reported until the fault came.
    ensures begun { IfErr result (λ fault.
        (IsStartFault fault × (O.contents printer.new.out ≡ O.contents printer.old.out))
        ⊎ ((pace : Pace) × IsPace matches.now pace
        × OfReports pace (map parts_of (places_in matches.now)) Recursive
        (λ s. WritesSome folder_source s printer.old.journal.form
        (filter_rule printer.old.filter) printer.old.journal.next (O.contents printer.old.out)
        (O.contents printer.new.out)))) }
{
    let folders = folders_of(rt.alloc(), matches)?;
    let (mode, pace) = (RecursiveMode::Recursive, pace_of(matches));
    let missed = follow_folders(rt, folders.as_slice(), mode, pace, complaints, printer)?;
    write_missed(missed, NAME, &mut printer.err);
    Ok(())
}

fn main(rt: HostRuntime) -> ExitCode {
    let closed = ClosedPaths::new();
    let status = run_with_words(&rt, NAME, command_line, &mut rt.stderr(), |matches| {
        let complaints = Complaints::new(NAME, rt.stderr()).counting(&closed);
        closed.end(run(rt, matches, rt.stdout(), rt.stderr(), complaints))
    });
    ExitCode::from(status)
}
