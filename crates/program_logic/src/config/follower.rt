//! A program that reads a file again whenever a report may be about it.
ghost use Rattle.std.specs.Prelude.{◌≡◌, ◌==◌, Ok, true, false, not, IfErr, IfOk, MatchResult};
ghost use Rattle.std.specs.List.{list_any};
ghost use Rattle.program_logic.specs.Config.Followed.{Reads, ReadsIf, following};
ghost use Rattle.program_logic.specs.Config.Touched.{touches};

use crate::config::files::ReadsText;
use crate::config::reading::take_reading;
use crate::config::reloader::Reloader;
use crate::config::touched::is_touched;
use notify_paths::PathBuf;
use notify_watch::DebounceEventResult;
use program_frame::reports::TakesReports;
use program_frame::{Fault, write_errors, write_watching};
use std::alloc::Global;
use std::io::Write;
use std::time::Duration;

/// The file, what is in force, and where the program prints.
#[derive(Drop)]
pub struct Follower<'n, F: Drop, O: Drop, E: Drop> {
    /// Where what is printed is allocated.
    pub alloc: Global,
    /// The program's name, for what it says on `err`.
    pub name: &'n str,
    /// What reads the file.
    pub files: F,
    /// The file, as events name it.
    pub file: PathBuf,
    /// What is in force.
    pub reloader: Reloader,
    /// Where it prints what became of each reading.
    pub out: O,
    /// Where the errors of the watcher are said.
    pub err: E,
}

impl<F: ReadsText, O: Write + Drop, E: Write + Drop> Follower<'_, F, O, E> {
    /// Reads the file again if the batch may be about it, or prints a line for each error. After an error
    /// the watcher looks again, so no change is lost by one.
    fn follow(&mut self, report: &DebounceEventResult) -> Result<(), Fault>
        ensures touched { IfOk report.now (λ batch.
            list_any (touches self.old.file) batch.items ≡ true → Reads F.gives self.old.file
            (following self.old.files self.old.reloader (O.contents self.old.out)) result
            (following self.new.files self.new.reloader (O.contents self.new.out))) }
        ensures apart { IfOk report.now (λ batch.
            list_any (touches self.old.file) batch.items ≡ false → (result ≡ Ok tt)
            × (following self.new.files self.new.reloader (O.contents self.new.out)
            ≡ following self.old.files self.old.reloader (O.contents self.old.out))) }
        ensures errors { IfErr report.now (λ _. (result ≡ Ok tt)
            × (following self.new.files self.new.reloader (O.contents self.new.out)
            ≡ following self.old.files self.old.reloader (O.contents self.old.out))) }
        ensures same { self.new.file ≡ self.old.file }
    {
        match report {
            Ok(batch) if is_touched(batch.as_slice(), &self.file) => self.read(),
            Ok(_) => Ok(()),
            Err(errors) => {
                write_errors(errors.as_slice(), self.name, &mut self.err);
                Ok(())
            }
        }
    }

    /// Reads the file, and prints what became of it: what it gives is in force from then on, or refused.
    pub fn read(&mut self) -> Result<(), Fault>
        ensures read { Reads F.gives self.old.file
            (following self.old.files self.old.reloader (O.contents self.old.out)) result
            (following self.new.files self.new.reloader (O.contents self.new.out)) }
        ensures same { self.new.file ≡ self.old.file }
    {
        let reading = self.files.read(&self.file);
        take_reading(self.alloc, &mut self.reloader, reading, &mut self.out)
    }

    /// Does so if it is asked for.
    fn read_if(&mut self, asked: bool) -> Result<(), Fault>
        ensures read { ReadsIf F.gives self.old.file asked
            (following self.old.files self.old.reloader (O.contents self.old.out)) result
            (following self.new.files self.new.reloader (O.contents self.new.out)) }
        ensures same { self.new.file ≡ self.old.file }
    {
        if asked {
            return self.read();
        }
        Ok(())
    }

    /// Reads the file if so many events, errors and batches were lost, and that is not none.
    pub fn read_if_missed(&mut self, missed: u64) -> Result<(), Fault>
        ensures read { ReadsIf F.gives self.old.file (not (missed == 0))
            (following self.old.files self.old.reloader (O.contents self.old.out)) result
            (following self.new.files self.new.reloader (O.contents self.new.out)) }
    {
        self.read_if(missed != 0)
    }
}

impl<F: ReadsText, O: Write + Drop, E: Write + Drop> TakesReports for Follower<'_, F, O, E> {
    // The file is the same, and is read at first, and after each report that asks for it.
    ghost begins = { λ old answer new. (new.file ≡ old.file)
        × ReadsIf F.gives old.file true
        (following old.files old.reloader (O.contents old.out)) answer
        (following new.files new.reloader (O.contents new.out)) };

    ghost takes = { λ old report answer new. (new.file ≡ old.file)
        × MatchResult report
        (λ batch. (list_any (touches old.file) batch.items ≡ true → Reads F.gives old.file
        (following old.files old.reloader (O.contents old.out)) answer
        (following new.files new.reloader (O.contents new.out)))
        × (list_any (touches old.file) batch.items ≡ false → (answer ≡ Ok tt)
        × (following new.files new.reloader (O.contents new.out)
        ≡ following old.files old.reloader (O.contents old.out))))
        (λ _. (answer ≡ Ok tt)
        × (following new.files new.reloader (O.contents new.out)
        ≡ following old.files old.reloader (O.contents old.out))) };

    ghost passes = { λ old answer new. (new.file ≡ old.file)
        × ReadsIf F.gives old.file false
        (following old.files old.reloader (O.contents old.out)) answer
        (following new.files new.reloader (O.contents new.out)) };

    /// Reads the file for the first time. The watch came first: what changes after this is reported.
    fn begin(&mut self) -> Result<(), Fault> {
        let _ = write_watching(self.file.as_str(), self.name, &mut self.err);
        self.read()
    }

    fn take(&mut self, report: DebounceEventResult) -> Result<(), Fault> {
        self.follow(&report)
    }

    fn patience(&self) -> Option<Duration> {
        None
    }

    fn pass(&mut self) -> Result<(), Fault> {
        Ok(())
    }
}
