//! Queries and their answers.
ghost use Rattle.std.specs.Prelude.{◌≡◌, ◌&&◌, Some, None, is_ok, is_some, IfOk, OnOk};
ghost use Rattle.std.specs.Io.KnownBytes.{Appends};
ghost use Rattle.document_index.specs.Answered.{Answers, AnswersAll, Query};
ghost use Rattle.document_index.specs.Read.{IsReadAmong};
ghost use Rattle.program_logic.specs.Words.Answer.{answer_to};

use crate::NAME;
use crate::indexer::Indexer;
use notify_debouncer_full::DebouncerRuntime;
use program_frame::{Fault, write_now};
use program_logic::words::write_answer;
use program_reports::FolderReports;
use std::alloc::Global;
use std::io;
use std::io::Write;

/// An index of documents, and where its answers go.
#[derive(Drop)]
pub(crate) struct Service<R: Drop, O: Drop, E: Drop> {
    alloc: Global,
    pub(crate) indexer: Indexer<R, E>,
    out: O,
}

impl<R: DebouncerRuntime + AllocGlobal + Input, O: Write + Drop, E: Write + Drop> Service<R, O, E> {
    /// Returns the service of this index.
    pub(crate) fn new(alloc: Global, indexer: Indexer<R, E>, out: O) -> Service<R, O, E>
        ensures index { result.indexer.kept.index ≡ indexer.kept.index }
        ensures out { result.out ≡ out }
    {
        Service {
            alloc,
            indexer,
            out,
        }
    }

    /// Prints the documents that have the word, in any case: a line each, in the order of their paths.
    pub(crate) fn answer(&mut self, word: &str) -> Result<(), Fault>
        ensures written { OnOk result (Appends (O.contents self.old.out) (O.contents self.new.out)
            (answer_to self.old.indexer.kept.index word.now)) }
        ensures unchanged { self.new.indexer ≡ self.old.indexer }
    {
        write_answer(self.alloc, &self.indexer.kept.index, word, &mut self.out)
    }

    /// Answers the word, of what stands there now, and ends the answer with an empty line.
    pub(crate) fn answer_line(
        &mut self,
        rt: R,
        reports: &mut FolderReports<'_, R, E>,
        word: &str,
    ) -> Result<(), Fault>
        ensures answered { OnOk result (Answers IsReadAmong
            self.old.indexer.documents.folder (Some word.now)
            (record { index = self.old.indexer.kept.index; out = O.contents self.old.out })
            (record { index = self.new.indexer.kept.index; out = O.contents self.new.out })) }
        ensures same { self.new.indexer.documents ≡ self.old.indexer.documents }
    {
        self.indexer.catch_up(rt, reports)?;
        self.answer(word)?;
        write_now(b"\n", &mut self.out)
    }

    /// Answers the line. One that can't be read is said.
    fn take_line(
        &mut self,
        rt: R,
        reports: &mut FolderReports<'_, R, E>,
        line: &io::Result<String>,
    ) -> Result<(), Fault>
        ensures answered { OnOk result ((query : Query) × (is_some query ≡ is_ok line.now)
            × Answers IsReadAmong self.old.indexer.documents.folder query
            (record { index = self.old.indexer.kept.index; out = O.contents self.old.out })
            (record { index = self.new.indexer.kept.index; out = O.contents self.new.out })) }
        ensures same { self.new.indexer.documents ≡ self.old.indexer.documents }
    {
        match line {
            Ok(line) => self.answer_line(rt, reports, line.as_str().trim()),
            Err(error) => self.refuse_line(error),
        }
    }

    /// Says that a line can't be read. Its answer is empty.
    fn refuse_line(&mut self, error: &io::Error) -> Result<(), Fault>
        ensures answered { OnOk result (Answers IsReadAmong
            self.old.indexer.documents.folder None
            (record { index = self.old.indexer.kept.index; out = O.contents self.old.out })
            (record { index = self.new.indexer.kept.index; out = O.contents self.new.out })) }
        ensures same { self.new.indexer.documents ≡ self.old.indexer.documents }
    {
        let _ = writeln!(self.indexer.err, "{NAME}: cannot read a line: {error}");
        write_now(b"\n", &mut self.out)
    }

    /// Answers each line of the standard input, and says whether all could be read. A line that isn't UTF-8 can't;
    /// any other error ends the input.
    pub(crate) fn answer_lines(
        &mut self,
        rt: R,
        reports: &mut FolderReports<'_, R, E>,
    ) -> Result<bool, Fault>
        ensures answered { IfOk result (λ all. AnswersAll IsReadAmong
            self.old.indexer.documents.folder all
            (record { index = self.old.indexer.kept.index; out = O.contents self.old.out })
            (record { index = self.new.indexer.kept.index; out = O.contents self.new.out })) }
    {
        let mut all = true;
        for line in rt.lines(rt.alloc()) {
            self.take_line(rt, reports, &line)?;
            all = still_all(all, &line);
            if is_last(&line) {
                return Ok(all);
            }
        }
        Ok(all)
    }
}

/// Whether this line could be read too.
fn still_all(all: bool, line: &io::Result<String>) -> bool
    ensures { result ≡ (all && is_ok line.now) }
{
    all && line.is_ok()
}

/// Whether no line comes after this one, since the input can't be read any more.
fn is_last(line: &io::Result<String>) -> bool {
    match line {
        Ok(_) => false,
        Err(error) => error.kind() != io::ErrorKind::InvalidData,
    }
}
