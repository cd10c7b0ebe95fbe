//! One case of the document, and its run.
ghost use Rattle.std.specs.Prelude.{◌≡◌, ◌↔◌, IsTrue};

use crate::seen::show_run;
use mirror_run::{check_run, script_run};
use std::alloc::Global;
use std::io;
use std::io::Write;

/// A case: its name, the script, what the script is to print, the two lines that `--check` is to add, and
/// what a core is to show. Without these lines the script isn't checked, or no core shows it.
#[derive(Clone, Copy)]
pub struct Case<'a> {
    name: &'a str,
    script: &'a str,
    prints: &'a str,
    checks: &'a str,
    shows: &'a str,
}

impl<'a> Case<'a> {
    /// Returns the case that a section of the document holds. Its first line is the name; the script
    /// and what it prints are two fenced blocks with the word `prints` between them; the lines of
    /// `--check`, and what a core shows, are further ones. A section with other blocks has no script to
    /// run.
    pub fn read(section: &'a str) -> Option<Case<'a>> {
        let (name, text) = section.split_once('\n')?;
        let (_before, text) = text.split_once("```\n")?;
        let (script, text) = text.split_once("```\n\nprints\n\n```\n")?;
        let (prints, text) = text.split_once("```\n")?;
        Some(Case {
            name,
            script,
            prints,
            checks: read_block(text, "with `--check` also").unwrap_or(""),
            shows: read_block(text, "a core shows").unwrap_or(""),
        })
    }

    /// Runs the script, and returns true if it prints what it should and a core shows what it should; or
    /// prints the case's name and both texts, and returns false.
    pub fn check<O: Write, E: Write>(
        self,
        alloc: Global,
        out: &mut O,
        err: &mut E,
    ) -> io::Result<bool> {
        let printed = self.check_printed(alloc, out, err)?;
        let shown = self.check_shown(alloc, out)?;
        Ok(printed && shown)
    }

    fn check_printed<O: Write, E: Write>(
        self,
        alloc: Global,
        out: &mut O,
        err: &mut E,
    ) -> io::Result<bool> {
        let mut printed = Vec::new(alloc);
        let mut script = self.script.as_bytes();
        let status = if self.checks.is_empty() {
            script_run(alloc, self.name, &mut script, &mut printed, err)
        } else {
            check_run(alloc, self.name, &mut script, &mut printed, err)
        };
        let mut wanted = String::from_str(alloc, self.prints)?;
        wanted.push_str(self.checks)?;
        self.report(status, wanted.as_str(), printed.as_slice(), out)
    }

    fn check_shown<O: Write>(self, alloc: Global, out: &mut O) -> io::Result<bool> {
        if self.shows.is_empty() {
            return Ok(true);
        }
        let mut shown = String::new(alloc);
        show_run(alloc, self.script, &mut shown)?;
        self.report(0, self.shows, shown.as_bytes(), out)
    }

    fn report<O: Write>(
        self,
        status: u8,
        wanted: &str,
        printed: &[u8],
        out: &mut O,
    ) -> io::Result<bool> {
        let met = is_met(status, wanted, printed);
        if !met {
            writeln!(out, "{} ends with status {status}. Wanted:", self.name)?;
            out.write_all(wanted.as_bytes())?;
            writeln!(out, "Printed:")?;
            out.write_all(printed)?;
        }
        Ok(met)
    }
}

/// Whether a run with this exit status and output is the one that is wanted.
fn is_met(status: u8, wanted: &str, printed: &[u8]) -> bool
    ensures { IsTrue result ↔ ((status ≡ 0) × (printed.now ≡ wanted.now)) }
{
    status == 0 && printed == wanted.as_bytes()
}

/// The block after these words in what follows a case's output.
fn read_block<'a>(text: &'a str, words: &str) -> Option<&'a str> {
    let (_before, text) = text.split_once(words)?;
    let text = text.strip_prefix("\n\n```\n")?;
    let (block, _after) = text.split_once("```\n")?;
    Some(block)
}
