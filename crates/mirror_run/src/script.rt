//! Scripts of commands, as the program `mirror` reads them: a timeout, the counts and the paths to
//! start from, and commands, each a line of text.
//!
//! A caller hands a reader to [`read_script`] and gets a [`Script`], or the [`Fault`] that says why it
//! is none. Each fault has an exit status and a line for standard error.
//!
//! ```text
//! let script = read_script(rt.alloc(), &mut reader)?;
//! core.run(script.commands)?;
//! ```
ghost use Rattle.std.specs.Prelude.{◌≡◌, ◌==◌, ◌<◌, ◌∷◌, [], length, position, IfSome, IfNone, IfOk, IfErr, OnOk};
ghost use Rattle.std.specs.Str.Lines.{lines, strip_carriage_return};
ghost use Rattle.mirror_run.specs.Script.Faults.{IsScriptFault};
ghost use Rattle.mirror_run.specs.Script.{said, is_skipped, after_line, nothing_read, Reads, script_of};
ghost use Rattle.mirror_run.specs.Script.ScriptView.{script_value, reading_value, said_next};
ghost use Rattle.mirror_run.specs.declared.script.line.LineFault.TheVariants.{NotCommand};

mod counts;
mod fault;
mod line;
mod reader;

use crate::script::line::{Line, LineFault, read_line};
pub use counts::Counts;
use debounce_model::Command;
pub use fault::Fault;
pub use line::read_number;
use notify_paths::PathBuf;
use notify_types::Moment;
pub use reader::read_script;
use std::alloc::{Allocator, Global};

/// A script.
#[derive(Drop)]
pub struct Script<A: Allocator = Global> {
    pub timeout: Moment,
    /// The counts to start from.
    pub counts: Counts,
    /// The starting set of paths, as listed.
    pub start: Vec<PathBuf<A>, A>,
    pub commands: Vec<Command<A>, A>,
}

/// Which lines may still come.
#[derive(Clone, Copy, PartialEq, Eq)]
enum Stage {
    Timeout,
    Counts,
    Starts,
    Commands,
}

#[derive(Drop)]
struct Reading<A: Allocator> {
    stage: Stage,
    script: Script<A>,
}

impl<A: Allocator + Copy> Reading<A> {
    fn new(alloc: A) -> Reading<A>
        ensures { reading_value result ≡ nothing_read }
    {
        Reading {
            stage: Stage::Timeout,
            script: Script {
                timeout: 0,
                counts: Counts::none(),
                start: Vec::new(alloc),
                commands: Vec::new(alloc),
            },
        }
    }

    /// Takes what a line says.
    fn take(&mut self, line: Line<A>) -> Result<(), LineFault>
        ensures ok { OnOk result (said_next self.old line ≡ Some (reading_value self.new)) }
        ensures err { IfErr result (λ e. e ≡ NotCommand → said_next self.old line ≡ None) }
    {
        match (self.stage, line) {
            (Stage::Timeout, Line::Timeout(timeout)) => {
                self.script.timeout = timeout;
                self.stage = Stage::Counts;
            }
            (Stage::Counts, Line::Counts(counts)) => {
                self.script.counts = counts;
                self.stage = Stage::Starts;
            }
            (Stage::Counts | Stage::Starts, Line::Start(path)) => {
                self.script.start.push(path)?;
                self.stage = Stage::Starts;
            }
            (Stage::Counts | Stage::Starts | Stage::Commands, Line::Command(command)) => {
                self.script.commands.push(command)?;
                self.stage = Stage::Commands;
            }
            _ => return Err(LineFault::NotCommand),
        }
        Ok(())
    }

    /// Takes a line without its end.
    fn take_bytes(&mut self, alloc: A, bytes: &[u8]) -> Result<(), LineFault>
        ensures ok { OnOk result (after_line (reading_value self.old) bytes.now
            ≡ Some (reading_value self.new)) }
        ensures err { IfErr result (λ e. e ≡ NotCommand →
            after_line (reading_value self.old) bytes.now ≡ None) }
    {
        let Ok(line) = str::from_utf8(bytes) else {
            return Err(LineFault::NotCommand);
        };
        if is_skipped(bytes) {
            return Ok(());
        }
        self.take(read_line(alloc, line)?)
    }
}

fn is_skipped(line: &[u8]) -> bool
    ensures { result ≡ is_skipped line.now }
{
    match line {
        [] => true,
        [first, ..] => *first == b'#',
    }
}

/// A line without the carriage return before its line feed.
fn without_return(line: &[u8]) -> &[u8]
    ensures { result.now ≡ strip_carriage_return line.now }
{
    line.strip_suffix(b"\r").unwrap_or(line)
}

fn line_feed(bytes: &[u8]) -> Option<usize>
    ensures { result ≡ position (λ b. b == 10) bytes.now }
{
    bytes.iter().position(|byte| *byte == b'\n')
}

/// The first line without its end, and what follows its line feed.
fn next_line(bytes: &[u8]) -> Option<(&[u8], &[u8])>
    ensures first { IfSome result (λ two. lines bytes.now ≡ two.0.now ∷ lines two.1.now) }
    ensures shorter { IfSome result (λ two. length two.1.now < length bytes.now) }
    ensures empty { IfNone result (lines bytes.now ≡ []) }
{
    if bytes.is_empty() {
        return None;
    }
    match line_feed(bytes) {
        Some(at) => Some((without_return(&bytes[..at]), &bytes[at + 1..])),
        None => Some((bytes, &[])),
    }
}

/// The script that these bytes are. A line feed stands in no character, so the first line that isn't
/// UTF-8 is the one that holds the first byte that fails.
pub(crate) fn script_from<A: Allocator + Copy>(alloc: A, bytes: &[u8]) -> Result<Script<A>, Fault>
    ensures ok { IfOk result (λ script. script_of bytes.now ≡ Reads (script_value script)) }
    ensures err { IfErr result (λ fault. IsScriptFault (script_of bytes.now) fault) }
{
    let mut reading = Reading::new(alloc);
    let mut number = 1;
    let mut rest = bytes;
    while let Some((line, after)) = next_line(rest) {
        rest = after;
        match reading.take_bytes(alloc, line) {
            Ok(()) => number += 1,
            Err(LineFault::NotCommand) => return Err(Fault::NotCommand(number)),
            Err(LineFault::Memory) => return Err(Fault::Memory),
        }
    }
    if reading.stage == Stage::Timeout {
        return Err(Fault::NotCommand(number));
    }
    let Reading { script, .. } = reading;
    Ok(script)
}
