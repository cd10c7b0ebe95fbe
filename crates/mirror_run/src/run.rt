//! The run of a script over a reader and two writers.
ghost use Rattle.std.specs.Prelude.{◌≡◌, ◌⊎◌, IfSome, OnOk, IfErr};
ghost use Rattle.mirror_run.specs.Script.ScriptView.{IsScript, IsFaulty};
ghost use Rattle.mirror_run.specs.declared.transcript.Report.TheVariants.{Plain, Check};
ghost use Rattle.mirror_run.specs.Ending.{IsStopped, status_of, IsRunStatus};
ghost use Rattle.mirror_run.specs.Transcript.{PrintsRun, BeginsRun, StopsRun};

use crate::play::play_script;
use crate::script::{Fault, read_script};
use crate::transcript::Report;
use std::alloc::Allocator;
use std::io::{Read, Write};

/// Runs the script that the reader gives, on a debouncer with no cache, and prints its transcript.
/// Returns the exit status: 0 if all was printed, 1 if the script can't be read, 3 if a line is none
/// of a script, 4 if an allocation failed, 6 if the output failed.
///
/// The script is read whole before its first command. A command that is refused is printed as
/// refused, and the run goes on.
pub fn script_run<A: Allocator + Copy, R: Read, O: Write, E: Write>(
    alloc: A,
    name: &str,
    reader: &mut R,
    out: &mut O,
    err: &mut E,
) -> u8
    ensures prints { result ≡ 0 →
        PrintsRun Plain (R.remaining reader.old) (O.contents out.old) (O.contents out.new) }
    ensures begins { result ≡ 6 →
        BeginsRun Plain (R.remaining reader.old) (O.contents out.old) (O.contents out.new) }
    ensures stops { result ≡ 4 →
        StopsRun Plain (R.remaining reader.old) (O.contents out.old) (O.contents out.new) }
    ensures untouched { (result ≡ 1) ⊎ (result ≡ 3) → O.contents out.new ≡ O.contents out.old }
    ensures reads { (result ≡ 0) ⊎ (result ≡ 6) → IfSome (R.remaining reader.old) IsScript }
    ensures fails { result ≡ 3 → IfSome (R.remaining reader.old) IsFaulty }
    ensures statuses { IsRunStatus result }
    ensures silent { (result ≡ 0) ⊎ (result ≡ 6) → E.contents err.new ≡ E.contents err.old }
{
    let run = play(alloc, Report::Plain, reader, out);
    end_run(run, name, err)
}

/// Runs the script as [`script_run`] does, and prints two lines more: whether the stream was honest,
/// from the script's paths on, and whether its moments never fell. The statuses are those of
/// [`script_run`].
pub fn check_run<A: Allocator + Copy, R: Read, O: Write, E: Write>(
    alloc: A,
    name: &str,
    reader: &mut R,
    out: &mut O,
    err: &mut E,
) -> u8
    ensures prints { result ≡ 0 →
        PrintsRun Check (R.remaining reader.old) (O.contents out.old) (O.contents out.new) }
    ensures begins { result ≡ 6 →
        BeginsRun Check (R.remaining reader.old) (O.contents out.old) (O.contents out.new) }
    ensures stops { result ≡ 4 →
        StopsRun Check (R.remaining reader.old) (O.contents out.old) (O.contents out.new) }
    ensures untouched { (result ≡ 1) ⊎ (result ≡ 3) → O.contents out.new ≡ O.contents out.old }
    ensures reads { (result ≡ 0) ⊎ (result ≡ 6) → IfSome (R.remaining reader.old) IsScript }
    ensures fails { result ≡ 3 → IfSome (R.remaining reader.old) IsFaulty }
    ensures statuses { IsRunStatus result }
    ensures silent { (result ≡ 0) ⊎ (result ≡ 6) → E.contents err.new ≡ E.contents err.old }
{
    let run = play(alloc, Report::Check, reader, out);
    end_run(run, name, err)
}

/// Reads the script whole, and plays it.
fn play<A: Allocator + Copy, R: Read, O: Write>(
    alloc: A,
    report: Report,
    reader: &mut R,
    out: &mut O,
) -> Result<(), Fault>
    ensures ok { OnOk result (PrintsRun report (R.remaining reader.old) (O.contents out.old)
        (O.contents out.new)) }
    ensures err { IfErr result (IsStopped report (R.remaining reader.old) (O.contents out.old)
        (O.contents out.new)) }
{
    let script = read_script(alloc, reader)?;
    play_script(alloc, report, script, out)
}

/// Ends a run: writes the line of a fault, and returns the exit status.
pub fn end_run<E: Write>(run: Result<(), Fault>, name: &str, err: &mut E) -> u8
    ensures status { result ≡ status_of run }
    ensures silent { (result ≡ 0) ⊎ (result ≡ 6) → E.contents err.new ≡ E.contents err.old }
{
    match run {
        Ok(()) => 0,
        Err(fault) => {
            let _ = fault.write(name, err);
            fault.status()
        }
    }
}
