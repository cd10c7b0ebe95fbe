//! The run of scripts in threads over readers and writers.
ghost use Rattle.std.specs.Prelude.{◌≡◌, ◌⊎◌, true, false, map, IfErr, IfOk, OnOk};
ghost use Rattle.std.specs.Io.KnownBytes.{Appends};
ghost use Rattle.mirror_threads.specs.Threads.{threads_lines, AreScripts, IsUnread, IsEarlyStatus, IsStop, IsThreadsStatus, IsThreadsStop, PrintsLines};

use crate::replay::is_same;
use crate::scripts::{commands_of, counts_of, read_scripts, timeout_of};
use crate::stop::Stop;
use debounce_model::Command;
use debounce_run::{NoMeet, run_threads};
use mirror_run::Fault;
use notify_paths::ErrorKind;
use notify_types::Moment;
use std::alloc::Allocator;
use std::io::{Read, Write};
use std::sync::Wait;
use std::thread::Threads;

/// Runs the scripts that the readers give, which have these names, each in a thread of its own over one
/// debouncer with no cache; then carries out the journal's commands by one thread, in the journal's
/// order, and compares the replies. Prints how many commands there were, how many of them were events,
/// and whether the replies are the same. A script without a name has the empty one.
///
/// Returns the exit status: 0 if they are the same and all was printed, 1 if a script can't be read, 3
/// if a line is none of a script, also a `counts` line, or if the scripts differ in timeout, 4 if an
/// allocation failed, 6 if the output failed, 7 if the replies differ, 8 if a thread couldn't be
/// started. Nothing is printed if it is 1, 3, 4 or 8.
#[tactic(auto, using(crate::proofs::Statuses::stopped_status, crate::proofs::Statuses::stopped_untouched, crate::proofs::Statuses::stopped_fails, crate::proofs::Statuses::stopped_reads, crate::proofs::Statuses::not_early))]
pub fn threads_run<
    T: Threads + Wait + Sync,
    A: Allocator + Copy + Send + Sync + 'static,
    R: Read,
    O: Write,
    E: Write,
>(rt: &T, alloc: A, names: &[String<A>], readers: &mut [R], out: &mut O, err: &mut E) -> u8
    ensures same { result ≡ 0 →
        PrintsLines (map R.remaining readers.old) (O.contents out.old) (O.contents out.new) true }
    ensures differs { result ≡ 7 →
        PrintsLines (map R.remaining readers.old) (O.contents out.old) (O.contents out.new) false }
    ensures reads { result ≡ 6 → AreScripts (map R.remaining readers.old) }
    ensures fails { result ≡ 3 → IsUnread (map R.remaining readers.old) }
    ensures untouched { IsEarlyStatus result → O.contents out.new ≡ O.contents out.old }
    ensures statuses { IsThreadsStatus result }
    ensures silent { (result ≡ 0) ⊎ (result ≡ 7) → E.contents err.new ≡ E.contents err.old }
{
    match play(rt, alloc, names, readers, out) {
        Ok(true) => 0,
        Ok(false) => 7,
        Err(stop) => {
            stop.write(err);
            stop.status()
        }
    }
}

/// Runs the scripts and prints what comes of it. Answers whether the replies are the same.
fn play<'n, T, A, R, O>(
    rt: &T,
    alloc: A,
    names: &'n [String<A>],
    readers: &mut [R],
    out: &mut O,
) -> Result<bool, Stop<'n>>
where
    T: Threads + Wait + Sync,
    A: Allocator + Copy + Send + Sync + 'static,
    R: Read,
    O: Write,
    ensures ok { IfOk result (PrintsLines (map R.remaining readers.old)
        (O.contents out.old) (O.contents out.new)) }
    ensures err { IfErr result (IsStop (map R.remaining readers.old)
        (O.contents out.old) (O.contents out.new)) }
{
    let scripts = read_scripts(alloc, names, readers)?;
    let timeout = timeout_of(scripts.as_slice())?;
    let (commands, events) = counts_of(scripts.as_slice());
    let Ok(lists) = commands_of(alloc, scripts) else {
        return Err(Stop::Faulty("", Fault::Memory));
    };
    let same = is_replayed(rt, alloc, timeout, lists)?;
    match write_lines(commands, events, same, out) {
        Ok(()) => Ok(same),
        Err(fault) => Err(Stop::Faulty("", fault)),
    }
}

/// Runs the commands in threads. Answers whether they have the same replies by one thread.
fn is_replayed<T: Threads + Wait + Sync, A: Allocator + Copy + Send + Sync + 'static>(
    rt: &T,
    alloc: A,
    timeout: Moment,
    scripts: Vec<Vec<Command<A>, A>, A>,
) -> Result<bool, Stop<'static>>
    ensures { IfErr result IsThreadsStop }
{
    let journal = match run_threads(rt, alloc, timeout, scripts, &NoMeet) {
        Ok(journal) => journal,
        Err(error) => {
            return match error.kind {
                ErrorKind::Full | ErrorKind::Generic(_) => Ok(false),
                ErrorKind::Io(_) => Err(Stop::Faulty("", Fault::NoThread)),
                _ => Err(Stop::Faulty("", Fault::Memory)),
            };
        }
    };
    match is_same(alloc, timeout, journal) {
        Ok(same) => Ok(same),
        Err(fault) => Err(Stop::Faulty("", fault)),
    }
}

/// Prints the three lines of a run.
fn write_lines<O: Write>(commands: u128, events: u128, same: bool, out: &mut O) -> Result<(), Fault>
    ensures ok { OnOk result (Appends (O.contents out.old) (O.contents out.new)
        (threads_lines commands events same)) }
    ensures err { IfErr result (λ fault. fault ≡ Fault.OutputFailed) }
{
    let word = if same { "same" } else { "differs" };
    let Ok(()) = write!(out, "entries {commands}\ntaken {events}\nreplay {word}\n") else {
        return Err(Fault::OutputFailed);
    };
    let Ok(()) = out.flush() else {
        return Err(Fault::OutputFailed);
    };
    Ok(())
}
