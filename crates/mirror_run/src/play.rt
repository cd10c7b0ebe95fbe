//! A script on a debouncer: its commands are run, and what comes of them is printed.
ghost use Rattle.std.specs.Prelude.{◌≡◌, ◌⊎◌, [], None, OnOk, IfOk, IfErr};
ghost use Rattle.debounce_model.specs.State.{counted_state};
ghost use Rattle.debounce_model.specs.CommandView.{command_values};
ghost use Rattle.reader_paths.specs.Played.{with_paths};
ghost use Rattle.mirror_run.specs.PlayedView.{IsPlayed, IsCarriedOut};
ghost use Rattle.mirror_run.specs.Transcript.{IsPrinted, BeginsOrNot};

use crate::script::{Counts, Fault, Script};
use crate::transcript::{Played, Report, print_run};
use debounce_cache::NoCache;
use debounce_core::DebounceDataInner;
use debounce_model::{Command, clone_commands};
use notify_paths::PathBuf;
use notify_types::Moment;
use reader_paths::PathSet;
use std::alloc::Allocator;
use std::io::Write;

/// Runs the script's commands on a debouncer with no cache, which goes on from the script's counts,
/// and prints the run.
pub(crate) fn play_script<A: Allocator + Copy, O: Write>(
    alloc: A,
    report: Report,
    script: Script<A>,
    out: &mut O,
) -> Result<(), Fault>
    ensures ok { OnOk result (IsPrinted report (IsPlayed script) (O.contents out.old)
        (O.contents out.new)) }
    ensures begun { IfErr result (BeginsOrNot report (IsPlayed script) (O.contents out.old)
        (O.contents out.new)) }
    ensures err { IfErr result (λ e. (e ≡ Fault.Memory) ⊎ (e ≡ Fault.OutputFailed)) }
{
    let Script {
        timeout,
        counts,
        start,
        commands,
    } = script;
    let mut core = opening(alloc, timeout, counts);
    play_from(report, &mut core, start, commands, out)
}

/// The debouncer that a script opens with.
fn opening<A: Allocator + Copy>(
    alloc: A,
    timeout: Moment,
    counts: Counts,
) -> DebounceDataInner<NoCache, A>
    ensures state { result.state ≡ counted_state timeout counts.taken counts.given }
    ensures answer { result.answer ≡ None }
{
    let Counts { taken, given } = counts;
    DebounceDataInner::with_counts(alloc, NoCache::new(), timeout, taken, given)
}

/// Runs the commands on the debouncer, and prints the run from the set of these paths on.
fn play_from<A: Allocator + Copy, O: Write>(
    report: Report,
    core: &mut DebounceDataInner<NoCache, A>,
    start: Vec<PathBuf<A>, A>,
    commands: Vec<Command<A>, A>,
    out: &mut O,
) -> Result<(), Fault>
    ensures ok { OnOk result
        (IsPrinted report
        (IsCarriedOut core.old (with_paths [] start.items) commands.items core.new)
        (O.contents out.old) (O.contents out.new)) }
    ensures begun { IfErr result
        (BeginsOrNot report
        (IsCarriedOut core.old (with_paths [] start.items) commands.items core.new)
        (O.contents out.old) (O.contents out.new)) }
    ensures err { IfErr result (λ e. (e ≡ Fault.Memory) ⊎ (e ≡ Fault.OutputFailed)) }
{
    let start = PathSet::from_paths(*commands.allocator(), start)?;
    play_commands(report, core, &start, commands, out)
}

/// Runs the commands on the debouncer, and prints the run.
fn play_commands<A: Allocator + Copy, O: Write>(
    report: Report,
    core: &mut DebounceDataInner<NoCache, A>,
    start: &PathSet<A>,
    commands: Vec<Command<A>, A>,
    out: &mut O,
) -> Result<(), Fault>
    ensures ok { OnOk result
        (IsPrinted report (IsCarriedOut core.old start.now commands.items core.new)
        (O.contents out.old) (O.contents out.new)) }
    ensures begun { IfErr result
        (BeginsOrNot report (IsCarriedOut core.old start.now commands.items core.new)
        (O.contents out.old) (O.contents out.new)) }
    ensures err { IfErr result (λ e. (e ≡ Fault.Memory) ⊎ (e ≡ Fault.OutputFailed)) }
{
    let alloc = *commands.allocator();
    let copies = clone_commands(alloc, commands.as_slice())?;
    let replies = core.run(commands)?;
    let outlook = core.outlook()?;
    let played = Played {
        start,
        commands: copies.as_slice(),
        replies: replies.as_slice(),
        core,
        outlook: outlook.as_slice(),
    };
    print_run(alloc, report, &played, out)
}
