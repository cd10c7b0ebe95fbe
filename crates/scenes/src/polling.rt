//! A scene of `Reports` over the watcher that polls, in a real folder.
use crate::acts::times_of;
use crate::clock::sleep_a_turn;
use crate::folder::{paths_there, play_file_line};
use crate::scene::{Host, LINES, Scene, next_line, number, split};
use crate::words::given;
use notify_debouncer_full::{
    Config, DebounceEventResult, DebouncedEvent, Feed, Hints, LastReports, NoCache, PathBuf,
    PollWatcher, RecursiveMode, Reports, Watcher,
};
use reader_paths::PathSet;
use std::alloc::{AllocError, Global};
use std::io;
use std::time::Duration;
use test_fakes::allocator::TestHeap;

/// A watcher that polls.
pub trait Polls<R: Host>: Watcher<Feed<NoCache, R>, R, Global> {
    /// What takes hints for it.
    fn hints_of(&self) -> io::Result<Hints<R>>;

    /// The path at which its last round failed.
    fn failed(&self) -> io::Result<Option<PathBuf>>;
}

impl<R: Host> Polls<R> for PollWatcher<R, Global> {
    fn hints_of(&self) -> io::Result<Hints<R>> {
        given(self.hints())
    }

    fn failed(&self) -> io::Result<Option<PathBuf>> {
        given(self.failed_path())
    }
}

/// Starts reports over the watcher that polls, and plays the lines up to the one that ends them.
pub fn play_polling<R: Host, A: TestHeap>(
    scene: &mut Scene<R, A>,
    line: &str,
    rest: &mut &'static str,
) -> io::Result<()> {
    play_polled::<PollWatcher<R>, R, A>(scene, line, rest)
}

/// Starts reports, which look as often as the line says, and plays the lines up to the one that ends
/// them.
fn play_polled<T: Polls<R>, R: Host, A: TestHeap>(
    scene: &mut Scene<R, A>,
    line: &str,
    rest: &mut &'static str,
) -> io::Result<()>
    requires takes { (feed : _) → T.takes feed }
{
    let (timeout, interval) = times_of(line);
    let config = Config::default()
        .with_poll_interval(interval.unwrap_or(timeout))
        .with_initial_events(line.starts_with("poll_from_nothing"))
        .with_modified_times(!line.starts_with("poll_by_lengths"));
    let started = Reports::start(scene.rt, scene.rt.alloc(), timeout, None, config);
    let reports: Reports<T, R> = given(started)?;
    match reports.debouncer().watcher().hints_of() {
        Ok(hints) => {
            let played = play_to_the_end(scene, reports, &hints, rest);
            drop(hints);
            played
        }
        Err(error) => {
            drop(reports);
            Err(error)
        }
    }
}

/// Plays the lines up to the one that ends the reports, and prints whether a hint is taken after that.
fn play_to_the_end<T: Polls<R>, R: Host, A: TestHeap>(
    scene: &mut Scene<R, A>,
    reports: Reports<T, R>,
    hints: &Hints<R>,
    rest: &mut &'static str,
) -> io::Result<()> {
    let mut reports = reports;
    match act_to_the_end(scene, &mut reports, hints, rest) {
        Ok(last) => finish(scene, reports, last)?,
        Err(error) => {
            drop(reports);
            return Err(error);
        }
    }
    let taken = hints.look_at(scene.place("/x")?);
    scene.tell("a hint after the end", taken)
}

/// Plays the lines up to the one that ends the reports, and returns that one.
fn act_to_the_end<T: Polls<R>, R: Host, A: TestHeap>(
    scene: &mut Scene<R, A>,
    reports: &mut Reports<T, R>,
    hints: &Hints<R>,
    rest: &mut &'static str,
) -> io::Result<&'static str> {
    for _ in 0..LINES {
        let Some(line) = next_line(rest) else {
            break;
        };
        if line == "finish" || line == "read" {
            return Ok(line);
        }
        act(scene, reports, hints, line)?;
    }
    Ok("finish")
}

/// Plays a line.
fn act<T: Polls<R>, R: Host, A: TestHeap>(
    scene: &mut Scene<R, A>,
    reports: &mut Reports<T, R>,
    hints: &Hints<R>,
    line: &str,
) -> io::Result<()> {
    let (verb, word) = split(line);
    match verb {
        "watch" | "watch_alone" | "unwatch" => ask(scene, reports, verb, word),
        "hint" => {
            let taken = hints.look_at(scene.place(word)?);
            scene.tell(line, taken)
        }
        "hint_all" => scene.tell(line, hints.look_at_all()),
        "next" => tell_next(scene, reports, line),
        "await_batch" => tell_batch(scene, reports, line),
        "letters" => tell_letters(scene, reports, line),
        "await_failed" => tell_failed(scene, reports, line),
        "quiet" => tell_quiet(scene, reports, line, word),
        _ => play_file_line(scene, line),
    }
}

/// Asks for a watch, or for none any longer, which is not refused.
fn ask<T: Polls<R>, R: Host, A: TestHeap>(
    scene: &Scene<R, A>,
    reports: &mut Reports<T, R>,
    verb: &str,
    word: &str,
) -> io::Result<()> {
    let place = scene.place(word)?;
    given(match verb {
        "watch" => reports.watch(&place, RecursiveMode::Recursive),
        "watch_alone" => reports.watch(&place, RecursiveMode::NonRecursive),
        _ => reports.unwatch(&place),
    })
}

/// How long a scene waits for what has to come, at most, in seconds.
const LIMIT: u64 = 100;

/// How many turns of a millisecond a scene waits for what has to come while the clock stands.
const TURNS: u64 = 20_000;

/// What is reported next. `None` says that nothing comes.
fn next<T: Polls<R>, R: Host, A: TestHeap>(
    scene: &Scene<R, A>,
    reports: &mut Reports<T, R>,
) -> Option<DebounceEventResult> {
    // By a clock that stands no wait would be over.
    if scene.stage.clock.stands() {
        return next_in(scene, reports, TURNS);
    }
    reports.next_within(Duration::from_secs(LIMIT))
}

/// What is reported within so many turns.
fn next_in<T: Polls<R>, R: Host, A: TestHeap>(
    scene: &Scene<R, A>,
    reports: &mut Reports<T, R>,
    turns: u64,
) -> Option<DebounceEventResult> {
    for _ in 0..turns {
        let report = reports.try_next();
        if report.is_some() {
            return report;
        }
        sleep_a_turn(&scene.rt);
    }
    None
}

/// Prints whether nothing is reported for so many turns.
fn tell_quiet<T: Polls<R>, R: Host, A: TestHeap>(
    scene: &mut Scene<R, A>,
    reports: &mut Reports<T, R>,
    line: &str,
    word: &str,
) -> io::Result<()> {
    let report = next_in(scene, reports, number(word));
    let is_quiet = report.is_none();
    drop(report);
    scene.tell(line, is_quiet)
}

/// Prints what is reported next.
fn tell_next<T: Polls<R>, R: Host, A: TestHeap>(
    scene: &mut Scene<R, A>,
    reports: &mut Reports<T, R>,
    line: &str,
) -> io::Result<()> {
    let report = next(scene, reports);
    let word = match &report {
        Some(Ok(_)) => "a batch",
        Some(Err(_)) => "errors",
        None => "nothing",
    };
    drop(report);
    scene.say(line, word)
}

/// Prints whether a batch comes, after errors of rounds that were made before.
fn tell_batch<T: Polls<R>, R: Host, A: TestHeap>(
    scene: &mut Scene<R, A>,
    reports: &mut Reports<T, R>,
    line: &str,
) -> io::Result<()> {
    for _ in 0..LIMIT {
        match next(scene, reports) {
            Some(Ok(batch)) => return scene.tell(line, !batch.is_empty()),
            Some(Err(_)) => {}
            None => break,
        }
    }
    scene.tell(line, false)
}

/// Prints the last letters of the paths of the next events, in order: so many, or fewer if no more come.
fn tell_letters<T: Polls<R>, R: Host, A: TestHeap>(
    scene: &mut Scene<R, A>,
    reports: &mut Reports<T, R>,
    line: &str,
) -> io::Result<()> {
    let (_verb, word) = split(line);
    let mut letters = String::new(scene.rt.alloc());
    // A batch has an event at least.
    for _ in 0..number(word) {
        if (letters.len() as u64) < number(word)
            && let Some(Ok(batch)) = next(scene, reports)
        {
            push_letters(&mut letters, batch.as_slice())?;
        }
    }
    scene.say(line, letters.as_str())
}

/// Appends the last letter of each event's path.
fn push_letters(letters: &mut String, batch: &[DebouncedEvent]) -> Result<(), AllocError> {
    for event in batch {
        if let Some(path) = event.first_path()
            && let Some(letter) = path.as_str().chars().next_back()
        {
            letters.push(letter)?;
        }
    }
    Ok(())
}

/// Prints whether the watcher comes to tell that its last round failed at this path, or at none.
fn tell_failed<T: Polls<R>, R: Host, A: TestHeap>(
    scene: &mut Scene<R, A>,
    reports: &Reports<T, R>,
    line: &str,
) -> io::Result<()> {
    let (_verb, word) = split(line);
    let wanted = if word.is_empty() {
        None
    } else {
        Some(scene.place(word)?)
    };
    for _ in 0..20 * LIMIT {
        if reports.debouncer().watcher().failed()? == wanted {
            return scene.tell(line, true);
        }
        scene.sleep(1);
    }
    scene.tell(line, false)
}

/// Ends the reports, and prints how many items were missed and how many reports could not be sent; after
/// the line `read` also whether a reader who was given all that was left has the folder's paths.
fn finish<T: Polls<R>, R: Host, A: TestHeap>(
    scene: &mut Scene<R, A>,
    reports: Reports<T, R>,
    line: &str,
) -> io::Result<()> {
    scene.stage.clock.let_go();
    let last = reports.finish();
    let told = tell_last(scene, &last, line);
    drop(last);
    told
}

fn tell_last<N: Drop, R: Host, A: TestHeap>(
    scene: &mut Scene<R, A>,
    last: &LastReports<Global, N>,
    line: &str,
) -> io::Result<()> {
    scene.count("missed", last.missed)?;
    scene.count("unsent", last.unsent)?;
    if line != "read" {
        return Ok(());
    }
    let read = read_paths(&scene.rt, last)?;
    let same = read == paths_there(scene.rt, scene.place("/")?)?;
    drop(read);
    scene.tell(line, same)
}

/// The paths of a reader who began with nothing and was given all that is left.
fn read_paths<N: Drop>(
    rt: &impl AllocGlobal,
    last: &LastReports<Global, N>,
) -> io::Result<Vec<PathBuf>> {
    let mut paths = PathSet::new(rt.alloc());
    let read = read_all(last, &mut paths);
    let list = given(paths.to_list());
    drop(paths);
    read?;
    list
}

/// Gives a reader what is left.
fn read_all<N: Drop>(last: &LastReports<Global, N>, paths: &mut PathSet) -> io::Result<()> {
    for report in &last.queue {
        if let Ok(batch) = report {
            given(paths.play(batch.as_slice()))?;
        }
    }
    let pending = given(last.book.outlook())?;
    given(paths.play(pending.as_slice()))
}
