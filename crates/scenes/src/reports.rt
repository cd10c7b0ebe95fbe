//! A scene of `Reports`.
use crate::acts::{path, times_of};
use crate::scene::{Host, LINES, Scene, next_line, split};
use crate::words::{answer_of, given};
use notify_debouncer_full::{Config, Feed, NoCache, RecursiveMode, Reports, Watcher};
use std::io;
use test_fakes::allocator::TestHeap;

/// Starts reports, and plays the lines up to the one that ends them.
pub fn play_reports<T: Watcher<Feed<NoCache, R, A>, R, A>, R: Host, A: TestHeap>(
    scene: &mut Scene<R, A>,
    line: &str,
    rest: &mut &'static str,
) -> io::Result<()>
    requires takes { (feed : _) → T.takes feed }
{
    let (timeout, tick) = times_of(line);
    let made = Reports::start(scene.rt, scene.heap, timeout, tick, Config::default());
    let mut reports: Reports<T, R, A> = given(made)?;
    let acted = act_to_the_end(scene, &mut reports, rest);
    let finished = finish(scene, reports);
    acted?;
    finished
}

/// Plays the lines up to the one that ends the reports.
fn act_to_the_end<T: Watcher<Feed<NoCache, R, A>, R, A>, R: Host, A: TestHeap>(
    scene: &mut Scene<R, A>,
    reports: &mut Reports<T, R, A>,
    rest: &mut &'static str,
) -> io::Result<()> {
    for _ in 0..LINES {
        let Some(line) = next_line(rest) else {
            break;
        };
        match split(line) {
            ("finish", _) => break,
            ("watch", word) => watch(scene, reports, line, word)?,
            ("counts", _) => counts(scene, reports)?,
            _ => scene.play_line(line)?,
        }
    }
    Ok(())
}

fn watch<T: Watcher<Feed<NoCache, R, A>, R, A>, R: Host, A: TestHeap>(
    scene: &mut Scene<R, A>,
    reports: &mut Reports<T, R, A>,
    line: &str,
    word: &str,
) -> io::Result<()> {
    let place = path(scene.heap, word)?;
    let answer = answer_of(reports.watch(&place, RecursiveMode::Recursive));
    drop(place);
    scene.say(line, answer)
}

/// Prints how many reports could not be sent, how many items were missed, and how many turns were
/// refused.
fn counts<T: Watcher<Feed<NoCache, R, A>, R, A>, R: Host, A: TestHeap>(
    scene: &mut Scene<R, A>,
    reports: &mut Reports<T, R, A>,
) -> io::Result<()> {
    scene.count("unsent", reports.unsent())?;
    scene.count("missed", reports.missed())?;
    scene.count("refused turns", reports.debouncer().refused_turns())
}

/// Ends the reports, and prints how many items were missed and how many reports could not be sent.
fn finish<T: Watcher<Feed<NoCache, R, A>, R, A>, R: Host, A: TestHeap>(
    scene: &mut Scene<R, A>,
    reports: Reports<T, R, A>,
) -> io::Result<()> {
    let last = reports.finish();
    let (missed, unsent) = (last.missed, last.unsent);
    drop(last);
    scene.count("missed", missed)?;
    scene.count("unsent", unsent)
}
