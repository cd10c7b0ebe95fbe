//! Moves that a batch tells, in steps.
use crate::mirror::failures::{TestMirror, batch_of, mirror_of};
use crate::mirror::room::Room;
use notify_types::{CreateKind, DebouncedEvent, Event, EventKind, RemoveKind};
use program_frame::reports::TakesReports;
use std::env::Env;
use std::fs::Files;
use std::process::{self, Abort};
use std::time::Clock;
use test_fakes::files::FakeFiles;

/// The tracker of all events of a move.
const TRACKER: u64 = 7;

/// What the files answer, and steps: what is done (`mv`, `write`, `rm`), what is reported with the tracker (`gone`,
/// `new`) or without it (`seen`), after which nothing waits (`take`) or something does (`refuse`), that what waits is
/// tried again (`again`), and what stands then.
const CASES: [(&str, &str); 10] = [
    // Nothing is read of a folder that moved.
    (
        "open /from/new/b: Other",
        "mv /from/lib /from/new|gone /from/lib|new /from/new|new /from/new/b|take|has /to/new/b two|lacks /to/lib",
    ),
    // Nor is it if a tick parts the events, and a later batch tells the rest.
    (
        "open /from/new/b: Other",
        "mv /from/lib /from/new|gone /from/lib|new /from/new|refuse|has /to/new/b two|new /from/new/b|take|has /to/new/b two|lacks /to/lib",
    ),
    // A later batch that doesn't tell it as moved has it compared by its bytes.
    (
        "open /from/new/b: Other",
        "mv /from/lib /from/new|gone /from/lib|new /from/new|refuse|seen /from/new/b|refuse|has /to/new/b two",
    ),
    // What no batch tells is compared after a second.
    (
        "open /from/new/b: Other",
        "mv /from/lib /from/new|gone /from/lib|new /from/new|refuse|again|has /to/new/b two|refuse",
    ),
    // What came along and is gone already goes.
    (
        "",
        "mv /from/lib /from/new|rm /from/new/b|gone /from/lib|new /from/new|take|lacks /to/new/b|lacks /to/lib",
    ),
    // What was written after it moved is copied.
    (
        "",
        "mv /from/a /from/c|write /from/c later|gone /from/a|new /from/c|take|has /to/c later|lacks /to/a",
    ),
    // What came along and isn't told as moved is compared by its bytes.
    (
        "open /from/new/b: Other",
        "mv /from/lib /from/new|gone /from/lib|new /from/new|seen /from/new/b|refuse|has /to/new/b two|lacks /to/lib",
    ),
    // What the copy has of its own isn't moved.
    (
        "",
        "write /to/lib/own own|mv /from/lib /from/new|gone /from/lib|new /from/new|new /from/new/b|take|has /to/new/b two|has /to/lib/own own|lacks /to/lib/b",
    ),
    // Nothing is moved over what the copy has of its own.
    (
        "",
        "mv /from/lib /from/own|gone /from/lib|new /from/own|new /from/own/b|refuse|has /to/own own|lacks /to/own/b",
    ),
    // What can't be moved is copied.
    (
        "rename /to/new: CrossesDevices",
        "mv /from/lib /from/new|gone /from/lib|new /from/new|new /from/new/b|take|has /to/new/b two|lacks /to/lib",
    ),
];

#[test]
fn moves_are_made_in_the_copy(rt: HostRuntime) {
    let id = process::id(rt.process());
    for (script, steps) in &CASES {
        let files = FakeFiles::new(rt, script).expect(&rt, "memory");
        run_case(rt, id, files, steps);
    }
}

/// Copies what stands in the room, and does the steps.
fn run_case<
    R: Files + Env + Abort + AllocGlobal + Copy + Drop,
    F: Files + Clock + AllocGlobal + Copy + Drop,
>(rt: R, id: u32, files: F, steps: &str) {
    let room = Room::new(rt, "mirror_moves", id);
    let mut mirror = mirror_of(rt, &room, files);
    take(rt, &mut mirror, batch_of(rt, &room));
    run_steps(rt, &room, &mut mirror, steps);
}

/// Does the steps, one after the other.
fn run_steps<
    R: Files + Env + Abort + AllocGlobal + Copy + Drop,
    F: Files + Clock + AllocGlobal + Copy + Drop,
>(rt: R, room: &Room<R>, mirror: &mut TestMirror<F>, steps: &str) {
    let mut batch = Vec::new(rt.alloc());
    for step in steps.split('|') {
        let mut words = step.split(' ');
        let word = words.next().unwrap_or("");
        let path = words.next().unwrap_or("");
        match word {
            "mv" => room.rename(path, words.next().unwrap_or("")),
            "write" => room.write(path, words.next().unwrap_or("")),
            "rm" => room.remove(path),
            "take" => {
                take(rt, mirror, batch.split_off(0).expect(&rt, "memory"));
                assert!(&rt; mirror.patience().is_none());
            }
            "refuse" => {
                take(rt, mirror, batch.split_off(0).expect(&rt, "memory"));
                assert!(&rt; mirror.patience().is_some());
            }
            "again" => assert!(&rt; mirror.pass().is_ok()),
            "has" => assert!(&rt; room.has(path, words.next().unwrap_or(""))),
            "lacks" => assert!(&rt; room.lacks(path)),
            _ => batch
                .push(report(rt, room, word, path))
                .expect(&rt, "memory"),
        }
    }
}

fn take<
    R: Files + Env + Abort + AllocGlobal + Copy + Drop,
    F: Files + Clock + AllocGlobal + Copy + Drop,
>(rt: R, mirror: &mut TestMirror<F>, batch: Vec<DebouncedEvent>) {
    assert!(&rt; mirror.take(Ok(batch)).is_ok());
}

/// The event of this word at the path.
fn report<R: Files + Env + Abort + AllocGlobal + Copy + Drop>(
    rt: R,
    room: &Room<R>,
    word: &str,
    path: &str,
) -> DebouncedEvent {
    let kind = if word == "gone" {
        EventKind::Remove(RemoveKind::Any)
    } else {
        EventKind::Create(CreateKind::Any)
    };
    let mut event = Event::new(rt.alloc(), kind);
    if word != "seen" {
        event = event.set_tracker(TRACKER);
    }
    let event = event.add_path(room.path(path)).expect(&rt, "memory");
    DebouncedEvent::new(event, 0)
}
