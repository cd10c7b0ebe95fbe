//! Reports that the watcher that polls never makes by itself: a request to look at all anew, and a loss.
use crate::mirror::failures::{batch_of, mirror_of};
use crate::mirror::room::Room;
use notify_types::{DebouncedEvent, Event, EventKind, Flag};
use program_frame::reports::TakesReports;
use std::alloc::{AllocError, Global};
use std::env::Env;
use std::fs::Files;
use std::process::{self, Abort};
use std::time::Clock;
use test_fakes::files::FakeFiles;

/// A batch that asks to look at all anew, and names no path.
fn request(alloc: Global) -> Result<Vec<DebouncedEvent>, AllocError> {
    let mut batch = Vec::new(alloc);
    let event = Event::new(alloc, EventKind::Other).set_flag(Flag::Rescan);
    batch.push(DebouncedEvent::new(event, 0))?;
    Ok(batch)
}

#[test]
fn a_copy_is_right_after_a_request_to_look_at_all_anew(rt: HostRuntime) {
    let room = Room::new(rt, "mirror_anew", process::id(rt.process()));
    check_anew(rt, &room, FakeFiles::new(rt, "").expect(&rt, "memory"));
}

/// Changes the room without a report, and then has one ask for all.
fn check_anew<
    R: Files + Env + Abort + AllocGlobal + Copy + Drop,
    F: Files + Clock + AllocGlobal + Copy + Drop,
>(rt: R, room: &Room<R>, files: F) {
    let mut mirror = mirror_of(rt, room, files);
    assert!(&rt; mirror.take(Ok(batch_of(rt, room))).is_ok());
    assert!(&rt; room.is_copied());
    // Nobody reports these changes.
    room.write("/from/a", "another one");
    room.write("/from/lib/c", "three");
    room.remove("/from/lib/b");
    assert!(&rt; room.is_copied());
    let batch = request(rt.alloc()).expect(&rt, "memory");
    assert!(&rt; mirror.take(Ok(batch)).is_ok());
    assert!(&rt; room.has("/to/a", "another one"));
    assert!(&rt; room.has("/to/lib/c", "three"));
    assert!(&rt; room.lacks("/to/lib/b"));
    assert!(&rt; room.has("/to/own", "own"));
    assert!(&rt; mirror.patience().is_none());
    // The copy isn't said to be whole if events were lost.
    assert!(&rt; mirror.end(0).is_ok());
    assert!(&rt; mirror.end(3).is_err());
}
