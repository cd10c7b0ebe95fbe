//! Each call of the system fails in turn.
use crate::mirror::room::Room;
use notify_types::DebouncedEvent;
use program_copy::files::{FolderCopy, RealDisk};
use program_copy::{Leave, Mirror};
use program_frame::reports::TakesReports;
use reader_paths::plan::name_path;
use std::env::Env;
use std::fs::Files;
use std::process::{self, Abort};
use std::time::Clock;
use test_fakes::files::FakeFiles;

/// How many calls are tried at most.
const CALLS: u64 = 200;

/// The mirror of a test, over these files.
pub(crate) type TestMirror<F> = Mirror<FolderCopy<RealDisk<F>>, Vec<u8>, Vec<u8>>;

/// A mirror of the room over these files.
pub(crate) fn mirror_of<
    R: Files + Env + Abort + AllocGlobal + Copy + Drop,
    F: Files + Clock + AllocGlobal + Copy + Drop,
>(rt: R, room: &Room<R>, files: F) -> TestMirror<F> {
    let leave = Leave {
        delete: false,
        dry_run: false,
    };
    let disk = RealDisk::new(files);
    let copy = FolderCopy::new(disk, room.path("/from"), room.path("/to"), leave);
    let copy = copy.expect(&rt, "a copy");
    let alloc = rt.alloc();
    Mirror::new(alloc, copy, leave, Vec::new(alloc), Vec::new(alloc))
}

/// A batch that names all that stands in the room's folder.
pub(crate) fn batch_of<R: Files + Env + Abort + AllocGlobal + Copy + Drop>(
    rt: R,
    room: &Room<R>,
) -> Vec<DebouncedEvent> {
    let mut batch = Vec::new(room.alloc());
    for end in ["/from/a", "/from/lib", "/from/lib/b"] {
        name_path(&mut batch, &room.path(end)).expect(&rt, "memory");
    }
    batch
}

#[test]
fn a_call_that_fails_harms_nothing_and_is_made_again(rt: HostRuntime) {
    let id = process::id(rt.process());
    let mut tried = 0u64;
    for number in 0..CALLS {
        let files = FakeFiles::new(rt, "").expect(&rt, "memory");
        if !fails_and_recovers(rt, id, number, &files, files) {
            break;
        }
        tried = tried.saturating_add(1);
    }
    // A look, an open file, reads, writes and a rename are among them.
    assert!(rt; tried > 20 && tried < CALLS);
}

/// Has one call on the files, which the script rules, fail while a batch is taken. Says whether so many were made.
fn fails_and_recovers<
    R: Files + Env + Abort + AllocGlobal + Copy + Drop,
    F: Files + Clock + AllocGlobal + Copy + Drop,
>(rt: R, id: u32, number: u64, script: &FakeFiles<R>, files: F) -> bool {
    let room = Room::new(rt, "mirror_failures", id);
    let mut mirror = mirror_of(rt, &room, files);
    let before = script.calls();
    script.fail_call(number);
    assert!(&rt; mirror.take(Ok(batch_of(rt, &room))).is_ok());
    let is_reached = script.calls() > before.saturating_add(number);
    script.fail_call(u64::MAX);
    room.check_kept();
    room.check_whole();
    assert!(&rt; room.is_copied() || mirror.patience().is_some());
    assert!(&rt; mirror.pass().is_ok());
    room.check_kept();
    room.check_whole();
    assert!(&rt; room.is_copied());
    assert!(&rt; mirror.end(0).is_ok());
    is_reached
}

#[test]
fn a_copy_that_can_not_be_written_stays(rt: HostRuntime) {
    let id = process::id(rt.process());
    for script in [
        "change: ReadOnlyFilesystem",
        "write: StorageFull",
        "rename: CrossesDevices",
    ] {
        check_refused(rt, id, FakeFiles::new(rt, script).expect(&rt, "memory"));
    }
}

/// Each such call on the files fails: the copy's file stays, and the end says that not all could be done.
fn check_refused<
    R: Files + Env + Abort + AllocGlobal + Copy + Drop,
    F: Files + Clock + AllocGlobal + Copy + Drop,
>(rt: R, id: u32, files: F) {
    let room = Room::new(rt, "mirror_refused", id);
    let mut mirror = mirror_of(rt, &room, files);
    assert!(&rt; mirror.take(Ok(batch_of(rt, &room))).is_ok());
    assert!(&rt; mirror.patience().is_some());
    assert!(&rt; mirror.end(0).is_err());
    room.check_kept();
    room.check_whole();
    assert!(&rt; room.has("/to/a", "old"));
}
