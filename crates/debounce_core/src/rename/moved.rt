//! An event and a queue that go along below the source, as they are after the rename.
ghost use Rattle.std.specs.Prelude.{◌≡◌, ◌++◌, ◌<◌, length, take, drop, map, IfOk, OnOk, if◌then◌else◌};
ghost use Rattle.debounce_model.specs.Rename.{is_both_kind};
ghost use Rattle.debounce_model.specs.Moved.{moved_path, moved_paths, moved_event, moved_queue};

use debounce_queues::{Queue, is_both};
use notify_paths::PathBuf;
use notify_types::{DebouncedEvent, Event, EventKind, Moment};
use std::alloc::{AllocError, Allocator};

/// A copy of the path, as it is after the rename.
fn moved_path<A: Allocator + Copy>(
    path: &PathBuf<A>,
    from: &PathBuf<A>,
    to: &PathBuf<A>,
) -> Result<PathBuf<A>, AllocError>
    requires { 0 < length from.now }
    ensures { IfOk result (λ moved. moved ≡ moved_path from.now to.now path.now) }
{
    if path.is_below(from) {
        return path.relocated(from, to);
    }
    path.clone()
}

/// Adds copies of these paths, as they are after the rename.
fn add_moved_paths<A: Allocator + Copy>(
    list: &mut Vec<PathBuf<A>, A>,
    paths: &[PathBuf<A>],
    from: &PathBuf<A>,
    to: &PathBuf<A>,
) -> Result<(), AllocError>
    requires { 0 < length from.now }
    ensures { OnOk result (list.new.items ≡ list.old.items
        ++ map (moved_path from.now to.now) paths.now) }
{
    for path in paths {
        list.push(moved_path(path, from, to)?)?;
    }
    Ok(())
}

/// Adds copies of these paths.
fn add_paths<A: Allocator + Copy>(
    list: &mut Vec<PathBuf<A>, A>,
    paths: &[PathBuf<A>],
) -> Result<(), AllocError>
    ensures { OnOk result (list.new.items ≡ list.old.items ++ paths.now) }
{
    for path in paths {
        list.push(path.clone()?)?;
    }
    Ok(())
}

/// The first `count` paths, or all.
fn first_paths<A: Allocator>(paths: &[PathBuf<A>], count: usize) -> &[PathBuf<A>]
    ensures { result.now ≡ take count paths.now }
{
    if count < paths.len() {
        return &paths[..count];
    }
    paths
}

/// The paths after the first `count`.
fn other_paths<A: Allocator>(paths: &[PathBuf<A>], count: usize) -> &[PathBuf<A>]
    ensures { result.now ≡ drop count paths.now }
{
    if count < paths.len() {
        return &paths[count..];
    }
    &[]
}

/// Copies of these paths, of which the rename moves the first `count`.
fn moved_paths<A: Allocator + Copy>(
    alloc: A,
    paths: &[PathBuf<A>],
    count: usize,
    from: &PathBuf<A>,
    to: &PathBuf<A>,
) -> Result<Vec<PathBuf<A>, A>, AllocError>
    requires { 0 < length from.now }
    ensures { IfOk result (λ list. list.items ≡ moved_paths from.now to.now count paths.now) }
{
    let mut list = Vec::with_capacity(alloc, paths.len())?;
    add_moved_paths(&mut list, first_paths(paths, count), from, to)?;
    add_paths(&mut list, other_paths(paths, count))?;
    Ok(list)
}

/// How many paths of an event of this kind a rename moves.
fn moved_count(kind: EventKind) -> usize
    ensures { result ≡ if is_both_kind kind then 2 else 1 }
{
    if is_both(kind) { 2 } else { 1 }
}

/// A copy of the event, as it is after the rename that began at this time.
fn moved_event<A: Allocator + Copy>(
    alloc: A,
    event: &DebouncedEvent<A>,
    from: &PathBuf<A>,
    to: &PathBuf<A>,
    time: Moment,
) -> Result<DebouncedEvent<A>, AllocError>
    requires { 0 < length from.now }
    ensures { IfOk result (λ moved. moved ≡ moved_event from.now to.now time event.now) }
{
    let kind = event.kind();
    let paths = moved_paths(
        alloc,
        event.event.paths.as_slice(),
        moved_count(kind),
        from,
        to,
    )?;
    let attrs = event.event.attrs.clone()?;
    let time = event.time().max(time);
    Ok(DebouncedEvent::new(Event { kind, paths, attrs }, time))
}

/// Adds copies of these events, as they are after the rename.
fn add_moved_events<A: Allocator + Copy>(
    list: &mut Vec<DebouncedEvent<A>, A>,
    events: &[DebouncedEvent<A>],
    from: &PathBuf<A>,
    to: &PathBuf<A>,
    time: Moment,
) -> Result<(), AllocError>
    requires { 0 < length from.now }
    ensures { OnOk result (list.new.items
        ≡ list.old.items ++ map (moved_event from.now to.now time) events.now) }
{
    let alloc = *list.allocator();
    for event in events {
        list.push(moved_event(alloc, event, from, to, time)?)?;
    }
    Ok(())
}

/// Returns a copy of a queue, as it is after the rename from one path to another that began at this
/// time.
pub(crate) fn moved_queue<A: Allocator + Copy>(
    alloc: A,
    events: &[DebouncedEvent<A>],
    from: &PathBuf<A>,
    to: &PathBuf<A>,
    time: Moment,
) -> Result<Queue<A>, AllocError>
    requires { 0 < length from.now }
    ensures { IfOk result (λ queue. queue ≡ moved_queue from.now to.now time events.now) }
{
    let mut list = Vec::with_capacity(alloc, events.len())?;
    add_moved_events(&mut list, events, from, to, time)?;
    Ok(Queue::new(list))
}
