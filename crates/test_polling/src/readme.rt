//! An example of docs/TUTORIAL.md. The gate compares its lines with those of the page.
use notify_debouncer_full::{
    CreateKind, DebounceDataInner, DebouncedEvent, Error, Event, EventKind, NoCache, PathBuf,
};
use std::alloc::Global;

fn created(alloc: Global, path: &str) -> Result<Event, Error> {
    Event::new(alloc, EventKind::Create(CreateKind::File)).add_path(PathBuf::parse(alloc, path)?)
}

fn emitted(alloc: Global) -> Result<Vec<DebouncedEvent>, Error> {
    // The timeout is in nanoseconds.
    let mut core = DebounceDataInner::new(alloc, NoCache::new(), 50_000_000);
    // For each event of your watcher: when it came, and whether its path exists.
    core.add_event(created(alloc, "/home/file.txt")?, 0, true)?;
    core.debounced_events(50_000_000) // at each tick: what is due
}

#[test]
fn the_example_emits_its_event(rt: HostRuntime) {
    let batch = emitted(rt.alloc()).expect(&rt, "memory");
    assert_eq!(rt; batch.len(), 1);
}
