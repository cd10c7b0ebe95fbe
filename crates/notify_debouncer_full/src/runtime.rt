//! The runtime of a debouncer.
use std::alloc::Allocator;
use std::fs::Files;
use std::sync::Wait;
use std::thread::Threads;
use std::time::Clock;

/// What a running debouncer over a [`RecommendedWatcher`](crate::RecommendedWatcher) asks of its
/// runtime; the `HostRuntime` of a program's `main` has it. `Alloc` is what the watcher needs: a
/// `PollWatcher` is a `Watcher` over such runtimes alone. Files, folders and the allocator may be sent to
/// a thread, so that a function over any such runtime can start a debouncer.
pub trait DebouncerRuntime: Threads
    + Wait
    + Clock
    + Files<File: Send + Sync + 'static, Dir: Send + Sync + 'static>
    + Alloc<A: Send + Sync + 'static>
    + Copy
    + Drop
    + Send
    + Sync
    + 'static {}

impl<
    R: Threads
        + Wait
        + Clock
        + Files<File: Send + Sync + 'static, Dir: Send + Sync + 'static>
        + Alloc<A: Send + Sync + 'static>
        + Copy
        + Drop
        + Send
        + Sync
        + 'static,
> DebouncerRuntime for R {}

/// What a running debouncer asks of its allocator; `Global` has it.
pub trait DebouncerAllocator: Allocator + Copy + Send + Sync + 'static {}

impl<A: Allocator + Copy + Send + Sync + 'static> DebouncerAllocator for A {}
