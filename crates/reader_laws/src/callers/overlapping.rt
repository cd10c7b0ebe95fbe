//! Rounds over two roots, of which one may lie in the other.
ghost use Rattle.poll_rounds.specs.Reports.{Reported};

use crate::reports::law_of_reports;
use debounce_cache::NoCache;
use notify_paths::{Error, PathBuf};
use notify_types::{Event, RecursiveMode};
use notify_watch::EventHandler;
use poll_rounds::Folders;
use poll_watcher::Polled;
use std::alloc::Allocator;

/// Begins with nothing, watches the first path, then the second one too, and then the second one alone, with
/// a round after each step. What goes wrong is passed over. Whatever the paths are, what the last listing
/// has was reported: `law_of_reports` says what a reader has of it.
pub fn watch_both<A: Allocator + Copy, D: Folders<A>, H: EventHandler<Result<Event<A>, Error<A>>>>(
    alloc: A,
    folders: &mut D,
    handler: &mut H,
    first: &PathBuf<A>,
    second: &PathBuf<A>,
) -> Polled<A>
    requires { H.ready handler.old }
    ensures { Reported H.handles handler.old result.last handler.new }
{
    law_of_reports::<NoCache, H, A>();
    let mut polled = Polled::new(alloc);
    let _ = polled.watch_reported(folders, first, RecursiveMode::Recursive);
    polled.round(folders, handler);
    polled.last();
    let _ = polled.watch_reported(folders, second, RecursiveMode::Recursive);
    polled.round(folders, handler);
    polled.last();
    let _ = polled.unwatch_reported(first);
    polled.round(folders, handler);
    polled.last();
    polled
}
