//! One search at a path of a rename: what waits there, and whether something waits below.
ghost use Rattle.std.specs.Prelude.{◌≡◌};
ghost use Rattle.std.specs.List.Sorted.{IsStrictlySortedBy};
ghost use Rattle.std.specs.Map.{keys_of};
ghost use Rattle.notify_paths.specs.Path.{path_cmp};
ghost use Rattle.debounce_core.specs.Rename.Look.{IsLookAt};

use debounce_queues::{Queue, QueueMap};
use notify_paths::PathBuf;
use std::alloc::Allocator;
use std::ops::Bound;

/// What one search finds at a path.
#[derive(Drop)]
pub struct Look<'a, A: Allocator> {
    /// The path.
    pub(crate) path: &'a PathBuf<A>,
    /// What waits there.
    pub(crate) queue: Option<&'a Queue<A>>,
    /// Whether something waits strictly below it.
    pub(crate) below: bool,
}

/// Returns what waits at the path, and whether something waits below. All that lies below a path comes
/// right after it, so the first two queues from the path on tell both.
pub(crate) fn look_at<'a, A: Allocator>(
    queues: &'a QueueMap<A>,
    path: &'a PathBuf<A>,
) -> Look<'a, A>
    ensures look { IsLookAt queues.now.entries path.now result }
    ensures ordered { IsStrictlySortedBy path_cmp (keys_of queues.now.entries) }
{
    let mut from_path = queues.range((Bound::Included(path), Bound::Unbounded));
    let Some((first, queue)) = from_path.next() else {
        return Look {
            path,
            queue: None,
            below: false,
        };
    };
    if *path == *first {
        let below = match from_path.next() {
            None => false,
            Some((second, _queue)) => second.starts_with(path),
        };
        return Look {
            path,
            queue: Some(queue),
            below,
        };
    }
    Look {
        path,
        queue: None,
        below: first.starts_with(path),
    }
}
