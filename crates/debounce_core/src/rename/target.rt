//! What a rename finds at its target: whether something waits there, and whether that was created or
//! removed.
ghost use Rattle.std.specs.Prelude.{◌≡◌, Some, option_copied};
ghost use Rattle.debounce_core.specs.Rename.Target.{IsTarget, target_of};

use super::look::Look;
use super::source::Source;
use debounce_queues::Queue;
use notify_paths::PathBuf;
use std::alloc::Allocator;

/// What a rename finds at its target.
#[derive(Clone, Copy)]
pub enum Target {
    /// Nothing waits there, or what waits was created: it is not mentioned.
    Free,
    /// What waits was removed: a removal is reported.
    Removed,
    /// Something else waits: a removal is reported, with the info that it was overridden.
    Overridden,
}

/// What a rename finds in this queue.
fn as_target<A: Allocator>(queue: &Queue<A>) -> Target
    ensures { result ≡ target_of (Some queue.now) }
{
    if queue.was_created() {
        Target::Free
    } else if queue.was_removed() {
        Target::Removed
    } else {
        Target::Overridden
    }
}

/// Returns what a rename of this source finds at its target. If that is the source itself, it is the
/// event that stays there.
pub(crate) fn target_at<A: Allocator>(
    source: &Source<'_, A>,
    from: &PathBuf<A>,
    at_target: &Look<'_, A>,
) -> Target
    ensures { IsTarget (option_copied at_target.now.queue) from.now at_target.now.path.now
        (option_copied source.now.stays) result }
{
    if *from == *at_target.path {
        return source.as_target();
    }
    match at_target.queue {
        None => Target::Free,
        Some(queue) => as_target(queue),
    }
}
