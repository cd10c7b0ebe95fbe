//! The index, and what it says of what is due.
ghost use Rattle.std.specs.Prelude.{◌≡◌, ◌<◌, IfSome, IfNone, true, false, length, option_copied};
ghost use Rattle.debounce_queues.specs.Due.{is_due_at};
ghost use Rattle.debounce_queues.specs.Fronts.{front_of, has, is_front};
ghost use Rattle.debounce_queues.specs.Steps.{HasDue, HasNoneDue, IsPopped, IsSame};

use crate::due::Due;
use crate::front::Front;
use crate::queue::Queue;
use crate::queues::QueueMap;
use notify_paths::PathBuf;
use notify_types::Moment;
use std::alloc::Allocator;
use std::collections::BTreeSet;

/// The index: the fronts of all queues, newer ones first.
pub(crate) type Fronts<A> = BTreeSet<Front<A>, A>;

/// Returns the time of the front of the queue, if there is one.
pub(crate) fn front_of<A: Allocator>(queue: Option<&Queue<A>>) -> Option<Moment>
    ensures { result ≡ front_of (option_copied queue.entry) }
{
    match queue {
        None => None,
        Some(queue) => queue.front_time(),
    }
}

/// Whether what waits at the path has its front at this time.
pub(crate) fn is_front<A: Allocator>(map: &QueueMap<A>, path: &PathBuf<A>, time: Moment) -> bool
    ensures { result ≡ is_front map.now.entries time path.now }
{
    match front_of(map.get(path)) {
        None => false,
        Some(front) => front == time,
    }
}

/// Whether the oldest front of the index is due.
pub(crate) fn is_oldest_due<A: Allocator>(fronts: &Fronts<A>, due: Due) -> bool
    ensures none { result ≡ false → HasNoneDue due fronts.now }
    ensures some { result ≡ true → HasDue due fronts.now }
{
    match fronts.last() {
        None => false,
        Some(front) => due.is_due_at(front.time),
    }
}

/// Whether the newest front of the index is due: then each is.
pub(crate) fn is_newest_due<A: Allocator>(fronts: &Fronts<A>, due: Due) -> bool {
    match fronts.first() {
        None => false,
        Some(front) => due.is_due_at(front.time),
    }
}

/// Takes the oldest front out of the index, if it is due.
pub(crate) fn pop_due<A: Allocator>(fronts: &mut Fronts<A>, due: Due) -> Option<Front<A>>
    ensures due { IfSome result (λ k. is_due_at due k.0 ≡ true) }
    ensures there { IfSome result (λ k. has fronts.old k.0 k.1 ≡ true) }
    ensures popped { IfSome result (λ k. IsPopped k fronts.old fronts.new) }
    ensures fewer { IfSome result (λ k. length fronts.new.keys < length fronts.old.keys) }
    ensures none { IfNone result (HasNoneDue due fronts.new) }
    ensures kept { IfNone result (IsSame fronts.old fronts.new) }
{
    if !is_oldest_due(fronts, due) {
        return None;
    }
    match fronts.pop_last() {
        None => None,
        Some(front) => Some(front),
    }
}
