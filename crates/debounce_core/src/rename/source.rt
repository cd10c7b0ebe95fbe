//! What waits at the source of a rename: the earlier joined rename that it goes on from, the event that
//! stays, and the events that go along. The last event there is the rename's first half, and goes.
ghost use Rattle.std.specs.Prelude.{◌≡◌, [], is_some, option_copied, unwrap_or};
ghost use Rattle.debounce_model.specs.Rename.{first_both, without_last, without_both, original_time, staying, moving};
ghost use Rattle.debounce_model.specs.WellFormed.{IsBothInFront};
ghost use Rattle.debounce_core.specs.Rename.RenameSteps.{IsSourceOf};
ghost use Rattle.debounce_core.specs.Rename.Target.{IsStayTarget};

use super::target::Target;
use debounce_queues::{Queue, is_both, removes};
use notify_types::{DebouncedEvent, Moment};
use std::alloc::Allocator;

/// What waits at the source of a rename, before its first half.
#[derive(Drop)]
pub struct Source<'a, A: Allocator> {
    /// The joined rename that it goes on from.
    pub(crate) earlier: Option<&'a DebouncedEvent<A>>,
    /// The event that stays.
    pub(crate) stays: Option<&'a DebouncedEvent<A>>,
    /// The events that go along.
    pub(crate) moving: &'a [DebouncedEvent<A>],
}

impl<'a, A: Allocator> Source<'a, A> {
    /// Whether an event stays.
    pub(crate) fn keeps_event(&self) -> bool
        ensures { result ≡ is_some (option_copied self.now.stays) }
    {
        self.stays.is_some()
    }

    /// Returns what a rename to its own path finds there: the event that stays.
    pub(crate) fn as_target(&self) -> Target
        ensures { IsStayTarget (option_copied self.now.stays) result }
    {
        match self.stays {
            None => Target::Free,
            Some(_) => Target::Removed,
        }
    }

    /// Returns when the rename began, of which the first half came at this time.
    pub(crate) fn original_time(&self, time: Moment) -> Moment
        ensures { result ≡ original_time (option_copied self.now.earlier) time }
    {
        match self.earlier {
            None => time,
            Some(earlier) => earlier.time(),
        }
    }
}

/// Of events without a joined rename, after this earlier one: the front stays if it removes.
fn source_after<'a, A: Allocator>(
    earlier: Option<&'a DebouncedEvent<A>>,
    events: &'a [DebouncedEvent<A>],
) -> Source<'a, A>
    ensures earlier { option_copied result.earlier ≡ option_copied earlier.entry }
    ensures stays { option_copied result.stays ≡ staying events.now }
    ensures moving { result.moving.now ≡ moving events.now }
{
    match events {
        [first, rest @ ..] if removes(first.kind()) => Source {
            earlier,
            stays: Some(first),
            moving: rest,
        },
        _ => Source {
            earlier,
            stays: None,
            moving: events,
        },
    }
}

/// The parts of what waits at a source. A joined rename stands first, or second after a
/// removal.
fn source_of<A: Allocator>(events: &[DebouncedEvent<A>]) -> Source<'_, A>
    requires { IsBothInFront events.now }
    ensures earlier { option_copied result.earlier ≡ first_both events.now }
    ensures stays { option_copied result.stays ≡ staying (without_both events.now) }
    ensures moving { result.moving.now ≡ moving (without_both events.now) }
{
    let [first, rest @ ..] = events else {
        return source_after(None, events);
    };
    if is_both(first.kind()) {
        return source_after(Some(first), rest);
    }
    let [second, moving @ ..] = rest else {
        return source_after(None, events);
    };
    if is_both(second.kind()) {
        return Source {
            earlier: Some(second),
            stays: Some(first),
            moving,
        };
    }
    source_after(None, events)
}

/// The events without the last.
fn without_last<A: Allocator>(events: &[DebouncedEvent<A>]) -> &[DebouncedEvent<A>]
    ensures { result.now ≡ without_last events.now }
{
    if events.is_empty() {
        return events;
    }
    &events[..events.len() - 1]
}

/// The events of a queue, if there is one.
fn events_of<'a, A: Allocator>(queue: Option<&'a Queue<A>>) -> &'a [DebouncedEvent<A>]
    ensures { result.now ≡ unwrap_or (option_copied queue.entry) [] }
{
    match queue {
        None => &[],
        Some(queue) => queue.events(),
    }
}

/// Returns what waits at the source of a rename, of its queue. The first half came last there.
pub(crate) fn source_at<'a, A: Allocator>(queue: Option<&'a Queue<A>>) -> Source<'a, A>
    requires { IsBothInFront (unwrap_or (option_copied queue) []) }
    ensures { IsSourceOf (unwrap_or (option_copied queue.entry) []) result }
{
    source_of(without_last(events_of(queue)))
}
