//! What of a queue is due.
ghost use Rattle.std.specs.Prelude.{◌≡◌, ◌++◌, ◌∷◌, ◌+◌, ◌<◌, ◌≤◌, [], OnOk, IfSome, IfNone, length, take, drop, reverse, vec_len, vec_capacity};
ghost use Rattle.std.specs.List.{list_any};
ghost use Rattle.notify_types.specs.Borrowed.{borrowed};
ghost use Rattle.notify_types.specs.KindNumbers.{kind_eq};
ghost use Rattle.debounce_model.specs.Due.{expired_beginning, rest_after, last_of_kind};
ghost use Rattle.debounce_queues.specs.Due.{is_due, is_due_at, unless_later};

use notify_types::{DebouncedEvent, EventKind, Moment, age};
use std::alloc::{AllocError, Allocator};

/// Which events are due.
#[derive(Clone, Copy)]
pub enum Due {
    /// Those whose age at the moment `now` is at least the timeout, both in nanoseconds.
    Expired { timeout: Moment, now: Moment },
    /// All of them.
    Always,
}

impl Due {
    /// Whether the event is due.
    pub fn is_due<A: Allocator>(self, event: &DebouncedEvent<A>) -> bool
        ensures { result ≡ is_due self event.now }
    {
        self.is_due_at(event.time())
    }

    /// Whether an event of this time is due.
    pub fn is_due_at(self, time: Moment) -> bool
        ensures { result ≡ is_due_at self time }
    {
        match self {
            Due::Expired { timeout, now } => age(now, time) >= timeout,
            Due::Always => true,
        }
    }
}

/// How many of the first events are due.
pub(crate) fn expired_count<A: Allocator>(events: &[DebouncedEvent<A>], due: Due) -> usize
    ensures bound { result ≤ length events.now }
    ensures front { take result events.now ≡ expired_beginning (is_due due) events.now }
    ensures back { drop result events.now ≡ rest_after (is_due due) events.now }
{
    let mut count = 0;
    for event in events {
        if !due.is_due(event) {
            return count;
        }
        count += 1;
    }
    count
}

/// Whether one of these events has this kind.
fn has_kind<A: Allocator>(events: &[DebouncedEvent<A>], kind: EventKind) -> bool
    ensures { result ≡ list_any (λ y. kind_eq kind y.event.kind) events.now }
{
    events.iter().any(|event| kind.is_same(event.kind()))
}

/// Adds references to the events of which no later one has the same kind. If an allocation fails, `out`
/// may hold some of them.
pub(crate) fn lend_last_of_kind<'a, A: Allocator>(
    out: &mut Vec<&'a DebouncedEvent<A>, A>,
    events: &'a [DebouncedEvent<A>],
) -> Result<(), AllocError>
    ensures { OnOk result (borrowed out.new.items ≡ borrowed out.old.items
        ++ last_of_kind events.now) }
{
    for (i, event) in events.iter().enumerate() {
        lend_unless_later(out, event, &events[i + 1..])?;
    }
    Ok(())
}

/// Adds a reference to the event, unless one of the later events has its kind.
fn lend_unless_later<'a, A: Allocator>(
    out: &mut Vec<&'a DebouncedEvent<A>, A>,
    event: &'a DebouncedEvent<A>,
    later: &[DebouncedEvent<A>],
) -> Result<(), AllocError>
    ensures { OnOk result (borrowed out.new.items ≡ borrowed out.old.items
        ++ unless_later event.now later.now) }
{
    if has_kind(later, event.kind()) {
        return Ok(());
    }
    out.push(event)?;
    Ok(())
}

/// Puts the events in reverse order.
pub(crate) fn reverse_events<A: Allocator>(events: &mut Vec<DebouncedEvent<A>, A>)
    ensures { events.new.items ≡ reverse events.old.items }
{
    events.as_mut_slice().reverse();
}

/// Takes the last event out, unless no more than `left` are there.
fn pop_above<A: Allocator>(
    events: &mut Vec<DebouncedEvent<A>, A>,
    left: usize,
) -> Option<DebouncedEvent<A>>
    ensures some { IfSome result (λ x. drop left events.old.items ≡ drop left events.new.items ++ x
        ∷ []) }
    ensures fewer { IfSome result (λ x. length events.new.items < length events.old.items) }
    ensures none { IfNone result (drop left events.old.items ≡ []) }
    ensures same { IfNone result (events.new.items ≡ events.old.items) }
    ensures kept { take left events.new.items ≡ take left events.old.items }
    ensures bound { left ≤ length events.old.items → left ≤ length events.new.items }
{
    if events.len() <= left {
        return None;
    }
    events.pop()
}

/// All but the first `left` of these events.
fn above<A: Allocator>(events: &[DebouncedEvent<A>], left: usize) -> &[DebouncedEvent<A>]
    requires { left ≤ length events.now }
    ensures { result.now ≡ drop left events.now }
{
    &events[left..]
}

/// Takes out all but the first `left` of these events, which stand in reverse, and moves those of which
/// no later one has the same kind to the end of `out`, which has room for them. The others are dropped.
pub(crate) fn move_last_of_kind<A: Allocator>(
    out: &mut Vec<DebouncedEvent<A>, A>,
    events: &mut Vec<DebouncedEvent<A>, A>,
    left: usize,
)
    requires bound { left ≤ length events.old.items }
    requires room { vec_len out.old + length (last_of_kind (reverse (drop left events.old.items)))
        ≤ vec_capacity out.old }
    ensures moved { out.new.items ≡ out.old.items
        ++ last_of_kind (reverse (drop left events.old.items)) }
    ensures capacity { vec_capacity out.new ≡ vec_capacity out.old }
    ensures left { events.new.items ≡ take left events.old.items }
{
    while let Some(event) = pop_above(events, left) {
        move_unless_later(out, event, above(events.as_slice(), left));
    }
}

/// Moves the event to the end of `out`, unless one of the later events has its kind.
fn move_unless_later<A: Allocator>(
    out: &mut Vec<DebouncedEvent<A>, A>,
    event: DebouncedEvent<A>,
    later: &[DebouncedEvent<A>],
)
    requires { vec_len out.old + length (unless_later event later.now) ≤ vec_capacity out.old }
    ensures moved { out.new.items ≡ out.old.items ++ unless_later event later.now }
    ensures capacity { vec_capacity out.new ≡ vec_capacity out.old }
{
    if !has_kind(later, event.kind()) {
        out.push_reserved(event);
    }
}
