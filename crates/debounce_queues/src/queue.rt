//! The queue of one path.
ghost use Rattle.std.specs.Prelude.{◌≡◌, ◌↔◌, ◌++◌, ◌∷◌, ◌+◌, ◌≤◌, [], OnOk, OnErr, IfOk, IfErr, IsTrue, false, not, length, vec_len, vec_capacity};
ghost use Rattle.std.specs.Cmp.{partial_equiv_from_equiv};
ghost use Rattle.notify_paths.specs.Errors.{out_of_memory};
ghost use Rattle.notify_types.specs.Borrowed.{borrowed};
ghost use Rattle.debounce_model.specs.Equality.{events_eq};
ghost use Rattle.debounce_model.specs.EqualityLaws.{events_eq_equiv};
ghost use Rattle.debounce_model.specs.Queues.{was_created, was_removed, appended, skips};
ghost use Rattle.debounce_model.specs.Due.{expired_beginning, is_front_due, last_of_kind, rest_after, waits};
ghost use Rattle.debounce_queues.specs.Due.{is_due};
ghost use Rattle.debounce_queues.specs.Fronts.{front_time};

use crate::due::{Due, expired_count, lend_last_of_kind, move_last_of_kind, reverse_events};
use crate::first::{were_created, were_removed};
use notify_paths::Error;
use notify_types::{DebouncedEvent, Moment};
use std::alloc::{AllocError, Allocator, Global};
use std::marker::Model;

/// The events that wait at one path, in the order in which they came.
#[derive(Debug, Drop)]
pub struct Queue<A: Allocator = Global> {
    events: Vec<DebouncedEvent<A>, A>,
}

impl<A: Allocator> Model for Queue<A> {
    ghost use Rattle.std.specs.Prelude.{List};
    ghost use Rattle.notify_types.specs.Event.{Timed};

    ghost Value = { List Timed };

    ghost view = { λ a. a.events.items };
}

impl<A: Allocator> Queue<A> {
    /// Returns the queue of these events.
    pub fn new(events: Vec<DebouncedEvent<A>, A>) -> Queue<A>
        ensures { result ≡ events.items }
    {
        Queue { events }
    }

    /// Returns a queue of this event alone.
    pub fn single(alloc: A, event: DebouncedEvent<A>) -> Result<Queue<A>, AllocError>
        ensures { IfOk result (λ queue. queue ≡ event ∷ []) }
    {
        let mut events = Vec::with_capacity(alloc, 1)?;
        events.push(event)?;
        Ok(Queue::new(events))
    }

    /// Whether the first event is a `Create` or a `Modify(Name(To))`.
    pub fn was_created(&self) -> bool
        ensures { result ≡ was_created self.now }
    {
        were_created(self.events.as_slice())
    }

    /// Whether the first event is a `Remove` or a `Modify(Name(From))`.
    pub fn was_removed(&self) -> bool
        ensures { result ≡ was_removed self.now }
    {
        were_removed(self.events.as_slice())
    }

    /// Returns an equal queue.
    pub fn try_clone(&self) -> Result<Queue<A>, Error<A>>
    where
        A: Copy,
        ensures ok { IfOk result (λ queue. queue ≡ self.now) }
        ensures err { IfErr result (λ e. e ≡ out_of_memory) }
    {
        let alloc = *self.events.allocator();
        match self.events.to_vec(alloc) {
            Ok(events) => Ok(Queue { events }),
            Err(_) => Err(Error::out_of_memory(alloc)),
        }
    }

    /// Returns the events that wait.
    pub fn events(&self) -> &[DebouncedEvent<A>]
        ensures { result.now ≡ self.now }
    {
        self.events.as_slice()
    }

    /// Whether an event waits.
    pub fn has_events(&self) -> bool
        ensures { result ≡ waits self.now }
    {
        !self.events.as_slice().is_empty()
    }

    /// Returns the time of the first event.
    pub fn front_time(&self) -> Option<Moment>
        ensures { result ≡ front_time self.now }
    {
        match self.events.first() {
            None => None,
            Some(first) => Some(first.time()),
        }
    }

    /// Returns the time of the first event after the due beginning.
    pub fn time_after(&self, due: Due) -> Option<Moment>
        ensures { result ≡ front_time (rest_after (is_due due) self.now) }
    {
        let events = self.events.as_slice();
        let count = expired_count(events, due);
        match events[count..].first() {
            None => None,
            Some(first) => Some(first.time()),
        }
    }

    /// Whether the first event is due.
    pub fn is_front_due(&self, due: Due) -> bool
        ensures { result ≡ is_front_due (is_due due) self.now }
    {
        match self.events.first() {
            None => false,
            Some(first) => due.is_due(first),
        }
    }

    /// Puts an event after the others, unless the queue was created and skips it. If the allocation
    /// fails, nothing has changed; none is needed for an event that is skipped.
    pub fn append(&mut self, event: DebouncedEvent<A>) -> Result<(), AllocError>
        ensures ok { OnOk result (self.new ≡ appended self.old event) }
        ensures unchanged { OnErr result (self.new ≡ self.old) }
        ensures sure { OnErr result (skips self.old event.event.kind ≡ false) }
    {
        if event.kind().is_skippable() && self.was_created() {
            return Ok(());
        }
        self.events.push(event)?;
        Ok(())
    }

    /// Whether all events are due.
    pub fn is_all_due(&self, due: Due) -> bool
        ensures { result ≡ not (waits (rest_after (is_due due) self.now)) }
    {
        let events = self.events.as_slice();
        let count = expired_count(events, due);
        events[count..].is_empty()
    }

    /// Adds references to what is due: of the due beginning the last event of each kind. If an allocation
    /// fails, `places` may hold some of them.
    pub fn lend_due<'a>(
        &'a self,
        due: Due,
        places: &mut Vec<&'a DebouncedEvent<A>, A>,
    ) -> Result<(), AllocError>
        ensures { OnOk result (borrowed places.new.items ≡ borrowed places.old.items
            ++ last_of_kind (expired_beginning (is_due due) self.now)) }
    {
        let events = self.events.as_slice();
        let count = expired_count(events, due);
        lend_last_of_kind(places, &events[..count])
    }

    /// Takes the due beginning out of the queue, and returns whether something still waits. The last
    /// event of each kind of it goes to the end of `out`, which has room for them; the others are dropped.
    pub fn take_due(&mut self, due: Due, out: &mut Vec<DebouncedEvent<A>, A>) -> bool
        requires { vec_len out.old + length
            (last_of_kind (expired_beginning (is_due due) self.old)) ≤ vec_capacity out.old }
        ensures moved { out.new.items ≡ out.old.items
            ++ last_of_kind (expired_beginning (is_due due) self.old) }
        ensures capacity { vec_capacity out.new ≡ vec_capacity out.old }
        ensures rest { self.new ≡ rest_after (is_due due) self.old }
        ensures waits { result ≡ waits (rest_after (is_due due) self.old) }
    {
        let count = expired_count(self.events.as_slice(), due);
        let left = self.events.len() - count;
        reverse_events(&mut self.events);
        move_last_of_kind(out, &mut self.events, left);
        reverse_events(&mut self.events);
        self.has_events()
    }
}

impl<A: Allocator> PartialEq for Queue<A> {
    ghost eq = { events_eq };

    ghost laws = { partial_equiv_from_equiv events_eq_equiv };

    fn eq(&self, other: &Queue<A>) -> bool
        ensures value { result ≡ events_eq self.now other.now }
        ensures same { IsTrue result ↔ (self.now ≡ other.now) }
    {
        self.events == other.events
    }
}

impl<A: Allocator> Eq for Queue<A> {
    ghost laws = { events_eq_equiv };
}
