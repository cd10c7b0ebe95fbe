//! The rescan slot: the last event that said that others were lost.
ghost use Rattle.std.specs.Prelude.{◌≡◌, ◌∷◌, ◌++◌, ◌+◌, ◌<◌, ◌≤◌, OnOk, length, vec_len, vec_capacity};
ghost use Rattle.notify_types.specs.Borrowed.{borrowed};
ghost use Rattle.debounce_model.specs.Tick.{due_of, rest_of, is_slot_due};
ghost use Rattle.debounce_model.specs.State.{held};
ghost use Rattle.debounce_queues.specs.Due.{is_due};

use debounce_queues::Due;
use notify_types::DebouncedEvent;
use std::alloc::{AllocError, Allocator};

/// Whether the event of the slot is due.
pub fn is_slot_due<A: Allocator>(slot: &Option<DebouncedEvent<A>>, due: Due) -> bool
    ensures { result ≡ is_slot_due (is_due due) slot.now }
{
    match slot {
        None => false,
        Some(event) => due.is_due(event),
    }
}

/// Adds a reference to the slot's event, if it is due.
pub(crate) fn lend_due<'a, A: Allocator>(
    events: &mut Vec<&'a DebouncedEvent<A>, A>,
    slot: &'a Option<DebouncedEvent<A>>,
    due: Due,
) -> Result<(), AllocError>
    ensures { OnOk result (borrowed events.new.items ≡ borrowed events.old.items
        ++ due_of (is_due due) slot.now) }
{
    if let Some(event) = slot {
        if due.is_due(event) {
            events.push(event)?;
        }
    }
    Ok(())
}

/// Puts the event before the others; there is room for it.
fn put_first<A: Allocator>(out: &mut Vec<DebouncedEvent<A>, A>, event: DebouncedEvent<A>)
    requires { vec_len out.old < vec_capacity out.old }
    ensures { out.new.items ≡ event ∷ out.old.items }
{
    let _inserted = out.insert(0, event);
}

/// Moves the slot's event, if it is due, to the front of `out`, which has room for it.
pub(crate) fn give_first<A: Allocator>(
    slot: &mut Option<DebouncedEvent<A>>,
    due: Due,
    out: &mut Vec<DebouncedEvent<A>, A>,
)
    requires { vec_len out.old + length (due_of (is_due due) slot.old) ≤ vec_capacity out.old }
    ensures moved { out.new.items ≡ due_of (is_due due) slot.old ++ out.old.items }
    ensures rest { slot.new ≡ rest_of (is_due due) slot.old }
{
    if !is_slot_due(slot, due) {
        return;
    }
    if let Some(event) = slot.take() {
        put_first(out, event);
    }
}

/// How many events the slot holds.
pub fn held<A: Allocator>(slot: &Option<DebouncedEvent<A>>) -> u64
    ensures { result ≡ held slot.now }
{
    match slot {
        None => 0,
        Some(_) => 1,
    }
}
