//! What the kind of an event, and the first event of a queue, say of the path.
ghost use Rattle.std.specs.Prelude.{◌≡◌};
ghost use Rattle.debounce_model.specs.Queues.{creates, removes, was_created, was_removed};
ghost use Rattle.debounce_model.specs.Rename.{is_both_kind};

use notify_types::{DebouncedEvent, EventKind, ModifyKind, RenameMode};
use std::alloc::Allocator;

/// Whether the path is there after an event of this kind.
fn creates(kind: EventKind) -> bool
    ensures { result ≡ creates kind }
{
    matches!(
        kind,
        EventKind::Create(_) | EventKind::Modify(ModifyKind::Name(RenameMode::To))
    )
}

/// Whether the path is gone after an event of this kind.
pub fn removes(kind: EventKind) -> bool
    ensures { result ≡ removes kind }
{
    matches!(
        kind,
        EventKind::Remove(_) | EventKind::Modify(ModifyKind::Name(RenameMode::From))
    )
}

/// Whether this is the kind of a joined rename.
pub fn is_both(kind: EventKind) -> bool
    ensures { result ≡ is_both_kind kind }
{
    matches!(kind, EventKind::Modify(ModifyKind::Name(RenameMode::Both)))
}

/// Whether the first event creates its path.
pub fn were_created<A: Allocator>(events: &[DebouncedEvent<A>]) -> bool
    ensures { result ≡ was_created events.now }
{
    match events.first() {
        None => false,
        Some(first) => creates(first.kind()),
    }
}

/// Whether the first event removes its path.
pub fn were_removed<A: Allocator>(events: &[DebouncedEvent<A>]) -> bool
    ensures { result ≡ was_removed events.now }
{
    match events.first() {
        None => false,
        Some(first) => removes(first.kind()),
    }
}
