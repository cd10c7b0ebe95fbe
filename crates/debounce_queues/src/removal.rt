//! The removal of a path. What waits below it is dropped; its own queue goes away if it was created, and
//! else becomes the removal alone.
ghost use Rattle.std.specs.Prelude.{◌≡◌, ◌<◌, OnOk, OnErr, false, length, option_copied};
ghost use Rattle.notify_types.specs.Event.{first_of};
ghost use Rattle.debounce_model.specs.Memory.{cancels};
ghost use Rattle.debounce_model.specs.Queues.{was_created_at, removal};
ghost use Rattle.debounce_queues.specs.Removals.{cancelled, replaced};

use crate::queue::Queue;
use crate::queues::IndexedQueues;
use debounce_model::first_path;
use notify_paths::PathBuf;
use notify_types::DebouncedEvent;
use std::alloc::{AllocError, Allocator};

/// Whether there is a queue, and it was created.
fn was_created<A: Allocator>(queue: Option<&Queue<A>>) -> bool
    ensures { result ≡ was_created_at (option_copied queue.entry) }
{
    match queue {
        Some(queue) => queue.was_created(),
        None => false,
    }
}

/// Takes out what waits at the path, and below it. It takes no memory.
fn cancel<A: Allocator + Copy>(queues: &mut IndexedQueues<A>, path: &PathBuf<A>)
    ensures { queues.new ≡ cancelled queues.old path.now }
{
    queues.drop_below(path);
    queues.take_out(path);
}

/// Puts the event alone at its first path, and drops what waits below it. If an allocation fails,
/// nothing has changed.
fn replace<A: Allocator + Copy>(
    queues: &mut IndexedQueues<A>,
    event: DebouncedEvent<A>,
) -> Result<(), AllocError>
    requires { 0 < length event.event.paths }
    ensures ok { OnOk result (queues.new ≡ replaced queues.old (first_of event.event.paths) event) }
    ensures unchanged { OnErr result (queues.new ≡ queues.old) }
{
    // This call shows the proof that the paths ascend.
    let _len = queues.by_path().len();
    let folder = first_path(&event).clone()?;
    // The event is put first, since that alone can fail.
    queues.put_alone(event)?;
    queues.drop_below(&folder);
    Ok(())
}

impl<A: Allocator + Copy> IndexedQueues<A> {
    /// The removal of the event's first path: what waits below it is dropped; its own queue goes away
    /// if it was created, and else becomes this one event. If the allocation fails, nothing has
    /// changed; none is needed if the queue goes away.
    pub fn remove(&mut self, event: DebouncedEvent<A>) -> Result<(), AllocError>
        requires { 0 < length event.event.paths }
        ensures ok { OnOk result (self.new ≡ removal self.old (first_of event.event.paths) event) }
        ensures unchanged { OnErr result (self.new ≡ self.old) }
        ensures sure { OnErr result (cancels self.old event.event ≡ false) }
    {
        let path = first_path(&event);
        if was_created(self.by_path().get(path)) {
            cancel(self, path);
            return Ok(());
        }
        replace(self, event)
    }
}
