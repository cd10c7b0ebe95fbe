//! Room in the map for queues that come: an empty queue at each path that has none. If an allocation
//! fails, the empty queues go again.
ghost use Rattle.std.specs.Prelude.{◌≡◌, OnOk, OnErr};
ghost use Rattle.debounce_model.specs.Due.{waits};
ghost use Rattle.debounce_model.specs.MapSteps.{HasRoom, nonempty_of, reserved, reserved_all};
ghost use Rattle.debounce_model.specs.Moved.{with_queues};
ghost use Rattle.debounce_queues.specs.Steps.{AreFilled};

use crate::change::{Change, change_values};
use crate::index::IndexedMap;
use crate::put::set;
use crate::queue::Queue;
use crate::queues::{Placed, QueueMap};
use notify_paths::PathBuf;
use std::alloc::{AllocError, Allocator};

/// Keeps a queue in which something waits.
#[derive(Drop)]
struct KeepWaiting;

impl<A: Allocator> Change<Queue<A>> for KeepWaiting {
    ghost changed = { λ k events. events };

    ghost stays = { λ k events. waits events };

    fn change(&self, queue: &mut Queue<A>) -> bool {
        queue.has_events()
    }
}

/// Drops the empty queues.
fn drop_empty<A: Allocator>(map: &mut QueueMap<A>)
    ensures { map.new.entries ≡ nonempty_of map.old.entries }
{
    change_values(map, &KeepWaiting);
}

impl<A: Allocator + Copy> IndexedMap<A> {
    /// Puts an empty queue at the path, if it has none, and leaves room in `spare` for the path.
    fn reserve(&mut self, path: &PathBuf<A>) -> Result<(), AllocError>
        ensures ok { OnOk result (self.new.map.entries ≡ reserved self.old.map.entries path.now) }
        ensures unchanged { OnErr result (self.new.map.entries ≡ self.old.map.entries) }
        ensures fronts { self.new.fronts ≡ self.old.fronts }
    {
        if self.map.contains_key(path) {
            return Ok(());
        }
        self.spare.reserve(path)?;
        let key = path.clone()?;
        self.map.insert(key, Queue::new(Vec::new(self.alloc)))?;
        Ok(())
    }

    /// Makes room for these queues, as far as there is memory.
    fn reserve_all(&mut self, queues: &[(PathBuf<A>, Queue<A>)]) -> Result<(), AllocError>
        ensures ok { OnOk result (self.new.map.entries
            ≡ reserved_all self.old.map.entries queues.now) }
        ensures filled { OnErr result (nonempty_of self.new.map.entries
            ≡ nonempty_of self.old.map.entries) }
        ensures fronts { self.new.fronts ≡ self.old.fronts }
    {
        for (path, _queue) in queues {
            self.reserve(path)?;
        }
        Ok(())
    }

    /// Makes room for these queues, or leaves all as it was.
    pub(crate) fn make_room(&mut self, queues: &[(PathBuf<A>, Queue<A>)]) -> Result<(), AllocError>
        requires { AreFilled self.old.map.entries }
        ensures ok { OnOk result (self.new.map.entries
            ≡ reserved_all self.old.map.entries queues.now) }
        ensures unchanged { OnErr result (self.new.map.entries ≡ self.old.map.entries) }
        ensures fronts { self.new.fronts ≡ self.old.fronts }
    {
        match self.reserve_all(queues) {
            Ok(()) => Ok(()),
            Err(refused) => {
                drop_empty(&mut self.map);
                Err(refused)
            }
        }
    }
}

/// Puts each of these queues at its path, for which there is room.
pub(crate) fn set_all<A: Allocator>(map: &mut QueueMap<A>, mut queues: Placed<A>)
    requires { HasRoom map.old.entries queues.items }
    ensures { map.new.entries ≡ with_queues map.old.entries queues.items }
{
    while let Some((path, queue)) = queues.pop() {
        set(map, &path, queue);
    }
}
