//! A queue is put at a path, and its front into the index.
ghost use Rattle.std.specs.Prelude.{◌≡◌, ◌==◌, ◌||◌, ℕ, Some, true, is_some, OnOk, OnErr};
ghost use Rattle.debounce_model.specs.Queues.{queue_at, with_queue};
ghost use Rattle.debounce_model.specs.WellFormed.{IsNonempty};
ghost use Rattle.debounce_queues.specs.Fronts.{IsIndexed, has, is_time, front_time};
ghost use Rattle.debounce_queues.specs.Steps.{HasOnly};

use crate::front::Front;
use crate::index::IndexedMap;
use crate::queue::Queue;
use crate::queues::QueueMap;
use notify_paths::PathBuf;
use notify_types::Moment;
use std::alloc::{AllocError, Allocator};
use std::mem::replace;

impl<A: Allocator + Copy> IndexedMap<A> {
    /// Takes the front of the queue that was replaced at the path in `spare` out of the index, unless the
    /// new front is of the same time.
    fn drop_old_front(&mut self, old: &Queue<A>, time: Moment)
        requires { (t : ℕ) → has self.old.fronts t self.old.spare
            ≡ ((time == t) || is_time (front_time old.now) t) }
        ensures fronts { HasOnly time self.old.spare self.old.fronts self.new.fronts }
        ensures map { self.new.map.entries ≡ self.old.map.entries }
    {
        let Some(was) = old.front_time() else {
            return;
        };
        if was == time {
            return;
        }
        let front = Front {
            time: was,
            path: replace(&mut self.spare, PathBuf::empty(self.alloc)),
        };
        self.fronts.remove(&front);
        let Front {
            time: _,
            path: back,
        } = front;
        self.spare = back;
    }

    /// Puts a queue in the place of what waits at the path, if something does. It leaves room in `spare`
    /// for the path. If an allocation fails, nothing has changed.
    pub(crate) fn put(&mut self, path: PathBuf<A>, queue: Queue<A>) -> Result<(), AllocError>
        requires indexed { IsIndexed self.old.fronts self.old.map.entries }
        requires filled { IsNonempty queue }
        ensures ok { OnOk result (self.new.map.entries
            ≡ with_queue self.old.map.entries path queue) }
        ensures unchanged { OnErr result (self.new.map.entries ≡ self.old.map.entries) }
        ensures indexed { IsIndexed self.new.fronts self.new.map.entries }
    {
        let time = queue.front_time().unwrap();
        self.spare.copy_from(&path)?;
        self.fronts.insert(Front {
            time,
            path: path.clone()?,
        })?;
        match self.map.insert(path, queue) {
            Ok(None) => Ok(()),
            Ok(Some(old)) => {
                self.drop_old_front(&old, time);
                Ok(())
            }
            Err(refused) => {
                // Only a path without a queue is refused, so the pair was not there before.
                let (key, _queue) = refused.value;
                self.fronts.remove(&Front { time, path: key });
                Err(AllocError)
            }
        }
    }

    /// Puts a queue at a path that has none. Its front is of this time. It leaves room in `spare` for the
    /// path. If an allocation fails, nothing has changed.
    pub(crate) fn put_first(
        &mut self,
        path: PathBuf<A>,
        time: Moment,
        queue: Queue<A>,
    ) -> Result<(), AllocError>
        requires indexed { IsIndexed self.old.fronts self.old.map.entries }
        requires none { queue_at self.old.map.entries path ≡ None }
        requires front { front_time queue ≡ Some time }
        ensures ok { OnOk result (self.new.map.entries
            ≡ with_queue self.old.map.entries path queue) }
        ensures unchanged { OnErr result (self.new.map.entries ≡ self.old.map.entries) }
        ensures indexed { IsIndexed self.new.fronts self.new.map.entries }
    {
        self.spare.reserve(&path)?;
        self.fronts.insert(Front {
            time,
            path: path.clone()?,
        })?;
        match self.map.insert(path, queue) {
            Ok(_none) => Ok(()),
            Err(refused) => {
                let (key, _queue) = refused.value;
                self.fronts.remove(&Front { time, path: key });
                Err(AllocError)
            }
        }
    }
}

/// Puts a queue in the place of another.
pub(crate) fn set<A: Allocator>(map: &mut QueueMap<A>, path: &PathBuf<A>, queue: Queue<A>)
    requires { is_some (queue_at map.old.entries path.now) ≡ true }
    ensures { map.new.entries ≡ with_queue map.old.entries path.now queue }
{
    match map.get_mut(path) {
        None => {}
        Some(place) => *place = queue,
    }
}
