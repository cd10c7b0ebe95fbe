//! The queues of all paths, with the index of their fronts.
ghost use Rattle.std.specs.Prelude.{◌≡◌, ◌∷◌, ◌++◌, ◌+◌, ◌<◌, ◌≤◌, ◌^◌, [], OnOk, OnErr, IfOk, false, length, vec_len, vec_capacity};
ghost use Rattle.notify_types.specs.Borrowed.{borrowed};
ghost use Rattle.notify_types.specs.Event.{first_of};
ghost use Rattle.debounce_model.specs.Due.{place_list, rests, is_any_due, due_fronts};
ghost use Rattle.debounce_model.specs.MapSteps.{without_queues};
ghost use Rattle.debounce_model.specs.Memory.{skips_it};
ghost use Rattle.debounce_model.specs.Moved.{with_queues};
ghost use Rattle.debounce_model.specs.Queues.{with_queue, without_queue, without_below, push, waiting_in};
ghost use Rattle.debounce_model.specs.WellFormed.{IsNonempty};
ghost use Rattle.debounce_queues.specs.Due.{is_due};
ghost use Rattle.debounce_queues.specs.DuePaths.{AreDueAt};
ghost use Rattle.debounce_queues.specs.Steps.{AreFilled};

use crate::due::Due;
use crate::due_paths::{DuePaths, lend_each};
use crate::fronts::{is_newest_due, is_oldest_due};
use crate::index::IndexedMap;
use crate::put_all::take_only;
use crate::queue::Queue;
use crate::whole::{is_all_due, lend_all_places};
use debounce_model::first_path;
use notify_paths::PathBuf;
use notify_types::DebouncedEvent;
use std::alloc::{AllocError, Allocator, Global};
use std::collections::BTreeMap;
use std::marker::Model;

/// The queues by their paths.
pub type QueueMap<A> = BTreeMap<PathBuf<A>, Queue<A>, A>;

/// Queues with their paths.
pub type Placed<A> = Vec<(PathBuf<A>, Queue<A>), A>;

/// The queues of all paths, none of them empty, and an index of them by the times of their fronts, which
/// a tick goes by.
pub struct IndexedQueues<A: Allocator = Global> {
    index: IndexedMap<A>,
}

// Not derived: a crate that drops queues proves only this call, not the drop of all that is in it.
impl<A: Allocator> Drop for IndexedQueues<A> {
    fn drop(self) {
        let Self { index: _ } = self;
    }
}

impl<A: Allocator> Model for IndexedQueues<A> {
    ghost use Rattle.debounce_model.specs.Queues.{Queues};

    ghost Value = { Queues };

    ghost view = { λ a. a.index.map.entries };

    ghost use Rattle.debounce_queues.specs.Fronts.{IsIndexed};

    ghost invariant = { λ a. IsIndexed a.index.fronts a.index.map.entries };
}

impl<A: Allocator + Copy> IndexedQueues<A> {
    /// Returns queues in which nothing waits.
    pub fn new(alloc: A) -> IndexedQueues<A>
        ensures { result ≡ [] }
    {
        IndexedQueues {
            index: IndexedMap::new(alloc),
        }
    }

    /// Returns the allocator of the queues.
    pub fn allocator(&self) -> A {
        self.index.alloc
    }

    /// Returns the queues by their paths, to look at them.
    pub fn by_path(&self) -> &QueueMap<A>
        ensures { result.now.entries ≡ self.now }
    {
        &self.index.map
    }

    /// The push: the event comes after the others of its first path, unless their queue skips it. It is
    /// one search. If the allocation fails, nothing has changed; none is needed for an event that is
    /// skipped.
    pub fn push(&mut self, event: DebouncedEvent<A>) -> Result<(), AllocError>
        requires { 0 < length event.event.paths }
        ensures ok { OnOk result (self.new ≡ push self.old (first_of event.event.paths) event) }
        ensures unchanged { OnErr result (self.new ≡ self.old) }
        ensures sure { OnErr result (skips_it self.old event.event ≡ false) }
    {
        self.index.push(event)
    }

    /// Puts a queue in the place of what waits at the path, if something does. If an allocation fails,
    /// nothing has changed.
    pub fn put(&mut self, path: PathBuf<A>, queue: Queue<A>) -> Result<(), AllocError>
        requires { IsNonempty queue }
        ensures ok { OnOk result (self.new ≡ with_queue self.old path queue) }
        ensures unchanged { OnErr result (self.new ≡ self.old) }
    {
        self.index.put(path, queue)
    }

    /// Puts the event alone in the place of what waits at its first path, if something does. If an
    /// allocation fails, nothing has changed.
    pub fn put_alone(&mut self, event: DebouncedEvent<A>) -> Result<(), AllocError>
        requires { 0 < length event.event.paths }
        ensures ok { OnOk result (self.new
            ≡ with_queue self.old (first_of event.event.paths) (event ∷ [])) }
        ensures unchanged { OnErr result (self.new ≡ self.old) }
    {
        let path = first_path(&event).clone()?;
        self.put(path, Queue::single(self.allocator(), event)?)
    }

    /// Puts each of these queues at its path; of two at one path the first stays. If an allocation
    /// fails, nothing has changed.
    pub fn put_all(&mut self, mut queues: Placed<A>) -> Result<(), AllocError>
        requires { AreFilled queues.items }
        ensures ok { OnOk result (self.new ≡ with_queues self.old queues.items) }
        ensures unchanged { OnErr result (self.new ≡ self.old) }
    {
        // A queue alone needs no list of the fronts that may change.
        if let Some((path, queue)) = take_only(&mut queues) {
            return self.put(path, queue);
        }
        self.index.put_all(queues)
    }

    /// Takes out what waits at the path. It takes no memory.
    pub fn take_out(&mut self, path: &PathBuf<A>)
        ensures { self.new ≡ without_queue self.old path.now }
    {
        self.index.take_out(path);
    }

    /// Takes out what waits at these paths. It takes no memory.
    pub fn take_out_all(&mut self, paths: &[PathBuf<A>])
        ensures { self.new ≡ without_queues self.old paths.now }
    {
        for path in paths {
            self.take_out(path);
        }
    }

    /// Drops what waits strictly below the path. It can't fail. If nothing lies below, it looks at one
    /// key.
    pub fn drop_below(&mut self, path: &PathBuf<A>)
        ensures { self.new ≡ without_below self.old path.now }
    {
        self.index.drop_below(path);
    }

    /// Whether the front of some queue is due. It looks at one pair of the index.
    pub fn is_any_due(&self, due: Due) -> bool
        ensures { result ≡ is_any_due (is_due due) self.now }
    {
        // This call shows the proof that the paths ascend.
        let _len = self.index.map.len();
        is_oldest_due(&self.index.fronts, due)
    }

    /// Adds references to what is due, in the order of the paths: of each queue's due beginning the last
    /// of each kind. Returns the paths of the queues that are due, or none if all that waits is due. It
    /// opens only queues whose front is due. If an allocation fails, `places` may hold some of them.
    pub fn lend_due<'a>(
        &'a self,
        due: Due,
        places: &mut Vec<&'a DebouncedEvent<A>, A>,
    ) -> Result<Option<DuePaths<A>>, AllocError>
        ensures places { OnOk result (borrowed places.new.items
            ≡ borrowed places.old.items ++ place_list (is_due due) self.now) }
        ensures paths { IfOk result (λ paths. AreDueAt due self.now paths) }
    {
        let index = &self.index;
        if is_newest_due(&index.fronts, due) && is_all_due(&index.map, due) {
            lend_all_places(places, &index.map, due)?;
            return Ok(None);
        }
        let paths = index.due_paths(due)?;
        let later = lend_each(places, &index.map, &paths, due)?;
        Ok(Some(DuePaths { paths, later }))
    }

    /// Moves what is due to the end of `out`, which has room for it, in the order of the paths, and
    /// returns how many queues had something. The paths are those that `lend_due` returned. If an
    /// allocation fails, nothing has changed.
    pub fn take_due(
        &mut self,
        paths: Option<DuePaths<A>>,
        due: Due,
        out: &mut Vec<DebouncedEvent<A>, A>,
    ) -> Result<usize, AllocError>
        requires paths { AreDueAt due self.old paths }
        requires room { vec_len out.old + length (place_list (is_due due) self.old)
            ≤ vec_capacity out.old }
        ensures moved { OnOk result (out.new.items ≡ out.old.items
            ++ place_list (is_due due) self.old) }
        ensures capacity { vec_capacity out.new ≡ vec_capacity out.old }
        ensures count { IfOk result (λ count. count ≡ due_fronts (is_due due) self.old) }
        ensures left { OnOk result (self.new ≡ rests (is_due due) self.old) }
        ensures unchanged { OnErr result (self.new ≡ self.old) }
        ensures kept { OnErr result (out.new.items ≡ out.old.items) }
    {
        match paths {
            None => Ok(self.index.take_all(due, out)),
            Some(DuePaths { paths, later }) => self.index.take_each(paths, later, due, out),
        }
    }

    /// Returns how many events wait.
    pub fn waiting(&self) -> u64
        requires { waiting_in self.now < 2 ^ 64 }
        ensures { result ≡ waiting_in self.now }
    {
        self.index.waiting()
    }
}
