//! A tick at which all that waits is due: it goes over all queues in the order of their paths, and takes the map apart,
//! which needs no search and no memory.
ghost use Rattle.std.specs.Prelude.{◌≡◌, ◌==◌, ◌++◌, ◌+◌, ◌-◌, ◌^◌, ◌<◌, ◌≤◌, [], OnOk, length, vec_len, vec_capacity};
ghost use Rattle.notify_types.specs.Borrowed.{borrowed};
ghost use Rattle.debounce_model.specs.Due.{due_fronts, place_list, rests};
ghost use Rattle.debounce_queues.specs.Due.{is_due};
ghost use Rattle.debounce_model.proofs.DueCounts.{count_of};
ghost use Rattle.debounce_queues.specs.Fronts.{IsIndexed};

use crate::due::Due;
use crate::index::IndexedMap;
use crate::queues::QueueMap;
use notify_types::DebouncedEvent;
use std::alloc::{AllocError, Allocator};
use std::collections::{BTreeMap, BTreeSet};
use std::mem::replace;

/// Adds references to what is due, in the order of the paths.
pub(crate) fn lend_all_places<'a, A: Allocator>(
    places: &mut Vec<&'a DebouncedEvent<A>, A>,
    map: &'a QueueMap<A>,
    due: Due,
) -> Result<(), AllocError>
    ensures { OnOk result (borrowed places.new.items ≡ borrowed places.old.items
        ++ place_list (is_due due) map.now.entries) }
{
    for (_path, queue) in map {
        queue.lend_due(due, places)?;
    }
    Ok(())
}

/// Whether all that waits is due.
pub(crate) fn is_all_due<A: Allocator>(map: &QueueMap<A>, due: Due) -> bool
    ensures { result ≡ (length (rests (is_due due) map.now.entries) == 0) }
{
    for (_path, queue) in map {
        if !queue.is_all_due(due) {
            return false;
        }
    }
    true
}

/// One more, if a queue counts.
fn counted(counts: bool, count: usize) -> usize
    requires { count < 2 ^ 64 - 1 }
    ensures { result ≡ count_of counts count }
{
    if counts { count + 1 } else { count }
}

/// Moves what is due of these queues to the end of `out`, which has room for it, in the order of the
/// paths. All else is dropped. Returns how many queues have a front that is due.
fn give_places<A: Allocator>(
    map: QueueMap<A>,
    due: Due,
    out: &mut Vec<DebouncedEvent<A>, A>,
) -> usize
    requires { vec_len out.old + length (place_list (is_due due) map.entries)
        ≤ vec_capacity out.old }
    ensures moved { out.new.items ≡ out.old.items ++ place_list (is_due due) map.entries }
    ensures capacity { vec_capacity out.new ≡ vec_capacity out.old }
    ensures count { result ≡ due_fronts (is_due due) map.entries }
{
    // This call shows the proof that the queues can be counted.
    let _len = map.len();
    let mut count = 0;
    for (_path, mut queue) in map {
        count = counted(queue.is_front_due(due), count);
        queue.take_due(due, out);
    }
    count
}

impl<A: Allocator + Copy> IndexedMap<A> {
    /// Moves what is due to the end of `out`, which has room for it, in the order of the paths, and leaves
    /// no queue. All that waits is due. Returns how many queues there were. It needs no memory.
    pub(crate) fn take_all(&mut self, due: Due, out: &mut Vec<DebouncedEvent<A>, A>) -> usize
        requires all { rests (is_due due) self.old.map.entries ≡ [] }
        requires room { vec_len out.old + length (place_list (is_due due) self.old.map.entries)
            ≤ vec_capacity out.old }
        ensures moved { out.new.items ≡ out.old.items
            ++ place_list (is_due due) self.old.map.entries }
        ensures capacity { vec_capacity out.new ≡ vec_capacity out.old }
        ensures count { result ≡ due_fronts (is_due due) self.old.map.entries }
        ensures left { self.new.map.entries ≡ rests (is_due due) self.old.map.entries }
        ensures indexed { IsIndexed self.new.fronts self.new.map.entries }
    {
        let queues = replace(&mut self.map, BTreeMap::new(self.alloc));
        self.fronts = BTreeSet::new(self.alloc);
        give_places(queues, due, out)
    }
}
