//! A tick at which something stays: it searches for each queue that is due, by the paths that the index has.
ghost use Rattle.std.specs.Prelude.{◌≡◌, ◌++◌, ◌+◌, ◌≤◌, IfOk, OnErr, OnOk, is_some, length, true, vec_capacity, vec_len};
ghost use Rattle.notify_types.specs.Borrowed.{borrowed};
ghost use Rattle.debounce_model.specs.Due.{due_fronts, place_list, rests};
ghost use Rattle.debounce_model.specs.Queues.{queue_at};
ghost use Rattle.debounce_queues.specs.Due.{is_due};
ghost use Rattle.debounce_queues.specs.Fronts.{IsIndexed};
ghost use Rattle.debounce_queues.specs.Steps.{AreDuePaths, AreLater, ArePathsDue, AreThere, IsUndue, emitted_of, front_after, given_at, pair_of, taken_at, trimmed_at};

use crate::due::Due;
use crate::fronts::{Fronts, pop_due};
use crate::index::IndexedMap;
use crate::queues::QueueMap;
use crate::settle::{Pairs, add_pair, insert_pairs};
use notify_paths::PathBuf;
use notify_types::DebouncedEvent;
use std::alloc::{AllocError, Allocator};
use std::collections::BTreeSet;
use std::collections::btree_map::Entry;
use std::marker::Model;

/// Paths, in their order.
type Paths<A> = BTreeSet<PathBuf<A>, A>;

/// The paths of the queues that are due, of which a tick has lent what is due.
#[derive(Drop)]
pub struct DuePaths<A: Allocator> {
    pub(crate) paths: Paths<A>,
    /// The pairs of what stays there.
    pub(crate) later: Pairs<A>,
}

impl<A: Allocator> Model for DuePaths<A> {
    ghost use Rattle.debounce_queues.specs.DuePaths.{DuePathsValue};

    ghost Value = { DuePathsValue };

    ghost view = { λ a. record { paths = a.paths; later = a.later.items } };
}

/// Adds references to what is due at these paths, in their order, and returns the later fronts: the
/// pairs of what stays there.
pub(crate) fn lend_each<'a, A: Allocator + Copy>(
    places: &mut Vec<&'a DebouncedEvent<A>, A>,
    map: &'a QueueMap<A>,
    paths: &Paths<A>,
    due: Due,
) -> Result<Pairs<A>, AllocError>
    requires { ArePathsDue due map.now.entries paths.now }
    ensures places { OnOk result (borrowed places.new.items ≡ borrowed places.old.items
        ++ place_list (is_due due) map.now.entries) }
    ensures later { IfOk result (λ later. AreLater due map.now.entries later.items) }
{
    // This call shows the proof that the paths ascend, in the map and in the set.
    let _len = map.len();
    let _paths = paths.len();
    let mut later = Vec::new(*places.allocator());
    for path in paths {
        let Some(queue) = map.get(path) else {
            continue;
        };
        add_pair(&mut later, queue.time_after(due), path)?;
        queue.lend_due(due, places)?;
    }
    Ok(later)
}

/// Takes what is due out of the queue of the path, by one search, and moves it to the end of `out`, which
/// has room for it.
fn give_at<A: Allocator + Copy>(
    map: &mut QueueMap<A>,
    path: PathBuf<A>,
    due: Due,
    out: &mut Vec<DebouncedEvent<A>, A>,
)
    requires there { is_some (queue_at map.old.entries path) ≡ true }
    requires room { vec_len out.old + length (emitted_of due (queue_at map.old.entries path))
        ≤ vec_capacity out.old }
    ensures moved { out.new.items ≡ out.old.items
        ++ emitted_of due (queue_at map.old.entries path) }
    ensures capacity { vec_capacity out.new ≡ vec_capacity out.old }
    ensures taken { map.new.entries ≡ trimmed_at due map.old.entries path }
{
    match map.entry(path) {
        // Neither a refusal nor a vacant entry: the path has a queue.
        Err(_refused) => {}
        Ok(entry) => match entry {
            Entry::Vacant(_vacant) => {}
            Entry::Occupied(mut entry) => {
                let stays = entry.get_mut().take_due(due, out);
                if !stays {
                    entry.remove();
                }
            }
        },
    }
}

/// Takes what is due out of the queues of these paths, one after the other, and moves it to the end of
/// `out`, which has room for it.
fn give_each<A: Allocator + Copy>(
    map: &mut QueueMap<A>,
    paths: Paths<A>,
    due: Due,
    out: &mut Vec<DebouncedEvent<A>, A>,
)
    requires there { AreThere due map.old.entries paths.keys }
    requires room { vec_len out.old + length (given_at due map.old.entries paths.keys)
        ≤ vec_capacity out.old }
    ensures moved { out.new.items ≡ out.old.items ++ given_at due map.old.entries paths.keys }
    ensures capacity { vec_capacity out.new ≡ vec_capacity out.old }
    ensures taken { map.new.entries ≡ taken_at due map.old.entries paths.keys }
{
    for path in paths {
        give_at(map, path, due, out);
    }
}

/// Takes the pairs that are due out of the index.
fn drop_due<A: Allocator>(fronts: &mut Fronts<A>, due: Due)
    ensures { IsUndue due fronts.old fronts.new }
{
    while let Some(_front) = pop_due(fronts, due) {}
}

impl<A: Allocator + Copy> IndexedMap<A> {
    /// The paths of the pairs that are due.
    pub(crate) fn due_paths(&self, due: Due) -> Result<Paths<A>, AllocError>
        ensures { IfOk result (λ paths. AreDuePaths due self.now.fronts paths) }
    {
        let mut paths = BTreeSet::new(self.alloc);
        // Newer fronts come first, so this begins with the oldest.
        let mut fronts = self.fronts.iter();
        while let Some(front) = fronts.next_back() {
            if !due.is_due_at(front.time) {
                return Ok(paths);
            }
            let key = front.path.clone()?;
            paths.insert(key)?;
        }
        Ok(paths)
    }

    /// Moves what is due at these paths to the end of `out`, which has room for it, in their order, and
    /// returns how many queues had something. The later fronts go into the index first, by what alone can
    /// fail; if that is refused, nothing has changed.
    pub(crate) fn take_each(
        &mut self,
        paths: Paths<A>,
        later: Pairs<A>,
        due: Due,
        out: &mut Vec<DebouncedEvent<A>, A>,
    ) -> Result<usize, AllocError>
        requires indexed { IsIndexed self.old.fronts self.old.map.entries }
        requires paths { ArePathsDue due self.old.map.entries paths }
        requires later { AreLater due self.old.map.entries later.items }
        requires room { vec_len out.old + length (place_list (is_due due) self.old.map.entries)
            ≤ vec_capacity out.old }
        ensures moved { OnOk result (out.new.items ≡ out.old.items
            ++ place_list (is_due due) self.old.map.entries) }
        ensures capacity { vec_capacity out.new ≡ vec_capacity out.old }
        ensures count { IfOk result (λ count.
            count ≡ due_fronts (is_due due) self.old.map.entries) }
        ensures left { OnOk result (self.new.map.entries
            ≡ rests (is_due due) self.old.map.entries) }
        ensures unchanged { OnErr result (self.new.map.entries ≡ self.old.map.entries) }
        ensures kept { OnErr result (out.new.items ≡ out.old.items) }
        ensures indexed { IsIndexed self.new.fronts self.new.map.entries }
    {
        // This call shows the proof that the paths ascend, in the map and in the set.
        let _len = self.map.len();
        let count = paths.len();
        if let Err(refused) = insert_pairs(&mut self.fronts, later) {
            self.tidy();
            return Err(refused);
        }
        give_each(&mut self.map, paths, due, out);
        drop_due(&mut self.fronts, due);
        Ok(count)
    }
}
