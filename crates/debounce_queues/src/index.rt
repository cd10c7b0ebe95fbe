//! The queues of all paths and an index of their fronts, as two values that need not fit.
ghost use Rattle.std.specs.Prelude.{◌≡◌, ◌<◌, ◌^◌, []};
ghost use Rattle.debounce_model.specs.Queues.{waiting_in};
ghost use Rattle.debounce_queues.specs.Fronts.{IsIndexed};

use crate::fronts::Fronts;
use crate::queues::QueueMap;
use notify_paths::PathBuf;
use std::alloc::Allocator;
use std::collections::{BTreeMap, BTreeSet};

/// The queues of all paths, and an index of their fronts. It has no law, since one of the two changes
/// before the other: each method says what it asks of them, and what it leaves.
#[derive(Drop)]
pub(crate) struct IndexedMap<A: Allocator> {
    pub(crate) map: QueueMap<A>,
    pub(crate) fronts: Fronts<A>,
    /// Has room for a copy of each key, so that a removal needs no memory. What it holds says nothing.
    pub(crate) spare: PathBuf<A>,
    pub(crate) alloc: A,
}

impl<A: Allocator + Copy> IndexedMap<A> {
    /// Returns no queues, with their index.
    pub(crate) fn new(alloc: A) -> IndexedMap<A>
        ensures map { result.map.entries ≡ [] }
        ensures indexed { IsIndexed result.fronts result.map.entries }
    {
        IndexedMap {
            map: BTreeMap::new(alloc),
            fronts: BTreeSet::new(alloc),
            spare: PathBuf::empty(alloc),
            alloc,
        }
    }

    /// Returns how many events wait.
    pub(crate) fn waiting(&self) -> u64
        requires { waiting_in self.now.map.entries < 2 ^ 64 }
        ensures { result ≡ waiting_in self.now.map.entries }
    {
        let mut count = 0;
        for (_path, queue) in &self.map {
            count += queue.events().len() as u64;
        }
        count
    }
}
