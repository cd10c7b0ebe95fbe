//! Several queues are put at once. The index first gets each front that comes, and the map room for each
//! queue, by what alone can fail; then the queues are put, and the index loses what is no front.
ghost use Rattle.std.specs.Prelude.{◌≡◌, ◌++◌, ◌∷◌, [], IfOk, IfNone, IfSome, OnErr, OnOk};
ghost use Rattle.debounce_model.specs.Moved.{with_queues};
ghost use Rattle.debounce_queues.specs.Fronts.{IsIndexed};
ghost use Rattle.debounce_queues.specs.Steps.{AreFilled, DifferAt, IsKept, IsWith, put_pairs, put_pairs_at};

use crate::front::Front;
use crate::index::IndexedMap;
use crate::queue::Queue;
use crate::queues::{Placed, QueueMap};
use crate::room::set_all;
use crate::settle::{Pairs, add_front_at, add_pair, insert_copies};
use notify_paths::PathBuf;
use std::alloc::{AllocError, Allocator};

/// Adds the front of what waits at the path, and that of the queue that is put there.
fn add_fronts<A: Allocator + Copy>(
    pairs: &mut Pairs<A>,
    map: &QueueMap<A>,
    path: &PathBuf<A>,
    queue: &Queue<A>,
) -> Result<(), AllocError>
    ensures { OnOk result (pairs.new.items
        ≡ pairs.old.items ++ put_pairs_at map.now.entries path.now queue.now) }
{
    add_front_at(pairs, map, path)?;
    add_pair(pairs, queue.front_time(), path)
}

/// Takes the only one of these queues out, if it is the only one.
pub(crate) fn take_only<A: Allocator>(queues: &mut Placed<A>) -> Option<(PathBuf<A>, Queue<A>)>
    ensures some { IfSome result (λ only. queues.old.items ≡ only ∷ []) }
    ensures none { IfNone result (queues.new.items ≡ queues.old.items) }
{
    if queues.len() != 1 {
        return None;
    }
    queues.pop()
}

impl<A: Allocator + Copy> IndexedMap<A> {
    /// The fronts at the paths of these queues, before they are put there and after.
    fn fronts_at(&self, queues: &[(PathBuf<A>, Queue<A>)]) -> Result<Pairs<A>, AllocError>
        ensures { IfOk result (λ pairs. pairs.items ≡ put_pairs self.now.map.entries queues.now) }
    {
        let mut pairs = Vec::new(self.alloc);
        for (path, queue) in queues {
            add_fronts(&mut pairs, &self.map, path, queue)?;
        }
        Ok(pairs)
    }

    /// Puts these queues, after the index got these pairs. If an allocation fails, the index may have some
    /// of them.
    fn insert_and_put(&mut self, pairs: &[Front<A>], queues: Placed<A>) -> Result<(), AllocError>
        requires { AreFilled self.old.map.entries }
        ensures ok { OnOk result (self.new.map.entries
            ≡ with_queues self.old.map.entries queues.items) }
        ensures unchanged { OnErr result (self.new.map.entries ≡ self.old.map.entries) }
        ensures put { OnOk result (IsWith pairs.now self.old.fronts self.new.fronts) }
        ensures kept { IsKept self.old.fronts self.new.fronts }
        ensures others { DifferAt pairs.now self.old.fronts self.new.fronts }
    {
        // This call shows the proof that the paths ascend.
        let _len = self.map.len();
        insert_copies(&mut self.fronts, pairs)?;
        self.make_room(queues.as_slice())?;
        set_all(&mut self.map, queues);
        Ok(())
    }

    /// Puts each of these queues at its path; of two at one path the first stays. If an allocation fails,
    /// nothing has changed.
    pub(crate) fn put_all(&mut self, queues: Placed<A>) -> Result<(), AllocError>
        requires indexed { IsIndexed self.old.fronts self.old.map.entries }
        requires filled { AreFilled queues.items }
        ensures ok { OnOk result (self.new.map.entries
            ≡ with_queues self.old.map.entries queues.items) }
        ensures unchanged { OnErr result (self.new.map.entries ≡ self.old.map.entries) }
        ensures indexed { IsIndexed self.new.fronts self.new.map.entries }
    {
        let pairs = self.fronts_at(queues.as_slice())?;
        let put = self.insert_and_put(pairs.as_slice(), queues);
        self.settle(pairs.as_slice());
        put
    }
}
