//! A change of several queues at once: first the index gets each front that may come, then the queues
//! are changed, and then the index loses what is no front.
ghost use Rattle.std.specs.Prelude.{◌≡◌, ◌++◌, ℕ, OnOk, OnErr, true};
ghost use Rattle.notify_paths.specs.Path.{PathValue};
ghost use Rattle.debounce_queues.specs.Fronts.{IsIndexed, has, is_front};
ghost use Rattle.debounce_queues.specs.Steps.{AreFilled, DifferAt, IsKept, IsSame, IsSettled, IsSettledPair, IsWith, IsWithPair, front_pair, pair_of};

use crate::front::Front;
use crate::fronts::{Fronts, front_of, is_front};
use crate::index::IndexedMap;
use crate::queues::QueueMap;
use notify_paths::PathBuf;
use notify_types::Moment;
use std::alloc::{AllocError, Allocator};

/// Pairs of a time and a path.
pub(crate) type Pairs<A> = Vec<Front<A>, A>;

/// Adds the pair of this time, if there is one, and a copy of the path.
pub(crate) fn add_pair<A: Allocator + Copy>(
    pairs: &mut Pairs<A>,
    time: Option<Moment>,
    path: &PathBuf<A>,
) -> Result<(), AllocError>
    ensures { OnOk result (pairs.new.items ≡ pairs.old.items ++ pair_of time path.now) }
{
    if let Some(time) = time {
        pairs.push(Front {
            time,
            path: path.clone()?,
        })?;
    }
    Ok(())
}

/// Adds the front of what waits at the path.
pub(crate) fn add_front_at<A: Allocator + Copy>(
    pairs: &mut Pairs<A>,
    map: &QueueMap<A>,
    path: &PathBuf<A>,
) -> Result<(), AllocError>
    ensures { OnOk result (pairs.new.items ≡ pairs.old.items
        ++ front_pair map.now.entries path.now) }
{
    add_pair(pairs, front_of(map.get(path)), path)
}

/// Puts a copy of the pair into the index, unless it is there.
fn insert_copy<A: Allocator + Copy>(
    fronts: &mut Fronts<A>,
    pair: &Front<A>,
) -> Result<(), AllocError>
    ensures ok { OnOk result (IsWithPair pair.now fronts.old fronts.new) }
    ensures unchanged { OnErr result (IsSame fronts.old fronts.new) }
{
    if fronts.contains(pair) {
        return Ok(());
    }
    fronts.insert(Front {
        time: pair.time,
        path: pair.path.clone()?,
    })?;
    Ok(())
}

/// Puts these pairs into the index. If an allocation fails, it may have some of them.
pub(crate) fn insert_pairs<A: Allocator + Copy>(
    fronts: &mut Fronts<A>,
    pairs: Pairs<A>,
) -> Result<(), AllocError>
    ensures ok { OnOk result (IsWith pairs.items fronts.old fronts.new) }
    ensures kept { IsKept fronts.old fronts.new }
{
    for front in pairs {
        fronts.insert(front)?;
    }
    Ok(())
}

/// Puts copies of these pairs into the index. If an allocation fails, it may have some of them.
pub(crate) fn insert_copies<A: Allocator + Copy>(
    fronts: &mut Fronts<A>,
    pairs: &[Front<A>],
) -> Result<(), AllocError>
    ensures ok { OnOk result (IsWith pairs.now fronts.old fronts.new) }
    ensures kept { IsKept fronts.old fronts.new }
    ensures others { DifferAt pairs.now fronts.old fronts.new }
{
    for pair in pairs {
        insert_copy(fronts, pair)?;
    }
    Ok(())
}

impl<A: Allocator + Copy> IndexedMap<A> {
    /// Takes the pair out of the index, unless it is a front.
    fn settle_one(&mut self, pair: &Front<A>)
        ensures fronts { IsSettledPair self.old.map.entries pair.now
            self.old.fronts self.new.fronts }
        ensures map { self.new.map.entries ≡ self.old.map.entries }
    {
        if !is_front(&self.map, &pair.path, pair.time) {
            self.fronts.remove(pair);
        }
    }

    /// Takes these pairs out of the index, but for those that are fronts.
    pub(crate) fn settle(&mut self, pairs: &[Front<A>])
        ensures fronts { IsSettled self.old.map.entries pairs.now self.old.fronts self.new.fronts }
        ensures map { self.new.map.entries ≡ self.old.map.entries }
    {
        for pair in pairs {
            self.settle_one(pair);
        }
    }

    /// Takes out of the index whatever is no front.
    pub(crate) fn tidy(&mut self)
        requires covered { (t : ℕ) (p : PathValue) → is_front self.old.map.entries t p ≡ true →
            has self.old.fronts t p ≡ true }
        requires filled { AreFilled self.old.map.entries }
        ensures map { self.new.map.entries ≡ self.old.map.entries }
        ensures indexed { IsIndexed self.new.fronts self.new.map.entries }
    {
        let map = &self.map;
        self.fronts
            .retain(|front| is_front(map, &front.path, front.time));
    }
}
