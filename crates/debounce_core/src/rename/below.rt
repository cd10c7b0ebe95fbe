//! What a rename does below its two paths: each queue below the source goes to the same place below the
//! target, and what waits there already is dropped.
ghost use Rattle.std.specs.Prelude.{◌≡◌, ◌++◌, ◌<◌, true, length, IfOk, OnOk};
ghost use Rattle.std.specs.List.Sorted.{IsStrictlySortedBy};
ghost use Rattle.std.specs.Map.{keys_of};
ghost use Rattle.notify_paths.specs.Path.{path_cmp, is_prefix};
ghost use Rattle.debounce_model.specs.MapSteps.{stale, stale_one};
ghost use Rattle.debounce_model.specs.Moved.{are_apart, moved_below};
ghost use Rattle.debounce_core.specs.Rename.Look.{waits_below};
ghost use Rattle.debounce_core.specs.Rename.RenameSteps.{going_at, stale_at};

use super::look::Look;
use super::moved::moved_queue;
use debounce_queues::{Placed, QueueMap};
use notify_paths::PathBuf;
use notify_types::Moment;
use std::alloc::{AllocError, Allocator};
use std::ops::Bound;

/// Whether neither path lies at or below the other. Only then something moves below them.
fn are_apart<A: Allocator>(from: &PathBuf<A>, to: &PathBuf<A>) -> bool
    ensures { result ≡ are_apart from.now to.now }
{
    !to.starts_with(from) && !from.starts_with(to)
}

/// Adds copies of the queues strictly below `from`, as they are after the rename, at the same places
/// below `to`.
fn add_moved_below<A: Allocator + Copy>(
    puts: &mut Placed<A>,
    queues: &QueueMap<A>,
    from: &PathBuf<A>,
    to: &PathBuf<A>,
    began: Moment,
) -> Result<(), AllocError>
    requires { 0 < length from.now }
    ensures { OnOk result (puts.new.items
        ≡ puts.old.items ++ moved_below queues.now.entries from.now to.now began) }
{
    let alloc = *puts.allocator();
    for (path, queue) in queues.range((Bound::Excluded(from), Bound::Unbounded)) {
        if !path.starts_with(from) {
            return Ok(());
        }
        let place = path.relocated(from, to)?;
        let moved = moved_queue(alloc, queue.events(), from, to, began)?;
        puts.push((place, moved))?;
    }
    Ok(())
}

/// Returns what goes along below the source of a rename that began at this time. If one of the two
/// paths lies at or below the other, that is nothing.
pub(crate) fn going_along<A: Allocator + Copy>(
    queues: &QueueMap<A>,
    alloc: A,
    at_source: &Look<'_, A>,
    to: &PathBuf<A>,
    began: Moment,
) -> Result<Placed<A>, AllocError>
    requires { at_source.now.below ≡ waits_below queues.now.entries at_source.now.path.now }
    ensures { IfOk result (λ going. going.items
        ≡ going_at queues.now.entries at_source.now.path.now to.now began) }
{
    let from = at_source.path;
    let mut going = Vec::new(alloc);
    if !at_source.below || !are_apart(at_source.path, to) {
        return Ok(going);
    }
    add_moved_below(&mut going, queues, at_source.path, to, began)?;
    Ok(going)
}

/// Adds a copy of the path, unless a queue waits at the same place below `from`.
fn add_stale<A: Allocator + Copy>(
    list: &mut Vec<PathBuf<A>, A>,
    queues: &QueueMap<A>,
    path: &PathBuf<A>,
    from: &PathBuf<A>,
    to: &PathBuf<A>,
) -> Result<(), AllocError>
    requires some { 0 < length to.now }
    requires below { is_prefix to.now path.now ≡ true }
    ensures { OnOk result (list.new.items
        ≡ list.old.items ++ stale_one queues.now.entries from.now to.now path.now) }
{
    let source = path.relocated(to, from)?;
    if !queues.contains_key(&source) {
        list.push(path.clone()?)?;
    }
    Ok(())
}

/// Copies of the paths of queues strictly below `to` to which nothing is moved.
fn stale_below<A: Allocator + Copy>(
    queues: &QueueMap<A>,
    alloc: A,
    from: &PathBuf<A>,
    to: &PathBuf<A>,
) -> Result<Vec<PathBuf<A>, A>, AllocError>
    requires { 0 < length to.now }
    ensures stale { IfOk result (λ list. list.items ≡ stale queues.now.entries from.now to.now) }
    ensures ordered { IsStrictlySortedBy path_cmp (keys_of queues.now.entries) }
{
    let mut list = Vec::new(alloc);
    for (path, _queue) in queues.range((Bound::Excluded(to), Bound::Unbounded)) {
        if !path.starts_with(to) {
            return Ok(list);
        }
        add_stale(&mut list, queues, path, from, to)?;
    }
    Ok(list)
}

/// Returns copies of the paths below the target at which nothing waits after the rename. If one of its
/// two paths lies at or below the other, there are none.
pub(crate) fn stale_paths<A: Allocator + Copy>(
    queues: &QueueMap<A>,
    alloc: A,
    from: &PathBuf<A>,
    at_target: &Look<'_, A>,
) -> Result<Vec<PathBuf<A>, A>, AllocError>
    requires { at_target.now.below ≡ waits_below queues.now.entries at_target.now.path.now }
    ensures { IfOk result (λ list. list.items
        ≡ stale_at queues.now.entries from.now at_target.now.path.now) }
{
    if !at_target.below || !are_apart(from, at_target.path) {
        return Ok(Vec::new(alloc));
    }
    stale_below(queues, alloc, from, at_target.path)
}
