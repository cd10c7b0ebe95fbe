//! The joined rename, whole.
ghost use Rattle.std.specs.Prelude.{◌≡◌, ◌<◌, ◌∷◌, ◌++◌, [], IfOk, OnErr, OnOk, length, option_copied};
ghost use Rattle.debounce_model.specs.WellFormed.{AreQueues};
ghost use Rattle.debounce_core.specs.Rename.Renames.{joined_by, renamed_by};
ghost use Rattle.debounce_core.specs.Rename.RenameSteps.{IsPuts, left_by, staying_at};

use super::arrived::arrived;
use super::below::{going_along, stale_paths};
use super::look::{Look, look_at};
use super::source::{Source, source_at};
use super::target::target_at;
use super::{FirstHalf, Rename};
use debounce_queues::{IndexedQueues, Placed, Queue};
use notify_paths::PathBuf;
use notify_types::{DebouncedEvent, Event};
use std::alloc::{AllocError, Allocator};

/// The second half of a rename to the event's first path. If there is a first half, it is what came last
/// at its path: what waits there, and below, goes to the new path. Else the event is pushed. If an
/// allocation fails, nothing has changed.
pub fn join<A: Allocator + Copy>(
    queues: &mut IndexedQueues<A>,
    half: Option<FirstHalf<'_, A>>,
    event: DebouncedEvent<A>,
) -> Result<(), AllocError>
    requires queues { AreQueues queues.old }
    requires path { 0 < length event.event.paths }
    ensures ok { OnOk result (queues.new ≡ renamed_by queues.old half.entry event) }
    ensures unchanged { OnErr result (queues.new ≡ queues.old) }
{
    let Some(half) = half else {
        return queues.push(event);
    };
    let Event { paths, attrs, .. } = event.event;
    let rename = Rename {
        from: half.from,
        to: &paths[0],
        time: half.time,
        attrs,
    };
    carry_over(queues, rename)
}

/// The joined rename. What waits at its source goes to its target, behind the rename; the last event
/// there is the rename's first half, and goes. What waits below the source goes along. If an allocation
/// fails, nothing has changed.
fn carry_over<A: Allocator + Copy>(
    queues: &mut IndexedQueues<A>,
    rename: Rename<'_, A>,
) -> Result<(), AllocError>
    requires { AreQueues queues.old }
    ensures ok { OnOk result (queues.new ≡ joined_by queues.old rename.entry) }
    ensures unchanged { OnErr result (queues.new ≡ queues.old) }
{
    let from = rename.from;
    let to = rename.to;
    let alloc = queues.allocator();
    let map = queues.by_path();
    let at_source = look_at(map, from);
    let at_target = look_at(map, to);
    let source = source_at(at_source.queue);
    let stays = source.keeps_event();
    let going = going_along(
        map,
        alloc,
        &at_source,
        to,
        source.original_time(rename.time),
    )?;
    let goes = !going.as_slice().is_empty();
    let stale = stale_paths(map, alloc, from, &at_target)?;
    let puts = puts(alloc, &source, &at_target, rename, going)?;
    queues.put_all(puts)?;
    // From here on nothing can fail.
    leave(queues, from, to, stays);
    queues.take_out_all(stale.as_slice());
    // If nothing goes along, nothing waits below the source either, or it stays there.
    if goes {
        queues.drop_below(from);
    }
    Ok(())
}

/// The queues that a rename of this source puts: what then waits at the target, the event that stays at
/// the source, and what goes along below it.
fn puts<A: Allocator + Copy>(
    alloc: A,
    source: &Source<'_, A>,
    at_target: &Look<'_, A>,
    rename: Rename<'_, A>,
    mut going: Placed<A>,
) -> Result<Placed<A>, AllocError>
    requires { at_target.now.path.now ≡ rename.to.now }
    ensures { IfOk result (λ puts. IsPuts source.now (option_copied at_target.now.queue)
        rename.entry going.items puts.items) }
{
    let from = rename.from;
    let to = rename.to;
    let target = target_at(source, from, at_target);
    let queue = arrived(alloc, source, target, rename)?;
    let mut puts = put_at(alloc, to, queue)?;
    add_staying(&mut puts, from, source.stays)?;
    puts.append(&mut going)?;
    Ok(puts)
}

/// A list of this queue alone, at this path.
fn put_at<A: Allocator + Copy>(
    alloc: A,
    path: &PathBuf<A>,
    queue: Queue<A>,
) -> Result<Placed<A>, AllocError>
    ensures { IfOk result (λ puts. puts.items ≡ (path.now, queue) ∷ []) }
{
    let place = path.clone()?;
    let mut puts = Vec::with_capacity(alloc, 1)?;
    puts.push((place, queue))?;
    Ok(puts)
}

/// Adds a queue of the event that stays, if there is one.
fn add_staying<A: Allocator + Copy>(
    puts: &mut Placed<A>,
    from: &PathBuf<A>,
    stays: Option<&DebouncedEvent<A>>,
) -> Result<(), AllocError>
    ensures { OnOk result (puts.new.items
        ≡ puts.old.items ++ staying_at from.now (option_copied stays.entry)) }
{
    let Some(event) = stays else {
        return Ok(());
    };
    let queue = Queue::single(*puts.allocator(), event.clone()?)?;
    puts.push((from.clone()?, queue))?;
    Ok(())
}

/// Takes out what waits at the source, unless an event stays there, or it is the target.
fn leave<A: Allocator + Copy>(
    queues: &mut IndexedQueues<A>,
    from: &PathBuf<A>,
    to: &PathBuf<A>,
    stays: bool,
)
    ensures { queues.new ≡ left_by queues.old from.now to.now stays }
{
    if !stays && *from != *to {
        queues.take_out(from);
    }
}
