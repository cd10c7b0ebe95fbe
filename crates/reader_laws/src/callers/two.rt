//! A caller that makes its calls one by one.
ghost use Rattle.std.specs.Prelude.{◌≡◌, IfOk};
ghost use Rattle.reader_laws.specs.Callers.Two.{two_commands, two_replies};
ghost use Rattle.debounce_model.specs.PathsLaw.{LeavesRawPaths};
ghost use Rattle.debounce_model.specs.State.{waiting};

use debounce_cache::FileIdCache;
use debounce_core::{DebounceDataInner, laws_of_runs};
use notify_paths::Error;
use notify_types::{DebouncedEvent, Event, Moment};
use std::alloc::Allocator;

/// Takes two events whose paths exist, and then emits what is due.
///
/// If nothing waited before and the events are honest, a reader of the batch, and then of what is
/// pending, has the raw paths.
pub fn take_two<C: FileIdCache<A>, A: Allocator + Copy>(
    core: &mut DebounceDataInner<C, A>,
    first: Event<A>,
    second: Event<A>,
    now: Moment,
) -> Result<Vec<DebouncedEvent<A>, A>, Error<A>>
    ensures raw { IfOk result (λ batch. waiting core.old.state ≡ 0 →
        LeavesRawPaths (two_commands first second now) (two_replies batch.items) core.new.state) }
{
    laws_of_runs::<C, A>();
    // This call shows the proof that the queues are well-formed.
    let _waiting = core.waiting();
    core.add_event(first, now, true)?;
    core.add_event(second, now, true)?;
    let batch = core.debounced_events(now)?;
    Ok(batch)
}
