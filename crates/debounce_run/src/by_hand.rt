//! Debouncers that are fed by hand.
ghost use Rattle.std.specs.Prelude.{◌≡◌, [], true, false, None, IfErr, IfOk, IsErrOf};
ghost use Rattle.std.specs.Duration.{as_nanos};
ghost use Rattle.debounce_lock.specs.History.{picked};
ghost use Rattle.debounce_run.specs.Access.Happened.{is_emitting};
ghost use Rattle.debounce_run.specs.Turns.Handed.{LeavesAll};
ghost use Rattle.debounce_run.specs.Turns.Running.{IsStarted};
ghost use Rattle.debounce_run.specs.Start.{IsStartError, IsStopped, IsTooSlow, too_slow};

use crate::debouncer::{Debouncer, Fed, Running, start_fed, tick_of};
use crate::turns::feed::Feed;
use crate::turns::left::{Ending, Forgotten, Leaves, Returned};
use crate::turns::shared::Shared;
use debounce_book::Book;
use debounce_cache::FileIdCache;
use notify_paths::{Error, ErrorKind, PathBuf};
use notify_types::{Event, RecursiveMode};
use notify_watch::{
    Config, DebounceEventHandler, DebounceEventResult, EventHandler, Task, Watcher, WatcherKind,
};
use std::alloc::Allocator;
use std::fs::Files;
use std::snapshot::Snapshot;
use std::sync::Wait;
use std::thread::Threads;
use std::time::{Clock, Duration};

/// What stands in the place of a watcher: it watches nothing, and refuses nothing.
#[derive(Drop)]
pub struct ByHand;

/// The work of its thread: none.
#[derive(Drop)]
pub struct NoTask<F: Drop> {
    handler: F,
}

impl<F: Send + Drop + 'static> Task for NoTask<F> {
    ghost use Rattle.std.specs.Prelude.{◌≡◌};

    type Handler = F;

    type Last = ();

    ghost is_made = { λ task begun _. task.handler ≡ begun };

    ghost ends = { λ begun _ now _. now ≡ begun };

    fn run(self) -> (F, ()) {
        (self.handler, ())
    }
}

impl<F: EventHandler<Result<Event<A>, Error<A>>> + Send, R: Copy, A: Allocator + Copy> Watcher<
    F,
    R,
    A,
> for ByHand {
    ghost use Rattle.std.specs.Prelude.{◌≡◌, Ok, false};
    ghost use Rattle.notify_watch.specs.declared.config.WatcherKind.TheVariants.{NullWatcher};

    type Task = NoTask<F>;

    ghost takes = { λ _. Unit {0} };

    ghost refuses = { λ _. ⊥ };

    ghost kind_of = { NullWatcher };

    ghost watches = { λ _ _ _ answer _. answer ≡ Ok tt };

    ghost unwatches = { λ _ _ answer _. answer ≡ Ok tt };

    ghost configures = { λ _ _ answer _. answer ≡ Ok false };

    fn new(
        _rt: R,
        _alloc: A,
        handler: F,
        _config: Config,
    ) -> Result<(ByHand, NoTask<F>), Error<A>> {
        Ok((ByHand, NoTask { handler }))
    }

    fn watch(&mut self, _path: &PathBuf<A>, _mode: RecursiveMode) -> Result<(), Error<A>> {
        Ok(())
    }

    fn unwatch(&mut self, _path: &PathBuf<A>) -> Result<(), Error<A>> {
        Ok(())
    }

    fn configure(&mut self, _config: Config) -> Result<bool, Error<A>> {
        Ok(false)
    }

    fn kind() -> WatcherKind {
        WatcherKind::NullWatcher
    }
}

/// Starts a debouncer that has no watcher, and returns its feed beside it. In all else it is as
/// [`new_debouncer_opt`](crate::debouncer::new_debouncer_opt).
///
/// What it is asked to watch is a root, and nothing is watched.
pub fn new_debouncer_by_hand<
    F: DebounceEventHandler<DebounceEventResult<A>>,
    C: FileIdCache<A> + Drop + Send + 'static,
    R: Threads + Wait + Clock + Files + Copy + Send + Sync + 'static,
    A: Allocator + Copy + Send + Sync + 'static,
>(
    rt: R,
    alloc: A,
    timeout: Duration,
    tick_rate: Option<Duration>,
    event_handler: F,
    file_id_cache: C,
) -> Result<(Debouncer<ByHand, C, R, A>, Feed<C, R, A>), Error<A>>
    requires ready { F.ready event_handler }
    ensures rate { IsTooSlow timeout tick_rate → IsErrOf result too_slow }
    ensures opened { IfOk result (λ r. IsStarted r.0 (as_nanos timeout) false) }
    ensures made { IfOk result (λ r. r.0.made ≡ None) }
    ensures feed { IfOk result (λ r. (r.1.lock ≡ r.0.lock) × (r.1.seen ≡ r.0.seen)) }
    ensures err { IfErr result (IsStartError (λ _. ⊥) timeout tick_rate) }
{
    let Some(tick) = tick_of(timeout, tick_rate) else {
        return Err(Error::new(alloc, ErrorKind::Generic(String::new(alloc))));
    };
    let book = Book::new(alloc, file_id_cache, timeout.as_nanos());
    let shared = Shared::new(rt, alloc, book)?;
    let began = Snapshot::of(&Forgotten);
    start_by_hand::<F, Forgotten, Forgotten, C, R, A>(shared, tick, event_handler, began)
}

/// Starts a debouncer that is fed by hand and keeps a journal of the commands that it accepts. In all else it
/// is as [`new_debouncer_by_hand`].
pub fn new_journaled_debouncer_by_hand<
    F: DebounceEventHandler<DebounceEventResult<A>>,
    C: FileIdCache<A> + Drop + Send + 'static,
    R: Threads + Wait + Clock + Files + Copy + Send + Sync + 'static,
    A: Allocator + Copy + Send + Sync + 'static,
>(
    rt: R,
    alloc: A,
    timeout: Duration,
    tick_rate: Option<Duration>,
    event_handler: F,
    file_id_cache: C,
) -> Result<(Debouncer<ByHand, C, R, A>, Feed<C, R, A>), Error<A>>
    requires ready { F.ready event_handler }
    ensures rate { IsTooSlow timeout tick_rate → IsErrOf result too_slow }
    ensures opened { IfOk result (λ r. IsStarted r.0 (as_nanos timeout) true) }
    ensures made { IfOk result (λ r. r.0.made ≡ None) }
    ensures feed { IfOk result (λ r. (r.1.lock ≡ r.0.lock) × (r.1.seen ≡ r.0.seen)) }
    ensures err { IfErr result (IsStartError (λ _. ⊥) timeout tick_rate) }
{
    let Some(tick) = tick_of(timeout, tick_rate) else {
        return Err(Error::new(alloc, ErrorKind::Generic(String::new(alloc))));
    };
    let book = Book::journaled(alloc, file_id_cache, timeout.as_nanos());
    let shared = Shared::new(rt, alloc, book)?;
    let began = Snapshot::of(&Forgotten);
    start_by_hand::<F, Forgotten, Forgotten, C, R, A>(shared, tick, event_handler, began)
}

/// Starts a debouncer that is fed by hand, and whose handler comes back by [`Debouncer::finish_left`]. In all
/// else it is as [`new_debouncer_by_hand`].
pub fn new_told_debouncer_by_hand<
    F: DebounceEventHandler<DebounceEventResult<A>> + Leaves,
    C: FileIdCache<A> + Drop + Send + 'static,
    R: Threads + Wait + Clock + Files + Copy + Send + Sync + 'static,
    A: Allocator + Copy + Send + Sync + 'static,
>(
    rt: R,
    alloc: A,
    timeout: Duration,
    tick_rate: Option<Duration>,
    event_handler: F,
    file_id_cache: C,
) -> Result<(Debouncer<ByHand, C, R, A, F>, Feed<C, R, A>), Error<A>>
    requires ready { F.ready event_handler }
    requires leaves { LeavesAll F.handles (λ h l. l ≡ h) F.tells event_handler event_handler }
    ensures rate { IsTooSlow timeout tick_rate → IsErrOf result too_slow }
    ensures opened { IfOk result (λ r. IsStarted r.0 (as_nanos timeout) false) }
    ensures made { IfOk result (λ r. r.0.made ≡ None) }
    ensures began { IfOk result (λ r. r.0.began ≡ event_handler) }
    ensures feed { IfOk result (λ r. (r.1.lock ≡ r.0.lock) × (r.1.seen ≡ r.0.seen)) }
    ensures err { IfErr result (IsStartError (λ _. ⊥) timeout tick_rate) }
{
    let Some(tick) = tick_of(timeout, tick_rate) else {
        return Err(Error::new(alloc, ErrorKind::Generic(String::new(alloc))));
    };
    let book = Book::new(alloc, file_id_cache, timeout.as_nanos());
    let shared = Shared::new(rt, alloc, book)?;
    let began = Snapshot::of(&event_handler);
    start_by_hand::<F, Returned, F, C, R, A>(shared, tick, event_handler, began)
}

/// Starts the worker. All memory of the debouncer's own is taken before.
fn start_by_hand<
    F: DebounceEventHandler<DebounceEventResult<A>>,
    E: Ending<F, L> + Send + 'static,
    L: Leaves,
    C: FileIdCache<A> + Drop + Send + 'static,
    R: Threads + Wait + Clock + Files + Copy + Send + Sync + 'static,
    A: Allocator + Copy + Send + Sync + 'static,
>(
    mut shared: Shared<C, R, A>,
    tick: Duration,
    handler: F,
    began: Snapshot<L>,
) -> Result<(Debouncer<ByHand, C, R, A, L>, Feed<C, R, A>), Error<A>>
    requires ready { F.ready handler }
    requires leaves { LeavesAll F.handles E.ends L.tells handler began.value }
    requires rights { (shared.owner.keeps ≡ true) × (shared.owner.tells ≡ true)
        × (shared.owner.feeds ≡ true) }
    requires fresh { (picked is_emitting shared.owner.seen ≡ []) × (shared.owner.out ≡ []) }
    ensures opened { IfOk result (λ r.
        (r.0.seen ≡ shared.owner.seen) × (r.0.parts ≡ []) × (r.0.is_whole ≡ true)
        × (r.0.began ≡ began.value)) }
    ensures made { IfOk result (λ r. r.0.made ≡ None) }
    ensures feed { IfOk result (λ r. (r.1.lock ≡ r.0.lock) × (r.1.seen ≡ r.0.seen)) }
    ensures err { IfErr result (IsStopped (λ _. ⊥)) }
{
    let Fed { feed, worker } = start_fed::<F, E, L, C, R, A>(&mut shared, tick, handler, began)?;
    let debouncer = Running {
        watcher: ByHand,
        thread: None,
        shared,
        worker,
    };
    Ok((debouncer, feed))
}
