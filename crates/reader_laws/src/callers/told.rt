//! A caller whose handler comes back, and one who feeds by hand: what they know of the calls is known of the
//! debouncer's history.
ghost use Rattle.std.specs.Prelude.{◌≡◌, true, false, IfOk};
ghost use Rattle.reader_laws.specs.Callers.Told.{EndsCalled, EndsFed};

use debounce_book::Book;
use debounce_cache::NoCache;
use debounce_run::{
    ByHand, Debouncer, Feed, Finished, Leaves, new_told_debouncer, new_told_debouncer_by_hand,
};
use notify_paths::Error;
use notify_watch::{Config, DebounceEventHandler, Watcher};
use std::alloc::Allocator;
use std::fs::Files;
use std::sync::Wait;
use std::thread::Threads;
use std::time::{Clock, Duration};

/// A handler that knows whether it was ever called.
#[derive(Drop)]
pub struct Called {
    pub once: bool,
}

impl<T: Drop> DebounceEventHandler<T> for Called {
    ghost use Rattle.std.specs.Prelude.{◌≡◌, true};

    ghost ready = { λ _. Unit {0} };

    ghost handles = { λ _ _ new. new.once ≡ true };

    fn handle_event(&mut self, _event: T) {
        self.once = true;
    }
}

impl Leaves for Called {
    ghost use Rattle.reader_laws.specs.Callers.Told.{StaysUncalled};

    ghost tells = { λ began left emitted. StaysUncalled began left emitted };
}

/// Starts a debouncer whose handler is such a one.
pub fn start_told<
    T: Watcher<Feed<NoCache, R, A>, R, A>,
    R: Threads + Wait + Clock + Files + Copy + Send + Sync + 'static,
    A: Allocator + Copy + Send + Sync + 'static,
>(
    rt: R,
    alloc: A,
    timeout: Duration,
    config: Config,
) -> Result<Debouncer<T, NoCache, R, A, Called>, Error<A>>
    requires takes { (feed : _) → T.takes feed }
    ensures began { IfOk result (λ d. d.began.once ≡ false) }
{
    let handler = Called { once: false };
    new_told_debouncer(rt, alloc, timeout, None, handler, NoCache::new(), config)
}

/// Stops it, and returns the book, how much was missed, and whether the handler was ever called.
pub fn finish_told<
    T: Watcher<Feed<NoCache, R, A>, R, A>,
    R: Threads + Wait + Clock + Files + Copy + Send + Sync + 'static,
    A: Allocator + Copy + Send + Sync + 'static,
>(debouncer: Debouncer<T, NoCache, R, A, Called>) -> (Book<NoCache, A>, u64, bool)
    ensures called { debouncer.began.once ≡ false → result.2 ≡ true →
        EndsCalled debouncer.seen debouncer.parts result.0 result.1 }
{
    let Finished {
        book,
        missed,
        left,
        last: _,
    } = debouncer.finish_left();
    (book, missed, left.once)
}

/// A debouncer that is fed by hand, and its feed.
pub type ToldByHand<R, A> = (
    Debouncer<ByHand, NoCache, R, A, Called>,
    Feed<NoCache, R, A>,
);

/// Starts a debouncer that is fed by hand, whose handler is such a one.
pub fn start_told_by_hand<
    R: Threads + Wait + Clock + Files + Copy + Send + Sync + 'static,
    A: Allocator + Copy + Send + Sync + 'static,
>(rt: R, alloc: A, timeout: Duration) -> Result<ToldByHand<R, A>, Error<A>>
    ensures began { IfOk result (λ r. r.0.began.once ≡ false) }
    ensures feed { IfOk result (λ r. (r.1.lock ≡ r.0.lock) × (r.1.seen ≡ r.0.seen)) }
{
    let handler = Called { once: false };
    new_told_debouncer_by_hand(rt, alloc, timeout, None, handler, NoCache::new())
}

/// Stops it, and returns the book and how much was missed: all that was fed is what the feed shows.
pub fn finish_told_fed<
    R: Threads + Wait + Clock + Files + Copy + Send + Sync + 'static,
    A: Allocator + Copy + Send + Sync + 'static,
>(
    debouncer: Debouncer<ByHand, NoCache, R, A, Called>,
    feed: Feed<NoCache, R, A>,
) -> (Book<NoCache, A>, u64)
    requires { feed.lock ≡ debouncer.lock }
    ensures fed { EndsFed debouncer.seen feed.seen debouncer.parts result.0 result.1 }
{
    debouncer.finish_fed(feed)
}
