//! Steps of a watcher that report all, whose events go through a debouncer to a reader.
ghost use Rattle.reader_laws.specs.Reports.{ReaderHasWhatIsReported};
ghost use Rattle.poll_rounds.specs.Reports.{Begins, GoesOn};

use debounce_cache::FileIdCache;
use notify_paths::Error;
use notify_types::Event;
use notify_watch::EventHandler;
use std::alloc::Allocator;

/// Does nothing. By its contract a reader who begins with no paths, plays every batch of a run, and then the
/// outlook, has the paths of the last listing, if the run took just the events that a watcher handed on
/// which began with the listing of nothing and reports all. It is said of any steps, and so of any roots,
/// whether they overlap or not, whenever they are watched.
///
/// That steps have led to a listing is said by `Reported`: it holds at first, and after one more step. A step
/// is one call of `round` or `look_at` of `Polled`, or of `kept_round` or `kept_look`, whatever moves these tell,
/// refused or not. `watch_reported` and `unwatch_reported` leave the last listing as it was and report nothing, so they
/// may stand between any two.
pub fn law_of_reports<
    C: FileIdCache<A>,
    H: EventHandler<Result<Event<A>, Error<A>>>,
    A: Allocator,
>()
    ensures begins { Begins H.handles }
    ensures goes_on { GoesOn H.handles }
    ensures reader { ReaderHasWhatIsReported C.rules H.handles }
{}
