//! What a debouncer that runs does under its lock: feeds, and turns of its worker.
ghost use Rattle.std.specs.Prelude.{◌≡◌, true};

use crate::events::{creations, modifications};
use crate::workloads::Figures;
use anyhow::Result;
use debounce_run::{Access, Feeding, Stopwatch, Ticking};
use notify_debouncer_full::{
    Book, DebounceEventResult, DebouncerRuntime, Event, Feed, Moment, NoCache, feed_one,
    new_debouncer_by_hand, turn,
};
use std::alloc::Global;
use std::time::{Duration, Instant};

/// The timeout of the debouncer that is fed by hand, in seconds: nothing is emitted meanwhile.
const HOUR: u64 = 3600;

/// The timeout of the turns, in nanoseconds.
const TIMEOUT: Moment = 1_000_000_000_000;

/// How many events are pending at each turn.
const PENDING: u64 = 1000;

/// Times so many feeds of a debouncer that is fed by hand. The checksum is how many events are pending then.
pub fn feed_by_hand<R: DebouncerRuntime + AllocGlobal>(rt: &R, n: u64) -> Result<Figures> {
    let events = modifications(rt.alloc(), n)?;
    let handler = |_outcome: DebounceEventResult| {};
    let hour = Duration::from_secs(HOUR);
    let cache = NoCache::new();
    let (debouncer, mut feed) = new_debouncer_by_hand(*rt, rt.alloc(), hour, None, handler, cache)?;
    let figures = feed_all(rt, &mut feed, events, n)?;
    let (book, _missed) = debouncer.finish_fed(feed);
    Ok(Figures {
        checksum: book.core().waiting(),
        ..figures
    })
}

/// Feeds each event.
fn feed_all<R: DebouncerRuntime + AllocGlobal>(
    rt: &R,
    feed: &mut Feed<NoCache, R>,
    events: Vec<Event>,
    n: u64,
) -> Result<Figures>
    ensures lock { feed.new.lock ≡ feed.old.lock }
{
    let start = Instant::now(rt)?;
    for event in events {
        feed.feed(Ok(event))?;
    }
    Figures::stop(rt, start, n, &[])
}

/// Times so many turns at which nothing is due. The checksum is how many events are pending.
pub fn turn_in_vain<R: DebouncerRuntime + AllocGlobal>(rt: &R, n: u64) -> Result<Figures> {
    let book = Book::new(rt.alloc(), NoCache::new(), TIMEOUT);
    let mut owner = Access::open(rt.alloc(), book)?;
    feed_pending(rt, &mut owner)?;
    let clock = Stopwatch::new(Instant::now(rt)?);
    let mut ticking = Ticking::new(*rt, owner.telling()?, clock);
    let figures = take_turns(rt, &mut ticking, n)?;
    Ok(Figures {
        checksum: owner.outlook(rt)?.len() as u64,
        ..figures
    })
}

/// Feeds what is pending at each turn.
fn feed_pending<R: DebouncerRuntime + AllocGlobal>(
    rt: &R,
    owner: &mut Access<NoCache, Global>,
) -> Result<()>
    requires { owner.old.feeds ≡ true }
    ensures rights { owner.new.tells ≡ owner.old.tells }
{
    let clock = Stopwatch::new(Instant::now(rt)?);
    let mut feeding = Feeding::new(*rt, owner.feeding()?, clock);
    for event in creations(rt.alloc(), PENDING)? {
        feed_one(&mut feeding, Ok(event), 0, true)?;
    }
    Ok(())
}

/// Takes so many turns.
fn take_turns<R: DebouncerRuntime + AllocGlobal>(
    rt: &R,
    ticking: &mut Ticking<NoCache, R, Global>,
    n: u64,
) -> Result<Figures> {
    let mut handler = |_outcome: DebounceEventResult| {};
    let start = Instant::now(rt)?;
    for now in 0..n {
        turn(ticking, u128::from(now), &mut handler)?;
    }
    Figures::stop(rt, start, n, &[])
}
