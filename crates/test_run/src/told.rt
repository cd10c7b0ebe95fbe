//! A handler that comes back from its debouncer, and a feed that is given back.
ghost use Rattle.std.specs.Prelude.{◌≡◌};

use crate::build::{CREATE, TURNS, path, sleep_a_turn};
use notify_debouncer_full::{ByHand, Debouncer, DebouncerRuntime, Event, Feed, NoCache};
use reader_laws::callers::{Called, finish_told, finish_told_fed, start_told_by_hand};
use std::alloc::Global;
use std::process::Abort;
use std::time::Duration;

/// A debouncer that is fed by hand.
type Told<R> = Debouncer<ByHand, NoCache, R, Global, Called>;

#[test]
fn a_handler_comes_back_as_it_was_called(rt: HostRuntime) {
    assert!(rt; !was_called(rt, false));
    assert!(rt; was_called(rt, true));
}

/// Starts a debouncer of this timeout.
fn start<R: DebouncerRuntime + Abort + AllocGlobal>(
    rt: &R,
    timeout: Duration,
) -> (Told<R>, Feed<NoCache, R>)
    ensures { result.1.lock ≡ result.0.lock }
{
    start_told_by_hand(*rt, rt.alloc(), timeout).expect(rt, "a debouncer")
}

/// Runs a debouncer until nothing waits, and answers whether its handler was called. It is fed one event, or none.
fn was_called<R: DebouncerRuntime + Abort + AllocGlobal>(rt: R, is_fed: bool) -> bool {
    let (mut debouncer, mut feed) = start(&rt, Duration::from_millis(1));
    if is_fed {
        feed_one_event(&rt, &mut feed);
    }
    drop(feed);
    for _ in 0..TURNS {
        if debouncer.outlook().expect(&rt, "memory").is_empty() {
            break;
        }
        sleep_a_turn(&rt);
    }
    let (book, _, called) = finish_told(debouncer);
    drop(book);
    called
}

/// Feeds one event by hand.
fn feed_one_event<R: DebouncerRuntime + Abort + AllocGlobal>(rt: &R, feed: &mut Feed<NoCache, R>)
    ensures { feed.new.lock ≡ feed.old.lock }
{
    let event = Event::new(rt.alloc(), CREATE).add_path(path(rt, rt.alloc(), "/a"));
    let fed = feed.feed(event);
    assert!(rt; fed.is_ok());
}

#[test]
fn what_was_fed_last_is_in_the_book(rt: HostRuntime) {
    assert_eq!(rt; left_in_the_book(rt), (1, 0));
}

/// How many events wait in the book of a debouncer that was fed one and then ended, and how many were missed.
fn left_in_the_book<R: DebouncerRuntime + Abort + AllocGlobal>(rt: R) -> (usize, u64) {
    let (debouncer, mut feed) = start(&rt, Duration::from_secs(3600));
    feed_one_event(&rt, &mut feed);
    let (book, missed) = finish_told_fed(debouncer, feed);
    let waiting = book.outlook().expect(&rt, "memory").len();
    drop(book);
    (waiting, missed)
}
