//! A scene of a debouncer that is fed by hand.
ghost use Rattle.std.specs.Prelude.{◌≡◌};

use crate::acts::times_of;
use crate::books::{Core, tell_book};
use crate::scene::{Host, Scene};
use crate::watcher::Scribe;
use crate::words::answer_of;
use notify_debouncer_full::{
    ByHand, DebounceDataInner, Debouncer, Error, ErrorKind, Feed, NoCache,
    new_journaled_debouncer_by_hand,
};
use std::io;
use test_fakes::allocator::TestHeap;

/// Starts a debouncer with a journal, feeds it an error by hand, ends it, and prints what its book has.
pub fn play_by_hand<R: Host, A: TestHeap>(scene: &mut Scene<R, A>, line: &str) -> io::Result<()> {
    let (timeout, tick) = times_of(line);
    let (rt, heap, cache) = (scene.rt, scene.heap, NoCache::new());
    let handler = Scribe {
        rt,
        stage: scene.stage,
    };
    let Ok((debouncer, feed)) = new_journaled_debouncer_by_hand(
        rt, heap, timeout, tick, handler, cache,
    ) else {
        return Err(io::Error::from(io::ErrorKind::Other));
    };
    let mut core = DebounceDataInner::new(heap, NoCache::new(), timeout.as_nanos());
    let played = feed_and_finish(scene, debouncer, feed, &mut core, line);
    drop(core);
    played
}

/// Feeds an error, ends the debouncer, and prints what the feed answered, how much was missed, and what is in
/// the book.
fn feed_and_finish<R: Host, A: TestHeap>(
    scene: &mut Scene<R, A>,
    debouncer: Debouncer<ByHand, NoCache, R, A>,
    feed: Feed<NoCache, R, A>,
    core: &mut Core<A>,
    line: &str,
) -> io::Result<()>
    requires { feed.lock ≡ debouncer.lock }
{
    let (mut debouncer, mut feed) = (debouncer, feed);
    let error = Error::new(scene.heap, ErrorKind::PathNotFound);
    let answer = answer_of(feed.feed(Err(error)));
    debouncer.catch_up(feed.receipt());
    let (book, missed) = debouncer.finish_fed(feed);
    let said = scene.say(line, answer);
    let counted = scene.count("missed", missed);
    tell_book(scene, core, book)?;
    said?;
    counted
}
