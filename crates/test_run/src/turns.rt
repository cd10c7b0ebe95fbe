//! Steps of a book, and turns at gates without a lock.
use crate::build::{CREATE, Outcome, fill, new_heap, path};
use crate::words::{push_outcome, word_of};
use notify_debouncer_full::{
    Book, DebounceEventHandler, DebouncedEvent, Error, ErrorKind, Event, FeedGate, Gate, Moment,
    NoCache, TickGate, Ticked, feed_one, feed_step, tick_step, turn,
};
use std::alloc::{Allocator, Global};
use std::fmt::Debug;
use std::mem::replace;
use std::process::Abort;
use test_fakes::allocator::{Heap, TestHeap};

/// A gate over a book of its own, without a lock.
#[derive(Drop)]
struct OpenGate<A: Allocator> {
    book: Book<NoCache, A>,
}

impl<A: Allocator + Copy> FeedGate<Event<A>, Error<A>> for OpenGate<A> {
    ghost feeds = { λ _ _ _ _ _ _. Unit {0} };

    fn feed(
        &mut self,
        item: Result<Event<A>, Error<A>>,
        now: Moment,
        exists: bool,
    ) -> Result<(), Error<A>>
        ensures { Unit {0} }
    {
        feed_step(&mut self.book, item, now, exists)
    }
}

impl<A: Allocator + Copy> TickGate<Error<A>, Vec<DebouncedEvent<A>, A>, Vec<Error<A>, A>>
    for OpenGate<A> {
    ghost ticks = { λ _ _ _ _ _. Unit {0} };

    fn tick(&mut self, now: Moment) -> Ticked<A>
        ensures { Unit {0} }
    {
        tick_step(&mut self.book, now)
    }
}

/// A gate that gives what it was loaded with, once, and then nothing.
#[derive(Drop)]
struct LoadedGate {
    batch: Result<Vec<DebouncedEvent>, Error>,
    errors: Vec<Error>,
}

impl TickGate<Error, Vec<DebouncedEvent>, Vec<Error>> for LoadedGate {
    ghost ticks = { λ _ _ _ _ _. Unit {0} };

    fn tick(&mut self, _now: Moment) -> Ticked<Global>
        ensures { Unit {0} }
    {
        let alloc = *self.errors.allocator();
        let batch = replace(&mut self.batch, Ok(Vec::new(alloc)));
        (batch, replace(&mut self.errors, Vec::new(alloc)))
    }
}

/// A handler that writes down what it is called with.
#[derive(Drop)]
struct Recorder {
    calls: String,
}

impl<A: Allocator> DebounceEventHandler<Outcome<A>> for Recorder {
    ghost ready = { λ _. Unit {0} };

    ghost handles = { λ _ _ _. Unit {0} };

    fn handle_event(&mut self, event: Outcome<A>)
        ensures again { Unit {0} }
        ensures handled { Unit {0} }
    {
        let _ = push_outcome(&mut self.calls, &event);
    }
}

/// Takes a turn. Returns what the handler was called with, and why the turn was refused, if it was.
fn turn_at<
    G: TickGate<Error<A>, Vec<DebouncedEvent<A>, A>, Vec<Error<A>, A>>,
    A: Allocator + Copy + Send + Sync + 'static,
>(rt: &impl AllocGlobal, gate: &mut G, now: Moment) -> (String, &'static str) {
    let mut handler = Recorder {
        calls: String::new(rt.alloc()),
    };
    let answer = turn(gate, now, &mut handler);
    (handler.calls, word_of(answer))
}

/// Takes a turn, and checks what the handler was called with and what the turn answered.
fn check_turn<
    G: TickGate<Error<A>, Vec<DebouncedEvent<A>, A>, Vec<Error<A>, A>>,
    A: Allocator + Copy + Send + Sync + 'static,
>(rt: &(impl Abort + AllocGlobal), gate: &mut G, now: Moment, calls: &str, answer: &str) {
    let (seen, refusal) = turn_at(rt, gate, now);
    assert_eq!(rt; (seen.as_str(), refusal), (calls, answer));
}

/// The creation of `/a`.
fn created<A: Allocator + Copy + Debug>(rt: &impl Abort, alloc: A) -> Event<A> {
    let event = Event::new(alloc, CREATE).add_path(path(rt, alloc, "/a"));
    event.expect(rt, "memory")
}

fn not_found<A: Allocator>(alloc: A) -> Error<A> {
    Error::new(alloc, ErrorKind::PathNotFound)
}

/// Feeds an event and an error to whatever is fed and takes turns.
fn feed_both<
    G: Gate<Event<A>, Error<A>, Vec<DebouncedEvent<A>, A>, Vec<Error<A>, A>>,
    A: Allocator,
>(gate: &mut G, event: Event<A>, error: Error<A>) -> Result<(), Error<A>> {
    feed_one(gate, Ok(event), 0, true)?;
    feed_one(gate, Err(error), 1, false)
}

#[test]
fn a_fed_book_gives_the_event_and_the_error(rt: HostRuntime) {
    let alloc = rt.alloc();
    let mut book = Book::new(alloc, NoCache::new(), 50);
    feed_step(&mut book, Ok(created(&rt, alloc)), 0, true).expect(&rt, "memory");
    feed_step(&mut book, Err(not_found(alloc)), 0, false).expect(&rt, "memory");
    let (batch, errors) = tick_step(&mut book, 100);
    let mut given = String::new(alloc);
    push_outcome(&mut given, &Ok(batch.expect(&rt, "memory"))).expect(&rt, "memory");
    push_outcome(&mut given, &Err(errors)).expect(&rt, "memory");
    drop(book);
    assert_eq!(rt;
        given.as_str(),
        "batch Create(Any) /a 0; errors PathNotFound; "
    );
}

#[test]
fn a_turn_hands_out_what_a_book_gives(rt: HostRuntime) {
    let alloc = rt.alloc();
    let mut gate = OpenGate {
        book: Book::new(alloc, NoCache::new(), 50),
    };
    feed_both(&mut gate, created(&rt, alloc), not_found(alloc)).expect(&rt, "memory");
    check_turn(&rt, &mut gate, 49, "errors PathNotFound; ", "");
    check_turn(&rt, &mut gate, 50, "batch Create(Any) /a 0; ", "");
    check_turn(&rt, &mut gate, 100, "", "");
    drop(gate);
}

#[test]
fn a_turn_hands_out_the_batch_and_then_the_errors(rt: HostRuntime) {
    let alloc = rt.alloc();
    let event = DebouncedEvent::new(created(&rt, alloc), 0);
    let mut gate = LoadedGate {
        batch: Ok(vec![in alloc; event].expect(&rt, "memory")),
        errors: vec![in alloc; not_found(alloc)].expect(&rt, "memory"),
    };
    let both = "batch Create(Any) /a 0; errors PathNotFound; ";
    check_turn(&rt, &mut gate, 100, both, "");
    // Both are empty now.
    check_turn(&rt, &mut gate, 100, "", "");
    gate.batch = Err(Error::out_of_memory(alloc));
    gate.errors.push(not_found(alloc)).expect(&rt, "memory");
    check_turn(&rt, &mut gate, 100, "errors PathNotFound; ", "Memory");
    drop(gate);
}

#[test]
fn a_turn_is_refused_at_each_request(rt: HostRuntime) {
    refuse_turns::<Heap, _>(&rt);
}

/// What waits in a filled book, as a turn hands it out.
const BATCH: &str = "batch Create(Any) /b 0; ";

const ERRORS: &str = "errors PathNotFound PathNotFound PathNotFound PathNotFound; ";

fn refuse_turns<A: TestHeap, R: Abort + AllocGlobal>(rt: &R) {
    let heap: A = new_heap(rt);
    let mut refused = 0u64;
    for n in 1..100u64 {
        let mut gate = OpenGate {
            book: Book::new(heap, NoCache::new(), 50),
        };
        fill(rt, heap, &mut gate.book);
        let came = check_refused_turn(rt, heap, &mut gate, n);
        drop(gate);
        if !came {
            break;
        }
        refused = n;
    }
    assert!(rt; 1 < refused && refused < 99, "{refused}");
}

/// Takes a turn while the nth request for memory is refused, and then one while none is. Answers whether
/// that many requests came.
fn check_refused_turn<A: TestHeap, R: Abort + AllocGlobal>(
    rt: &R,
    heap: A,
    gate: &mut OpenGate<A>,
    n: u64,
) -> bool {
    heap.refuse(n);
    let (calls, answer) = turn_at(rt, gate, 100);
    let came = heap.left() == 0;
    heap.refuse(0);
    if came {
        assert_eq!(rt; (calls.as_str(), answer), (ERRORS, "Memory"));
        check_turn(rt, gate, 100, BATCH, "");
    } else {
        assert!(rt; calls.as_str().strip_prefix(BATCH) == Some(ERRORS), "{n}");
        check_turn(rt, gate, 100, "", "");
    }
    came
}
