//! Each request for memory of a tick refused in turn.
use crate::build::{fill, new_heap};
use crate::words::word_of;
use notify_debouncer_full::{Book, NoCache, tick_step};
use std::process::Abort;
use test_fakes::allocator::{Heap, TestHeap};

/// How many events and how many errors a tick gives, and why it gives no batch, if it was refused.
type Given = (usize, &'static str, usize);

fn given(book: &mut Book<NoCache, impl TestHeap>) -> Given {
    let (batch, errors) = tick_step(book, 100);
    let count = match &batch {
        Ok(events) => events.len(),
        Err(_) => 0,
    };
    (count, word_of(batch), errors.len())
}

/// Ticks while the nth request for memory is refused, and then while none is. Answers what came of each,
/// and whether that many requests came.
fn tick_twice<A: TestHeap>(heap: A, book: &mut Book<NoCache, A>, n: u64) -> (Given, Given, bool) {
    heap.refuse(n);
    let first = given(book);
    let came = heap.left() == 0;
    heap.refuse(0);
    (first, given(book), came)
}

/// Refuses the nth request for memory of a tick. Checks what stands after that, and answers whether
/// that many requests came.
fn check_tick(rt: &impl Abort, heap: impl TestHeap, keeps: bool, n: u64) -> bool {
    let mut book = new_book(heap, keeps);
    fill(rt, heap, &mut book);
    let (first, second, came) = tick_twice(heap, &mut book, n);
    drop(book);
    let whole = (first, second) == ((1, "", 4), (0, "", 0));
    // A refused tick gives the errors all the same.
    let refused = (first, second) == ((0, "Memory", 4), (1, "", 0));
    // Only their entry in a journal can keep them back.
    let kept = keeps && (first, second) == ((1, "", 0), (0, "", 4));
    let is_well = if came { refused || kept } else { whole };
    assert!(rt; is_well, "{n}");
    came
}

fn new_book<A: TestHeap>(heap: A, journaled: bool) -> Book<NoCache, A> {
    if journaled {
        Book::journaled(heap, NoCache::new(), 50)
    } else {
        Book::new(heap, NoCache::new(), 50)
    }
}

#[test]
fn a_refused_tick_loses_nothing(rt: HostRuntime) {
    refuse_ticks::<Heap, _>(&rt);
}

fn refuse_ticks<A: TestHeap, R: Abort + AllocGlobal>(rt: &R) {
    let heap: A = new_heap(rt);
    for journaled in [false, true] {
        let mut refused = 0u64;
        for n in 1..100u64 {
            if !check_tick(rt, heap, journaled, n) {
                break;
            }
            refused = n;
        }
        assert!(rt; 1 < refused && refused < 99, "{refused}");
    }
}
