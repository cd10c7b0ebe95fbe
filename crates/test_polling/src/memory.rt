//! What asks for memory, and how often.
use crate::build::{check_numbers, commands, new_heap, path};
use notify_debouncer_full::{DebounceDataInner, NoCache};
use std::process::Abort;
use test_fakes::allocator::{Heap, RefusingHeap};

/// More requests than any test makes.
const MANY: u64 = 1_000_000;

#[test]
fn a_path_takes_one_allocation(rt: HostRuntime) {
    let heap: Heap = new_heap(&rt);
    check_requests(&rt, heap, "/a/b/c", 1);
    check_requests(&rt, heap, "/a//b/./c/", 1);
    check_requests(&rt, heap, "", 0);
}

/// Checks the number of requests to parse the text and to copy the path.
fn check_requests(rt: &impl Abort, heap: impl RefusingHeap, text: &str, wanted: u64) {
    heap.refuse(MANY);
    let read = path(rt, heap, text);
    let to_parse = MANY.saturating_sub(heap.left());
    heap.refuse(MANY);
    let copy = read.try_clone().expect(rt, "memory");
    let to_copy = MANY.saturating_sub(heap.left());
    let is_same = (copy == read) as u64;
    check_numbers(
        rt,
        &[to_parse, to_copy, is_same],
        &[wanted, wanted, 1],
        text,
    );
}

/// Scripts of which the first one's event has one path, the second one's two; in the last two the tick
/// empties one queue of sixteen.
const SCRIPTS: [&str; 4] = [
    "timeout 50\nevent 0 Any - /a\n",
    "timeout 50\nevent 0 Any - /a /b\n",
    "timeout 50\nevent 0 Any - /a\nevent 80 Any - /b\nevent 80 Any - /c\nevent 80 Any - /d\nevent 80 Any - /e\nevent 80 Any - /f\nevent 80 Any - /g\nevent 80 Any - /h\nevent 80 Any - /i\nevent 80 Any - /j\nevent 80 Any - /k\nevent 80 Any - /l\nevent 80 Any - /m\nevent 80 Any - /n\nevent 80 Any - /o\nevent 80 Any - /p\n",
    "timeout 50\nevent 0 Any - /a /b\nevent 80 Any - /b\nevent 80 Any - /c\nevent 80 Any - /d\nevent 80 Any - /e\nevent 80 Any - /f\nevent 80 Any - /g\nevent 80 Any - /h\nevent 80 Any - /i\nevent 80 Any - /j\nevent 80 Any - /k\nevent 80 Any - /l\nevent 80 Any - /m\nevent 80 Any - /n\nevent 80 Any - /o\nevent 80 Any - /p\n",
];

/// A copy of an event would ask for memory for each of its paths.
#[test]
fn a_tick_moves_what_it_emits(rt: HostRuntime) {
    let heap: Heap = new_heap(&rt);
    let [one, two, one_of_many, two_of_many] = SCRIPTS;
    check_ticks(&rt, heap, one, two);
    check_ticks(&rt, heap, one_of_many, two_of_many);
}

/// Checks that a tick makes as many requests after one script as after the other.
fn check_ticks(rt: &impl Abort, heap: impl RefusingHeap, one: &str, other: &str) {
    let first = requests_of_tick(rt, heap, one);
    let second = requests_of_tick(rt, heap, other);
    check_numbers(rt, &[first], &[second], other);
}

/// A debouncer that has run the script.
fn core_after<A: RefusingHeap>(
    rt: &impl Abort,
    heap: A,
    script: &str,
) -> DebounceDataInner<NoCache, A> {
    let mut core = DebounceDataInner::new(heap, NoCache::new(), 50);
    core.run(commands(rt, heap, script)).expect(rt, "memory");
    core
}

/// How many requests for memory a tick makes after the script: it emits one event.
fn requests_of_tick(rt: &impl Abort, heap: impl RefusingHeap, script: &str) -> u64 {
    heap.refuse(0);
    let mut core = core_after(rt, heap, script);
    heap.refuse(MANY);
    let emitted = core.debounced_events(100).expect(rt, "memory").len() as u64;
    let requests = MANY.saturating_sub(heap.left());
    drop(core);
    check_numbers(rt, &[emitted], &[1], script);
    requests
}
