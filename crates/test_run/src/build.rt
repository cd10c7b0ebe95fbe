//! What several tests build. There is memory for it, so each call gives what it is asked for.
use mirror_run::script::read_script;
use notify_debouncer_full::{
    Book, Command, CreateKind, DebounceEventResult, EventKind, NoCache, PathBuf, command_step,
};
use std::alloc::Allocator;
use std::fmt::Debug;
use std::process::Abort;
use std::sync::Wait;
use std::sync::atomic::{AtomicBool, Ordering};
use std::thread;
use std::thread::Threads;
use std::time::{Clock, Duration};
use test_fakes::allocator::TestHeap;

pub const CREATE: EventKind = EventKind::Create(CreateKind::Any);

/// The runtime of a test.
pub trait Host: Threads + Wait + Clock + Abort + AllocGlobal + Copy + Send + Sync + 'static {}

impl<R: Threads + Wait + Clock + Abort + AllocGlobal + Copy + Send + Sync + 'static> Host for R {}

/// How many turns of a millisecond a test waits at most.
pub const TURNS: u32 = 2000;

/// What a handler is called with.
pub type Outcome<A> = DebounceEventResult<A>;

/// Memory of the test's own, which refuses nothing yet.
pub fn new_heap<A: TestHeap>(rt: &(impl Abort + AllocGlobal)) -> A {
    A::new(rt.alloc()).expect(rt, "memory")
}

pub fn path<A: Allocator + Copy + Debug>(rt: &impl Abort, alloc: A, text: &str) -> PathBuf<A> {
    PathBuf::parse(alloc, text).expect(rt, "memory")
}

/// The commands of a script.
pub fn commands<A: Allocator + Copy>(
    rt: &impl Abort,
    alloc: A,
    script: &str,
) -> Vec<Command<A>, A> {
    match read_script(alloc, &mut script.as_bytes()) {
        Ok(script) => script.commands,
        Err(_) => panic!(rt; "no script, or no memory"),
    }
}

/// One event and four errors that wait. The ticks fill a journal's memory, so that each further entry
/// asks for some.
const WAITING: &str =
    "timeout 50\nevent 0 Create(Any) - /b\nroot Recursive /r\nerror PathNotFound\nerror PathNotFound\nerror PathNotFound\nerror PathNotFound\ntick 0\ntick 0\n";

/// Lets one event and four errors wait in the book.
pub fn fill<A: Allocator + Copy>(rt: &impl Abort, alloc: A, book: &mut Book<NoCache, A>) {
    for command in commands(rt, alloc, WAITING) {
        command_step(book, 0, command);
    }
}

/// A creation and a tick that emits it.
pub const CREATED: &str = "timeout 50\nevent 0 Create(Any) - /a\ntick 100\n";

pub fn sleep_a_turn(rt: &impl Clock) {
    thread::sleep(rt, Duration::from_millis(1));
}

pub fn sleep_turns(rt: &impl Clock, count: u64) {
    for _ in 0..count {
        sleep_a_turn(rt);
    }
}

/// Waits for the flag, and answers whether it was raised.
pub fn wait_for(rt: &impl Clock, flag: &AtomicBool) -> bool {
    for _ in 0..TURNS {
        if flag.load(Ordering::SeqCst) {
            return true;
        }
        sleep_a_turn(rt);
    }
    false
}
