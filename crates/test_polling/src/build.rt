//! What several tests build. There is memory for it, so each call gives what it is asked for.
use mirror_run::script::read_script;
use notify_debouncer_full::{Command, PathBuf};
use std::alloc::Allocator;
use std::fmt::Debug;
use std::process::Abort;
use test_fakes::allocator::TestHeap;

/// Memory of the test's own, which refuses nothing yet.
pub fn new_heap<A: TestHeap>(rt: &(impl Abort + AllocGlobal)) -> A {
    A::new(rt.alloc()).expect(rt, "memory")
}

pub fn path<A: Allocator + Copy + Debug>(rt: &impl Abort, alloc: A, text: &str) -> PathBuf<A> {
    PathBuf::parse(alloc, text).expect(rt, "memory")
}

/// The commands of a script.
pub fn commands<A: Allocator + Copy>(
    rt: &impl Abort,
    alloc: A,
    script: &str,
) -> Vec<Command<A>, A> {
    match read_script(alloc, &mut script.as_bytes()) {
        Ok(script) => script.commands,
        Err(_) => panic!(rt; "no script, or no memory"),
    }
}

/// Checks a text. A test that says itself what differs is dearer to prove.
pub fn check_text(rt: &impl Abort, got: &str, wanted: &str, what: &str) {
    assert_eq!(rt; got, wanted, "{what}");
}

/// Checks some numbers.
pub fn check_numbers(rt: &impl Abort, got: &[u64], wanted: &[u64], what: &str) {
    assert_eq!(rt; got, wanted, "{what}");
}
