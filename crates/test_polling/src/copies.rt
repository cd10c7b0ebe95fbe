//! Copies of what no other test copies.
use crate::build::{check_numbers, commands};
use notify_debouncer_full::{
    Command, DebounceDataInner, Entry, Error, ErrorKind, NoCache, Queue, Reply,
};
use std::process::Abort;

/// A command of each kind. All that is fed is emitted.
const SCRIPT: &str = "timeout 50
root Recursive /a
event 0 Create(File) tracker=7,info=new /a/b
event 1 Modify(Data(Any)) exists /a/c /a/d
event 2 Other rescan
error PathNotFound
errors
unroot /a
tick 60
";

#[test]
fn copies_are_equal(rt: HostRuntime) {
    let mut core = DebounceDataInner::new(rt.alloc(), NoCache::new(), 50);
    let asked = commands(&rt, rt.alloc(), SCRIPT);
    let replies = core.run(asked).expect(&rt, "memory");
    let asked = commands(&rt, rt.alloc(), SCRIPT);
    for (command, reply) in asked.into_iter().zip(replies) {
        check_copies(&rt, command, reply);
    }
    check_refusal(&rt);
}

/// Checks copies of the command, of its reply, of the entry of both, and of a queue of what was emitted.
fn check_copies(rt: &(impl Abort + AllocGlobal), command: Command, reply: Reply) {
    check(rt, command.try_clone(rt.alloc()), &command, "command");
    check(rt, reply.try_clone(rt.alloc()), &reply, "reply");
    let entry = Entry {
        from: 1,
        command,
        reply,
    };
    check(rt, entry.try_clone(rt.alloc()), &entry, "entry");
    if let Reply::Batch(batch) = entry.reply {
        let queue = Queue::new(batch);
        check(rt, queue.try_clone(), &queue, "queue");
    }
}

/// Checks copies of a kind of error that has a text, and of a reply that refuses.
fn check_refusal(rt: &(impl Abort + AllocGlobal)) {
    let text = format!(in rt.alloc(); "no device").expect(rt, "memory");
    let kind = ErrorKind::Generic(text);
    check(rt, kind.try_clone(rt.alloc()), &kind, "kind");
    let reply = Reply::Refused(Error::new(rt.alloc(), kind));
    check(rt, reply.try_clone(rt.alloc()), &reply, "refusal");
}

/// Checks that the copy is made, and is equal.
fn check<T: PartialEq + Drop>(rt: &impl Abort, copy: Result<T, Error>, value: &T, what: &str) {
    let copy = copy.expect(rt, what);
    check_numbers(rt, &[(copy == *value) as u64], &[1], what);
}
