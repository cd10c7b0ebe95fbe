//! What could not be sent.
use crate::build::{Host, new_heap};
use notify_debouncer_full::{DebounceEventHandler, SendTo};
use test_fakes::allocator::{Heap, TestHeap};

#[test]
fn what_cannot_be_sent_is_counted(rt: HostRuntime) {
    check_unsent::<HostRuntime, Heap>(rt);
}

fn check_unsent<R: Host, A: TestHeap>(rt: R) {
    let heap: A = new_heap(&rt);
    let (sender, receiver) = crossbeam_channel::unbounded(heap).expect(&rt, "memory");
    let (mut handler, unsent) = SendTo::counted(rt, heap, sender).expect(&rt, "memory");
    heap.refuse(u64::MAX);
    handler.handle_event(1u32);
    let starved = unsent.count();
    heap.refuse(0);
    handler.handle_event(2u32);
    let received = receiver.try_recv(&rt).ok();
    drop(receiver);
    let sent = unsent.count();
    handler.handle_event(3u32);
    let last = unsent.count();
    drop(handler);
    drop(unsent);
    assert_eq!(rt; (starved, received, sent, last), (1, Some(2), 1, 2));
}
