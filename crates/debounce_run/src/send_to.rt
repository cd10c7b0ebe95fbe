//! Senders of channels as handlers.
ghost use Rattle.std.specs.Prelude.{◌≡◌, IfErr};
ghost use Rattle.notify_paths.specs.Errors.{out_of_memory};

use crossbeam_channel::Sender;
use notify_paths::Error;
use notify_watch::DebounceEventHandler;
use std::alloc::{Allocator, Global};
use std::sync::atomic::{AtomicU64, Ordering};
use std::sync::{Arc, Wait};

/// A handler that sends what it is called with into a channel. What can't be sent, since nobody
/// receives any more or for want of memory, is dropped: [`SendTo::counted`] counts it.
#[derive(Drop)]
pub struct SendTo<T: Drop, R: Wait + Drop, A: Allocator = Global> {
    rt: R,
    sender: Sender<T, A>,
    unsent: Option<Arc<AtomicU64, A>>,
}

/// How many batches and lists of errors a [`SendTo`] couldn't send.
#[derive(Drop)]
pub struct Unsent<A: Allocator = Global> {
    count: Arc<AtomicU64, A>,
}

impl<A: Allocator> Unsent<A> {
    /// Returns how many there are so far. After 2^64 - 1 it begins again at 0.
    pub fn count(&self) -> u64 {
        self.count.load(Ordering::SeqCst)
    }
}

impl<T: Drop, R: Wait + Drop, A: Allocator> SendTo<T, R, A> {
    /// Returns a handler that sends by this sender.
    pub fn new(rt: R, sender: Sender<T, A>) -> SendTo<T, R, A> {
        SendTo {
            rt,
            sender,
            unsent: None,
        }
    }
}

impl<T: Drop, R: Wait + Drop, A: Allocator + Copy> SendTo<T, R, A> {
    /// Returns a handler that sends by this sender, and the count of what it couldn't send.
    pub fn counted(
        rt: R,
        alloc: A,
        sender: Sender<T, A>,
    ) -> Result<(SendTo<T, R, A>, Unsent<A>), Error<A>>
        ensures { IfErr result (λ e. e ≡ out_of_memory) }
    {
        let Ok(count) = Arc::new(alloc, AtomicU64::new(0)) else {
            return Err(Error::out_of_memory(alloc));
        };
        let Ok(theirs) = Arc::try_clone(&count) else {
            return Err(Error::out_of_memory(alloc));
        };
        let handler = SendTo {
            rt,
            sender,
            unsent: Some(theirs),
        };
        Ok((handler, Unsent { count }))
    }
}

impl<
    T: Drop + Send + 'static,
    R: Wait + Drop + Send + 'static,
    A: Allocator + Send + Sync + 'static,
> DebounceEventHandler<T> for SendTo<T, R, A> {
    ghost ready = { λ _. Unit {0} };

    ghost handles = { λ _ _ _. Unit {0} };

    fn handle_event(&mut self, event: T) {
        if self.sender.send(&self.rt, event).is_ok() {
            return;
        }
        if let Some(unsent) = &self.unsent {
            unsent.fetch_add(1, Ordering::SeqCst);
        }
    }
}
