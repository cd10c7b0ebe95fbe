//! What wakes a polling watcher's thread.
use crate::hint_set::HintSet;
use notify_paths::PathBuf;
use std::alloc::Allocator;
use std::sync::{Condvar, Mutex, Wait};
use std::thread;
use std::time::{Clock, Duration};

/// How long a thread waits for more hints after the first, in milliseconds: less than a young modified time waits.
const GATHER: u64 = 5;

/// What a polling watcher's thread is asked for, and did not do yet.
#[derive(Drop)]
struct Asked<A: Allocator> {
    hints: HintSet<A>,
    /// A round soon.
    round: bool,
    /// The end.
    stop: bool,
    /// One more round before the end.
    looks_last: bool,
}

impl<A: Allocator + Copy> Asked<A> {
    fn new(alloc: A) -> Asked<A> {
        Asked {
            hints: HintSet::new(alloc),
            round: false,
            stop: false,
            looks_last: false,
        }
    }

    fn is_any(&self) -> bool {
        self.stop || self.round || !self.hints.is_empty()
    }

    /// Takes what it is asked for.
    fn take(&mut self) -> Wake<A> {
        if self.stop {
            return Wake::Stop {
                looks_last: self.looks_last,
            };
        }
        let hints = self.hints.take();
        if self.round {
            self.round = false;
            return Wake::Round { hints };
        }
        if hints.is_empty() {
            return Wake::Nothing;
        }
        Wake::Look { hints }
    }
}

/// Why a polling watcher's thread wakes.
#[derive(Drop)]
pub(crate) enum Wake<A: Allocator> {
    /// It is to end, perhaps after one more round.
    Stop { looks_last: bool },
    /// It was asked for a round; these hints waited too.
    Round { hints: HintSet<A> },
    /// It was asked to look at these.
    Look { hints: HintSet<A> },
    /// The time is up, or it woke by itself.
    Nothing,
}

/// What wakes a polling watcher's thread.
#[derive(Drop)]
pub(crate) struct Bell<A: Allocator> {
    asked: Mutex<Asked<A>>,
    rung: Condvar,
}

impl<A: Allocator + Copy> Bell<A> {
    pub(crate) fn new(alloc: A) -> Bell<A> {
        Bell {
            asked: Mutex::new(Asked::new(alloc)),
            rung: Condvar::new(),
        }
    }

    /// Asks for a look at the path. Answers whether the thread goes on.
    pub(crate) fn ask_for<R: Wait>(&self, rt: &R, path: PathBuf<A>) -> bool {
        let mut asked = self.asked.lock(rt);
        asked.hints.add(path);
        let goes_on = !asked.stop;
        drop(asked);
        self.rung.notify_one();
        goes_on
    }

    /// Asks for a whole round, as a hint. Answers whether the thread goes on.
    pub(crate) fn ask_for_all<R: Wait>(&self, rt: &R) -> bool {
        let mut asked = self.asked.lock(rt);
        asked.hints.add_all();
        let goes_on = !asked.stop;
        drop(asked);
        self.rung.notify_one();
        goes_on
    }

    /// Waits so long, or until it is asked for something; then it gives hints a moment to gather.
    pub(crate) fn wait<R: Wait + Clock>(&self, rt: &R, left: Duration) -> Wake<A> {
        if self.is_hinted_within(rt, left) {
            thread::sleep(rt, Duration::from_millis(GATHER));
        }
        let mut asked = self.asked.lock(rt);
        asked.take()
    }

    /// Waits so long, or until it is asked for something. Answers whether that is hints alone.
    fn is_hinted_within<R: Wait + Clock>(&self, rt: &R, left: Duration) -> bool {
        let mut asked = self.asked.lock(rt);
        if !asked.is_any() {
            asked = self.rung.wait_timeout(rt, asked, left).0;
        }
        !asked.stop && !asked.round && !asked.hints.is_empty()
    }
}

impl<A: Allocator> Bell<A> {
    /// Asks for a round soon.
    pub(crate) fn ask_for_round<R: Wait>(&self, rt: &R) {
        let mut asked = self.asked.lock(rt);
        asked.round = true;
        drop(asked);
        self.rung.notify_one();
    }

    /// Has the thread make one more round before it ends.
    pub(crate) fn look_last<R: Wait>(&self, rt: &R) {
        let mut asked = self.asked.lock(rt);
        asked.looks_last = true;
    }

    /// Asks the thread to end.
    pub(crate) fn stop<R: Wait>(&self, rt: &R) {
        let mut asked = self.asked.lock(rt);
        asked.stop = true;
        drop(asked);
        self.rung.notify_one();
    }
}
