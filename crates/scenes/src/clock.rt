//! A clock that stands, and is moved on by the lines of a scene.
use std::sync::atomic::{AtomicBool, AtomicU64, Ordering};
use std::sync::{Mutex, Wait};
use std::time::{Clock, Duration};
use std::{mem, thread};

/// What the clock says when it begins to stand, in nanoseconds.
const START: u64 = 1_000_000_000_000;

/// How many turns of a millisecond a pause, or a wait for one, lasts at most.
const TURNS: u32 = 20_000;

/// A clock that stands once it is told to. One thread pauses by it at a time: then a pause lasts until the
/// clock was moved on to its end.
#[derive(Drop)]
pub struct StandingClock {
    stands: AtomicBool,
    /// How far it was moved on, in nanoseconds.
    moved: AtomicU64,
    /// What the wall clock says at the start, in nanoseconds since 1970.
    wall: AtomicU64,
    /// How far it will have been moved on when the last pause ends.
    end: AtomicU64,
    /// Pauses are over at once.
    is_let_go: AtomicBool,
    /// How long the pauses were that were asked for.
    lengths: Mutex<String>,
}

impl StandingClock {
    /// A clock that doesn't stand yet, and writes the lengths of pauses into the text.
    pub fn new(lengths: String) -> StandingClock {
        StandingClock {
            stands: AtomicBool::new(false),
            moved: AtomicU64::new(0),
            wall: AtomicU64::new(0),
            end: AtomicU64::new(0),
            is_let_go: AtomicBool::new(false),
            lengths: Mutex::new(lengths),
        }
    }

    pub fn stands(&self) -> bool {
        self.stands.load(Ordering::SeqCst)
    }

    /// Stands from now on, at this time of the wall clock.
    pub fn stand(&self, since_1970: Duration) {
        self.set_wall(since_1970);
        self.stands.store(true, Ordering::SeqCst);
    }

    /// Sets the wall clock.
    pub fn set_wall(&self, since_1970: Duration) {
        let wall = nanos_of(since_1970).saturating_sub(self.moved());
        self.wall.store(wall, Ordering::SeqCst);
    }

    /// Ends the pauses, and those to come.
    pub fn let_go(&self) {
        self.is_let_go.store(true, Ordering::SeqCst);
    }

    fn moved(&self) -> u64 {
        self.moved.load(Ordering::SeqCst)
    }

    pub fn monotonic(&self) -> Duration {
        Duration::from_nanos(START.saturating_add(self.moved()))
    }

    pub fn since_1970(&self) -> Duration {
        Duration::from_nanos(
            self.wall
                .load(Ordering::SeqCst)
                .saturating_add(self.moved()),
        )
    }

    /// Pauses until the clock was moved on so far.
    pub fn pause(&self, rt: &(impl Clock + Wait), duration: Duration) {
        let end = self.moved().saturating_add(nanos_of(duration));
        self.write_down(rt, duration);
        self.end.store(end, Ordering::SeqCst);
        for _ in 0..TURNS {
            if self.moved() >= end || self.is_let_go.load(Ordering::SeqCst) {
                return;
            }
            sleep_a_turn(rt);
        }
    }

    fn write_down(&self, rt: &impl Wait, duration: Duration) {
        let mut lengths = self.lengths.lock(rt);
        let _ = write!(lengths, " {duration:?}");
    }

    /// Returns how long the pauses were that were asked for since the last call.
    pub fn lengths(&self, rt: &(impl Wait + AllocGlobal)) -> String {
        let mut lengths = self.lengths.lock(rt);
        mem::replace(&mut *lengths, String::new(rt.alloc()))
    }

    /// Waits until a thread pauses, and answers whether one does.
    pub fn is_paused(&self, rt: &impl Clock) -> bool {
        for _ in 0..TURNS {
            if self.end.load(Ordering::SeqCst) > self.moved() {
                return true;
            }
            sleep_a_turn(rt);
        }
        false
    }

    /// Moves the clock on at once.
    pub fn leap(&self, nanos: u64) {
        self.moved.fetch_add(nanos, Ordering::SeqCst);
    }

    /// Moves the clock on, from the end of one pause to that of the next, for each of which it waits. Answers
    /// whether the thread always paused again.
    pub fn advance(&self, rt: &impl Clock, nanos: u64) -> bool {
        let target = self.moved().saturating_add(nanos);
        for _ in 0..TURNS {
            if !self.is_paused(rt) {
                return false;
            }
            let end = self.end.load(Ordering::SeqCst);
            self.moved.store(end.min(target), Ordering::SeqCst);
            if end > target {
                return true;
            }
        }
        false
    }
}

fn nanos_of(duration: Duration) -> u64 {
    u64::try_from(duration.as_nanos()).unwrap_or(u64::MAX)
}

pub fn sleep_a_turn(rt: &impl Clock) {
    thread::sleep(rt, Duration::from_millis(1));
}
