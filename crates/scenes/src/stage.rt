//! What a scene and its threads tell each other, and a runtime that the scene rules.
use crate::clock::{StandingClock, sleep_a_turn};
use crate::words::push_outcome;
use notify_debouncer_full::{DebounceEventResult, Error, PathBuf};
use std::alloc::{AllocError, Allocator, Global};
use std::fmt::Debug;
use std::fs::{Files, Metadata, OpenOptions};
use std::io;
use std::sync::atomic::{AtomicBool, AtomicU64, Ordering};
use std::sync::{Mutex, Wait};
use std::thread::Threads;
use std::time::{Clock, Duration};

/// How many times as fast a fast clock runs.
const SPEED: u32 = 20;

/// How many turns of a millisecond a scene waits at most.
pub const TURNS: u32 = 2000;

/// What a handler is called with.
pub type Outcome<A> = DebounceEventResult<A>;

/// What a scene and its threads tell each other.
#[derive(Drop)]
pub struct Stage {
    /// The scene's lines, in which the watcher reads what it is to do.
    pub script: &'static str,
    /// The clock, if it stands.
    pub clock: StandingClock,
    /// The clock can't be read.
    pub is_broken: AtomicBool,
    /// The clock runs fast, and pauses longer than a millisecond are short.
    pub is_fast: AtomicBool,
    /// Each pause longer than a millisecond lasts until it is let end.
    pub is_held: AtomicBool,
    /// How many pauses were held so far.
    pub pauses: AtomicU64,
    /// How many held pauses may end.
    pub permits: AtomicU64,
    /// How often the watcher's thread was asked to report.
    pub asked: AtomicU64,
    /// How often it did.
    pub reported: AtomicU64,
    /// The watcher's thread reports again and again.
    pub flows: AtomicBool,
    /// Which request for memory is refused while an item is reported, or 0 if none is.
    pub starved: AtomicU64,
    /// The watcher was dropped, so its debouncer was asked to stop before.
    pub dropped: AtomicBool,
    /// How many batches came.
    pub batches: AtomicU64,
    /// How many lists of errors came.
    pub errors: AtomicU64,
    /// The handler need not hold the first batch any longer.
    pub answered: AtomicBool,
    /// The handler held it in vain.
    pub alone: AtomicBool,
    /// The handler was dropped.
    pub ended: AtomicBool,
    /// How many batches had come when the watcher was dropped.
    last_batches: AtomicU64,
    /// How many lists of errors had come then.
    last_errors: AtomicU64,
    /// What the handler was called with.
    calls: Mutex<String>,
    /// The path that was watched last.
    watched: Mutex<String>,
}

impl Stage {
    /// The stage of a scene with these lines, in this memory.
    fn new(script: &'static str, alloc: Global) -> Stage {
        Stage {
            script,
            clock: StandingClock::new(String::new(alloc)),
            is_broken: AtomicBool::new(false),
            is_fast: AtomicBool::new(false),
            is_held: AtomicBool::new(false),
            pauses: AtomicU64::new(0),
            permits: AtomicU64::new(0),
            asked: AtomicU64::new(0),
            reported: AtomicU64::new(0),
            flows: AtomicBool::new(false),
            starved: AtomicU64::new(0),
            dropped: AtomicBool::new(false),
            batches: AtomicU64::new(0),
            errors: AtomicU64::new(0),
            answered: AtomicBool::new(true),
            alone: AtomicBool::new(false),
            ended: AtomicBool::new(false),
            last_batches: AtomicU64::new(0),
            last_errors: AtomicU64::new(0),
            calls: Mutex::new(String::new(alloc)),
            watched: Mutex::new(String::new(alloc)),
        }
    }

    /// Whether the scene has this line.
    pub fn has(&self, wanted: &str) -> bool {
        for line in self.script.split('\n') {
            if line == wanted {
                return true;
            }
        }
        false
    }

    /// Whether the scene says that the watcher doesn't find this path.
    pub fn is_lost(&self, place: &str) -> bool {
        for line in self.script.split('\n') {
            if line.strip_prefix("lose ") == Some(place) {
                return true;
            }
        }
        false
    }

    /// Writes down what the handler was called with.
    pub fn write_down(&self, rt: &impl Wait, outcome: &Outcome<impl Allocator + Debug>) {
        let mut calls = self.calls.lock(rt);
        let _ = push_outcome(&mut calls, outcome);
    }

    /// Whether the handler was called with this.
    pub fn was_called_with(&self, rt: &impl Wait, wanted: &str) -> bool {
        let calls = self.calls.lock(rt);
        calls.as_str() == wanted
    }

    /// Whether what the handler was called with begins with this.
    pub fn was_first_called_with(&self, rt: &impl Wait, word: &str) -> bool {
        let calls = self.calls.lock(rt);
        calls.as_str().starts_with(word)
    }

    /// Asks the watcher's thread to report, for a path that is watched. Returns how often it will have done so
    /// then.
    pub fn ask(&self, rt: &impl Wait, path: &str) -> Result<u64, AllocError> {
        {
            let mut watched = self.watched.lock(rt);
            watched.clear();
            watched.push_str(path)?;
        }
        let before = self.asked.fetch_add(1, Ordering::SeqCst);
        Ok(before.saturating_add(1))
    }

    /// Returns the path that was watched last, in this memory.
    pub fn watched<A: Allocator + Copy>(
        &self,
        rt: &impl Wait,
        alloc: A,
    ) -> Result<PathBuf<A>, Error<A>> {
        let watched = self.watched.lock(rt);
        PathBuf::parse(alloc, watched.as_str())
    }

    /// Whether the handler was never called.
    pub fn is_uncalled(&self) -> bool {
        self.batches.load(Ordering::SeqCst) == 0 && self.errors.load(Ordering::SeqCst) == 0
    }

    /// Notes what the handler has seen, and then lets every thread go on.
    pub fn end(&self) {
        let batches = self.batches.load(Ordering::SeqCst);
        let errors = self.errors.load(Ordering::SeqCst);
        self.last_batches.store(batches, Ordering::SeqCst);
        self.last_errors.store(errors, Ordering::SeqCst);
        self.dropped.store(true, Ordering::SeqCst);
        self.answered.store(true, Ordering::SeqCst);
        self.is_held.store(false, Ordering::SeqCst);
        self.clock.let_go();
    }

    /// Returns how many batches and how many lists of errors came since the watcher was dropped.
    pub fn calls_since_the_end(&self) -> [u64; 2] {
        let batches = self.batches.load(Ordering::SeqCst);
        let errors = self.errors.load(Ordering::SeqCst);
        [
            batches.wrapping_sub(self.last_batches.load(Ordering::SeqCst)),
            errors.wrapping_sub(self.last_errors.load(Ordering::SeqCst)),
        ]
    }

    /// Pauses until it is let go on.
    fn hold(&self, rt: &impl Clock) {
        self.pauses.fetch_add(1, Ordering::SeqCst);
        for _ in 0..10 * TURNS {
            if !self.is_held.load(Ordering::SeqCst) {
                return;
            }
            if self.permits.load(Ordering::SeqCst) > 0 {
                self.permits.fetch_sub(1, Ordering::SeqCst);
                return;
            }
            sleep_a_turn(rt);
        }
    }

    /// Waits until the debouncer's thread pauses for the first time, and answers whether it does.
    pub fn is_paused(&self, rt: &impl Clock) -> bool {
        wait_for(rt, &self.pauses, 1)
    }

    /// Lets the debouncer's thread, whose pauses are held, take one turn. Answers whether it pauses
    /// again.
    pub fn take_turn(&self, rt: &impl Clock) -> bool {
        if !self.is_paused(rt) {
            return false;
        }
        let before = self.pauses.load(Ordering::SeqCst);
        self.permits.fetch_add(1, Ordering::SeqCst);
        wait_for(rt, &self.pauses, before.saturating_add(1))
    }
}

/// Waits until the count is so high, and answers whether it is.
pub fn wait_for(rt: &impl Clock, count: &AtomicU64, wanted: u64) -> bool {
    for _ in 0..TURNS {
        if count.load(Ordering::SeqCst) >= wanted {
            return true;
        }
        sleep_a_turn(rt);
    }
    false
}

/// Waits for the flag, and answers whether it was raised.
pub fn wait_for_flag(rt: &impl Clock, flag: &AtomicBool) -> bool {
    for _ in 0..TURNS {
        if flag.load(Ordering::SeqCst) {
            return true;
        }
        sleep_a_turn(rt);
    }
    false
}

/// A runtime with a stage.
pub trait Staged: Clock {
    fn stage(&self) -> &'static Stage;

    /// Returns the same runtime on a new stage, of a scene with these lines.
    fn anew(&self, script: &'static str) -> Result<Self, AllocError>;
}

/// A runtime whose clock and pauses are its stage's.
#[derive(Clone, Copy)]
pub struct OnStage<R> {
    rt: R,
    stage: &'static Stage,
}

impl<R: AllocGlobal + Copy> OnStage<R> {
    /// The runtime on a new stage, of a scene with these lines.
    pub fn new(rt: R, script: &'static str) -> Result<OnStage<R>, AllocError> {
        let stage = Stage::new(script, rt.alloc());
        let stage = Box::leak(Box::new(rt.alloc(), stage)?);
        Ok(OnStage { rt, stage })
    }
}

impl<R: Clock + Wait + AllocGlobal + Copy> Staged for OnStage<R> {
    fn stage(&self) -> &'static Stage {
        self.stage
    }

    fn anew(&self, script: &'static str) -> Result<OnStage<R>, AllocError> {
        OnStage::new(self.rt, script)
    }
}

impl<R: Clock + Wait> Clock for OnStage<R> {
    fn monotonic(&self) -> io::Result<Duration> {
        if self.stage.is_broken.load(Ordering::SeqCst) {
            return Err(io::Error::from(io::ErrorKind::Unsupported));
        }
        if self.stage.clock.stands() {
            return Ok(self.stage.clock.monotonic());
        }
        let moment = self.rt.monotonic()?;
        if self.stage.is_fast.load(Ordering::SeqCst) {
            return Ok(moment.saturating_mul(SPEED));
        }
        Ok(moment)
    }

    fn since_1970(&self) -> io::Result<Duration> {
        if self.stage.clock.stands() {
            return Ok(self.stage.clock.since_1970());
        }
        self.rt.since_1970()
    }

    fn sleep(&self, duration: Duration) {
        // Who waits for something, waits turn by turn, and by the runtime's own clock.
        if duration <= Duration::from_millis(1) {
            self.rt.sleep(duration);
        } else if self.stage.clock.stands() {
            self.stage.clock.pause(&self.rt, duration);
        } else if self.stage.is_held.load(Ordering::SeqCst) {
            self.stage.hold(&self.rt);
        } else if self.stage.is_fast.load(Ordering::SeqCst) {
            self.rt.sleep(duration / SPEED);
        } else {
            self.rt.sleep(duration);
        }
    }
}

impl<R: Wait> Wait for OnStage<R> {}

impl<R: Threads> Threads for OnStage<R> {}

impl<R: Alloc> Alloc for OnStage<R> {
    type A = R::A;

    fn alloc(&self) -> R::A {
        self.rt.alloc()
    }
}

impl<R: Files> Files for OnStage<R> {
    type File = R::File;

    type Dir = R::Dir;

    fn open_file(&self, how: &OpenOptions, path: &str) -> io::Result<R::File> {
        self.rt.open_file(how, path)
    }

    fn open_dir(&self, path: &str) -> io::Result<R::Dir> {
        self.rt.open_dir(path)
    }

    fn metadata(&self, path: &str) -> io::Result<Metadata> {
        self.rt.metadata(path)
    }

    fn symlink_metadata(&self, path: &str) -> io::Result<Metadata> {
        self.rt.symlink_metadata(path)
    }

    fn copy(&self, from: &str, to: &str) -> io::Result<u64> {
        self.rt.copy(from, to)
    }

    fn rename(&self, from: &str, to: &str) -> io::Result<()> {
        self.rt.rename(from, to)
    }

    fn remove_file(&self, path: &str) -> io::Result<()> {
        self.rt.remove_file(path)
    }

    fn create_dir(&self, path: &str) -> io::Result<()> {
        self.rt.create_dir(path)
    }

    fn symlink(&self, original: &str, link: &str) -> io::Result<()> {
        self.rt.symlink(original, link)
    }

    fn remove_dir(&self, path: &str) -> io::Result<()> {
        self.rt.remove_dir(path)
    }

    fn remove_dir_all<B: Allocator>(&self, alloc: B, path: &str) -> io::Result<()> {
        self.rt.remove_dir_all(alloc, path)
    }
}
