//! How long a thread pauses, and a clock that can't be read.
use notify_debouncer_full::{Error, ErrorKind, now};
use notify_watch::sleep_unless;
use std::io;
use std::sync::atomic::{AtomicBool, AtomicU64, Ordering};
use std::time::{Clock, Duration, Instant};

/// A clock that adds up how long it was to sleep, and sets a flag in its last sleep.
#[derive(Drop)]
struct Sleeper {
    slept: AtomicU64,
    sleeps: AtomicU64,
    /// Which sleep is the last, or 0 if none is.
    last: u64,
    stop: AtomicBool,
}

impl Sleeper {
    fn new(last: u64) -> Sleeper {
        Sleeper {
            slept: AtomicU64::new(0),
            sleeps: AtomicU64::new(0),
            last,
            stop: AtomicBool::new(false),
        }
    }

    /// Pauses by this clock, up to its last sleep. Answers whether the pause came to its end.
    fn pause(&self, duration: Duration) -> bool {
        sleep_unless(self, &self.stop, duration)
    }
}

impl Clock for Sleeper {
    fn monotonic(&self) -> io::Result<Duration> {
        Err(io::Error::from(io::ErrorKind::Unsupported))
    }

    fn since_1970(&self) -> io::Result<Duration> {
        Err(io::Error::from(io::ErrorKind::Unsupported))
    }

    fn sleep(&self, duration: Duration) {
        let nanos = u64::try_from(duration.as_nanos()).unwrap_or(u64::MAX);
        self.slept.fetch_add(nanos, Ordering::SeqCst);
        let before = self.sleeps.fetch_add(1, Ordering::SeqCst);
        if before.wrapping_add(1) == self.last {
            self.stop.store(true, Ordering::SeqCst);
        }
    }
}

/// How long each pause is to be, in nanoseconds: up to an hour.
const PAUSES: [u64; 8] = [
    0,
    1,
    1_000_000,
    1_000_001,
    99_999_999,
    100_000_000,
    350_000_000,
    3_600_000_000_000,
];

#[test]
fn a_pause_is_as_long_as_asked_and_a_millisecond_at_least(rt: HostRuntime) {
    for nanos in PAUSES {
        let clock = Sleeper::new(0);
        assert!(rt; clock.pause(Duration::from_nanos(nanos)), "{nanos}");
        assert_eq!(rt; clock.slept.load(Ordering::SeqCst), nanos.max(1_000_000));
    }
}

#[test]
fn a_pause_that_is_ended_is_no_whole_one(rt: HostRuntime) {
    // It sleeps once for what is left over of its naps, and then three naps of a tenth of a second.
    let pause = Duration::from_millis(350);
    for last in 1..5u64 {
        let clock = Sleeper::new(last);
        assert!(rt; !clock.pause(pause), "{last}");
        assert_eq!(rt; clock.sleeps.load(Ordering::SeqCst), last);
        // Who is to end already doesn't sleep.
        assert!(rt; !clock.pause(pause), "{last}");
        assert_eq!(rt; clock.sleeps.load(Ordering::SeqCst), last);
    }
}

/// A clock that can't be read.
struct Unreadable;

impl Clock for Unreadable {
    fn monotonic(&self) -> io::Result<Duration> {
        Err(io::Error::from(io::ErrorKind::Unsupported))
    }

    fn since_1970(&self) -> io::Result<Duration> {
        Err(io::Error::from(io::ErrorKind::Unsupported))
    }
}

#[test]
fn a_clock_that_cannot_be_read_is_a_failed_device(rt: HostRuntime) {
    let start = Instant::now(&rt).expect(&rt, "a clock");
    let moment = now(&Unreadable, rt.alloc(), start);
    let failed = ErrorKind::Io(io::ErrorKind::Unsupported);
    assert!(rt; moment == Err(Error::new(rt.alloc(), failed)));
}
