//! A clock that a test moves.
use crate::files::answers::error_of;
use crate::files::script::FakeFiles;
use std::io;
use std::sync::atomic::Ordering;
use std::time::{Clock, Duration};

impl<R> FakeFiles<R> {
    /// Returns the moment at which the clock stands, in nanoseconds.
    pub fn moment(&self) -> u64 {
        self.script.moment.load(Ordering::SeqCst)
    }

    /// Puts the clock to this moment.
    pub fn set_moment(&self, nanos: u64) {
        self.script.moment.store(nanos, Ordering::SeqCst);
    }

    /// The moment, unless the clock can't be read.
    fn read_clock(&self) -> io::Result<Duration> {
        match self.script.told("clock", "") {
            Some(word) => Err(error_of(word)),
            None => Ok(Duration::from_nanos(self.moment())),
        }
    }
}

/// Both clocks stand at the same moment, which only tests and sleeps move on.
impl<R> Clock for FakeFiles<R> {
    fn monotonic(&self) -> io::Result<Duration> {
        self.read_clock()
    }

    fn since_1970(&self) -> io::Result<Duration> {
        self.read_clock()
    }

    fn sleep(&self, duration: Duration) {
        let nanos = u64::try_from(duration.as_nanos()).unwrap_or(u64::MAX);
        self.set_moment(self.moment().saturating_add(nanos));
    }
}
