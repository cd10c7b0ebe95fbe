//! Folders that fail at one call, for tests.
ghost use Rattle.std.specs.Prelude.{◌≡◌, ◌≤◌, ◌^◌, true, false};
ghost use Rattle.poll_rounds.specs.Folders.{CountsFailure};

use notify_paths::{Error, ErrorKind, PathBuf};
use poll_listing::Found;
use poll_rounds::Folders;
use std::alloc::Allocator;
use std::io;

/// Other folders, of which one call fails as a device does. They tell what the others tell.
#[derive(Drop)]
pub struct FailingFolders<A: Allocator, D: Drop> {
    alloc: A,
    inner: D,
    calls: u64,
    failing_call: u64,
    failures: u64,
}

impl<A: Allocator + Copy, D: Drop> FailingFolders<A, D> {
    /// Returns the folders whose call of this number fails; the first call has number 0.
    pub fn new(alloc: A, inner: D, failing_call: u64) -> FailingFolders<A, D>
        ensures { result.inner ≡ inner }
    {
        FailingFolders {
            alloc,
            inner,
            calls: 0,
            failing_call,
            failures: 0,
        }
    }

    /// Counts a failure.
    fn count_failure(&mut self)
        ensures inner { self.new.inner ≡ self.old.inner }
        ensures counted { CountsFailure self.old.failures self.new.failures }
    {
        self.failures = self.failures.saturating_add(1);
    }

    /// Whether this call is the one that fails.
    fn fails(&mut self) -> bool
        ensures inner { self.new.inner ≡ self.old.inner }
        ensures same { self.new.failures ≡ self.old.failures }
    {
        let call = self.calls;
        self.calls = self.calls.saturating_add(1);
        call == self.failing_call
    }
}

impl<A: Allocator + Copy, D: Folders<A> + Drop> Folders<A> for FailingFolders<A, D> {
    ghost told = { λ s. D.told s.inner };

    ghost failed = { λ s. s.failures };

    fn look(&mut self, path: &PathBuf<A>) -> Result<Option<Found>, Error<A>> {
        if self.fails() {
            self.count_failure();
            return Err(Error::new(self.alloc, ErrorKind::Io(io::ErrorKind::Other)));
        }
        match self.inner.look(path) {
            Ok(found) => Ok(found),
            Err(error) => {
                self.count_failure();
                Err(error)
            },
        }
    }

    fn names(&mut self, path: &PathBuf<A>) -> Result<Option<Vec<String<A>, A>>, Error<A>> {
        if self.fails() {
            self.count_failure();
            return Err(Error::new(self.alloc, ErrorKind::Io(io::ErrorKind::Other)));
        }
        match self.inner.names(path) {
            Ok(names) => Ok(names),
            Err(error) => {
                self.count_failure();
                Err(error)
            },
        }
    }

    fn failures(&self) -> u64 {
        self.failures
    }
}
