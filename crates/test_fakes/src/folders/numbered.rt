//! Folders in which files have numbers, for tests.
ghost use Rattle.std.specs.Prelude.{◌≡◌, ◌≤◌, None};

use notify_paths::{Error, PathBuf};
use poll_listing::{FileNumber, Found};
use poll_rounds::Folders;
use std::alloc::Allocator;

/// Other folders, in which what stands at some paths has a number.
#[derive(Drop)]
pub struct NumberedFolders<A: Allocator, D: Drop> {
    inner: D,
    numbers: Vec<(PathBuf<A>, FileNumber), A>,
}

impl<A: Allocator, D: Drop> NumberedFolders<A, D> {
    /// Returns the folders with these numbers. Of two for one path the first counts.
    pub fn new(inner: D, numbers: Vec<(PathBuf<A>, FileNumber), A>) -> NumberedFolders<A, D>
        ensures inner { result.inner ≡ inner }
        ensures numbers { result.numbers ≡ numbers }
    {
        NumberedFolders { inner, numbers }
    }

    /// The number of what stands at the path.
    fn number_at(&self, path: &PathBuf<A>) -> FileNumber {
        for (place, number) in &self.numbers {
            if *place == *path {
                return *number;
            }
        }
        FileNumber::Unknown
    }
}

impl<A: Allocator, D: Folders<A> + Drop> Folders<A> for NumberedFolders<A, D> {
    ghost told = { λ _. None };

    ghost failed = { λ s. D.failed s.inner };

    fn look(&mut self, path: &PathBuf<A>) -> Result<Option<Found>, Error<A>> {
        let Some(found) = self.inner.look(path)? else {
            return Ok(None);
        };
        Ok(Some(Found {
            number: self.number_at(path),
            ..found
        }))
    }

    fn names(&mut self, path: &PathBuf<A>) -> Result<Option<Vec<String<A>, A>>, Error<A>> {
        self.inner.names(path)
    }

    fn failures(&self) -> u64 {
        self.inner.failures()
    }
}
