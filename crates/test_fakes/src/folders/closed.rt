//! Folders of which some are closed, for tests.
ghost use Rattle.std.specs.Prelude.{◌≡◌, ◌≤◌, None, OnOk};

use notify_paths::{Error, PathBuf};
use poll_listing::Found;
use poll_rounds::{Closed, Folders, NotesClosed};
use std::alloc::{AllocError, Allocator};
use std::io;

/// Other folders, of which some can't be read and entered, as since permission closes them: what lies in such a one is
/// noted as closed, and counts as missing.
#[derive(Drop)]
pub struct ClosedFolders<A: Allocator, D: Drop> {
    alloc: A,
    inner: D,
    shut: Vec<PathBuf<A>, A>,
    noted: Vec<Closed<A>, A>,
}

impl<A: Allocator + Copy, D: Drop> ClosedFolders<A, D> {
    /// Returns the folders of which these are closed.
    pub fn new(alloc: A, inner: D, shut: Vec<PathBuf<A>, A>) -> ClosedFolders<A, D>
        ensures inner { result.inner ≡ inner }
        ensures shut { result.shut ≡ shut }
    {
        ClosedFolders {
            alloc,
            inner,
            shut,
            noted: Vec::new(alloc),
        }
    }

    /// Notes that the first closed folder that passes the test is closed, if one does. Answers whether one does.
    fn note_if(&mut self, path: &PathBuf<A>, names: bool) -> Result<bool, AllocError>
        ensures { self.new.inner ≡ self.old.inner }
    {
        for folder in &self.shut {
            if path.is_below(folder) || (names && *path == *folder) {
                if !self.noted.iter().any(|(noted, _cause)| *noted == *folder) {
                    let noted = (folder.clone()?, io::ErrorKind::PermissionDenied);
                    self.noted.push(noted)?;
                }
                return Ok(true);
            }
        }
        Ok(false)
    }
}

impl<A: Allocator + Copy, D: Folders<A> + Drop> Folders<A> for ClosedFolders<A, D> {
    ghost told = { λ _. None };

    ghost failed = { λ s. D.failed s.inner };

    fn look(&mut self, path: &PathBuf<A>) -> Result<Option<Found>, Error<A>> {
        match self.note_if(path, false) {
            Ok(true) => Ok(None),
            Ok(false) => self.inner.look(path),
            Err(_) => Err(Error::out_of_memory(self.alloc)),
        }
    }

    fn names(&mut self, path: &PathBuf<A>) -> Result<Option<Vec<String<A>, A>>, Error<A>> {
        match self.note_if(path, true) {
            Ok(true) => Ok(Some(Vec::new(self.alloc))),
            Ok(false) => self.inner.names(path),
            Err(_) => Err(Error::out_of_memory(self.alloc)),
        }
    }

    fn failures(&self) -> u64 {
        self.inner.failures()
    }
}

impl<A: Allocator + Copy, D: Folders<A> + Drop> NotesClosed<A> for ClosedFolders<A, D> {
    ghost closed = { λ s. s.noted.items };

    fn closed(&self) -> &[Closed<A>] {
        self.noted.as_slice()
    }

    fn forget_closed(&mut self) {
        self.noted.clear();
    }
}
