//! What was reported and isn't there yet.
ghost use Rattle.std.specs.Prelude.{◌≡◌, ◌==◌, length, map, IfOk};
ghost use Rattle.std.specs.Map.{keys_of};
ghost use Rattle.reader_paths.specs.Plan.Naming.{naming};

use crate::words::Words;
use crate::words::index::DocumentIndex;
use crate::words::kept::ReadsDocuments;
use notify_paths::{PathBuf, drop_at_or_below};
use notify_types::DebouncedEvent;
use reader_paths::plan::name_path;
use std::alloc::{AllocError, Global};
use std::collections::BTreeMap;

/// What was read of documents at some paths.
#[derive(Clone, Copy)]
pub(crate) struct Reading<'a, D> {
    /// The documents.
    pub(crate) documents: &'a D,
    /// The paths.
    pub(crate) paths: &'a BTreeMap<PathBuf, ()>,
    /// What was read.
    pub(crate) read: &'a BTreeMap<PathBuf, Words>,
}

/// Paths that were reported and not removed, at which nothing stood when they were to be read.
#[derive(Drop)]
pub(crate) struct Missing {
    alloc: Global,
    paths: BTreeMap<PathBuf, ()>,
}

impl Missing {
    /// Nothing is missing.
    pub(crate) fn new(alloc: Global) -> Missing {
        Missing {
            alloc,
            paths: BTreeMap::new(alloc),
        }
    }

    /// Whether nothing is.
    pub(crate) fn is_empty(&self) -> bool
        ensures { result ≡ (length self.now.paths.entries == 0) }
    {
        self.paths.len() == 0
    }

    /// A batch that names each of the paths, in their order.
    pub(crate) fn batch(&self) -> Result<Vec<DebouncedEvent>, AllocError>
        ensures { IfOk result (λ batch. batch.items
            ≡ map naming (keys_of self.now.paths.entries)) }
    {
        let mut batch = Vec::new(self.alloc);
        for path in self.paths.keys() {
            name_path(&mut batch, path)?;
        }
        Ok(batch)
    }

    /// Notes at which of the paths that the batch wants nothing stands, and what else the index forgets with them.
    pub(crate) fn note<D: ReadsDocuments>(
        &mut self,
        index: &DocumentIndex,
        batch: &[DebouncedEvent],
        reading: &Reading<'_, D>,
    ) -> Result<(), AllocError> {
        self.note_forgotten(index, reading.paths, reading.read)?;
        for event in batch {
            self.note_removal(event);
        }
        self.note_wanted(reading)
    }

    /// Notes what the index has at and below the paths at which nothing was read.
    fn note_forgotten(
        &mut self,
        index: &DocumentIndex,
        paths: &BTreeMap<PathBuf, ()>,
        read: &BTreeMap<PathBuf, Words>,
    ) -> Result<(), AllocError> {
        for path in paths.keys() {
            if !read.contains_key(path) {
                self.note_below(index, path)?;
            }
        }
        Ok(())
    }

    /// Notes what the index has of the path and below it.
    fn note_below(&mut self, index: &DocumentIndex, path: &PathBuf) -> Result<(), AllocError> {
        for path in index.at_or_below(path)? {
            self.paths.insert(path, ())?;
        }
        Ok(())
    }

    /// What was removed isn't missing.
    fn note_removal(&mut self, event: &DebouncedEvent) {
        if let Some(path) = event.first_path()
            && event.kind().is_removal()
        {
            let mut spare = PathBuf::empty(self.alloc);
            drop_at_or_below(&mut self.paths, path, &mut spare);
        }
    }

    /// Notes of each of the paths whether it is missing.
    fn note_wanted<D: ReadsDocuments>(
        &mut self,
        reading: &Reading<'_, D>,
    ) -> Result<(), AllocError> {
        for path in reading.paths.keys() {
            let was_read = reading.read.contains_key(path);
            self.note_one(path, !was_read && reading.documents.is_missing(path))?;
        }
        Ok(())
    }

    /// Notes whether the path is missing.
    fn note_one(&mut self, path: &PathBuf, is_missing: bool) -> Result<(), AllocError> {
        if is_missing {
            self.paths.insert(path.clone()?, ())?;
        } else {
            self.paths.remove(path);
        }
        Ok(())
    }
}
