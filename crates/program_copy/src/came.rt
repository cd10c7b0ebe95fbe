//! What came along with moves.
use notify_paths::PathBuf;
use std::alloc::{AllocError, Global};
use std::collections::BTreeMap;

/// Where what stands at a path was before, by what a batch tells.
pub(crate) type Sources = BTreeMap<PathBuf, PathBuf>;

/// What came along with moves in the copy.
#[derive(Drop)]
pub(crate) struct Came {
    /// The paths that the last batch tells.
    told: BTreeMap<PathBuf, ()>,
    /// The paths that no batch has told yet, and where they were before.
    untold: BTreeMap<PathBuf, PathBuf>,
}

impl Came {
    /// Nothing has come along yet.
    pub(crate) fn new(alloc: Global) -> Came {
        Came {
            told: BTreeMap::new(alloc),
            untold: BTreeMap::new(alloc),
        }
    }

    /// What was told before counts as any other copy from now on.
    pub(crate) fn forget_told(&mut self, alloc: Global) {
        self.told = BTreeMap::new(alloc);
    }

    /// Notes that what came to the path is told.
    pub(crate) fn note_told(&mut self, path: &PathBuf) -> Result<(), AllocError> {
        self.told.insert(path.clone()?, ())?;
        Ok(())
    }

    /// Notes that what came from `old` to `new` isn't told yet.
    pub(crate) fn note_untold(&mut self, old: &PathBuf, new: &PathBuf) -> Result<(), AllocError> {
        self.untold.insert(new.clone()?, old.clone()?)?;
        Ok(())
    }

    /// Notes what is told now: what came along from just there. A tick can part the events of one move, and then a
    /// later batch tells the rest.
    pub(crate) fn note_sources(&mut self, sources: &Sources) -> Result<(), AllocError> {
        for (new, old) in sources {
            if self.untold.get(new) == Some(old) {
                self.note_told(new)?;
            }
        }
        Ok(())
    }

    /// Says whether what stands at the path came along and is told. From now on it counts as any other copy.
    pub(crate) fn take(&mut self, path: &PathBuf) -> bool {
        self.untold.remove(path);
        self.told.remove(path).is_some()
    }
}
