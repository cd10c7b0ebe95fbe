//! Whether a set holds the folders of its paths.
ghost use Rattle.std.specs.Prelude.{◌≡◌, IfOk, IfErr, length};
ghost use Rattle.notify_paths.specs.Errors.{out_of_memory};
ghost use Rattle.debounce_model.specs.Honest.{has_folders, is_closed};

use crate::path_set::PathSet;
use notify_paths::{Error, PathBuf};
use std::alloc::{AllocError, Allocator};

impl<A: Allocator + Copy> PathSet<A> {
    /// Whether each folder above the path is in the set.
    pub fn has_folders(&self, path: &PathBuf<A>) -> Result<bool, Error<A>>
        ensures ok { IfOk result (λ yes. yes ≡ has_folders self.now path.now) }
        ensures err { IfErr result (λ e. e ≡ out_of_memory) }
    {
        self.holds_folders(path)
            .map_err(|_| Error::out_of_memory(self.alloc))
    }

    fn holds_folders(&self, path: &PathBuf<A>) -> Result<bool, AllocError>
        ensures { IfOk result (λ yes. yes ≡ has_folders self.now path.now) }
    {
        let mut next = path.parent()?;
        while let Some(folder) = next {
            if !self.contains(&folder) {
                return Ok(false);
            }
            next = folder.parent()?;
        }
        Ok(true)
    }

    /// Whether the set is closed: whether it holds the folders above each of its paths.
    pub fn is_closed(&self) -> Result<bool, Error<A>>
        ensures ok { IfOk result (λ yes. yes ≡ is_closed self.now) }
        ensures err { IfErr result (λ e. e ≡ out_of_memory) }
    {
        for path in self.paths.keys() {
            if !self.has_folders(path)? {
                return Ok(false);
            }
        }
        Ok(true)
    }
}
