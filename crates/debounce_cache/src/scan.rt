//! Scans for the numbers of files.
ghost use Rattle.std.specs.Prelude.{◌≡◌, OnOk, IfErr};
ghost use Rattle.notify_paths.specs.Errors.{out_of_memory};
ghost use Rattle.debounce_cache.specs.Scans.{ScanRules};

use debounce_model::FileId;
use notify_paths::{Error, PathBuf};
use std::alloc::Allocator;

/// Looks up which files are there, for a [`FileIdMap`](crate::file_id_map::FileIdMap).
///
/// What can't be read is left out. Whether links are followed is the scan's choice.
pub trait Scan<A: Allocator> {
    ghost rules: { ScanRules Self };

    /// Looks up the path: with all that lies below it if `recursive`, else with its direct entries
    /// alone. Afterwards `found` gives what was found. A scan is refused only if an allocation fails.
    fn scan(&mut self, path: &PathBuf<A>, recursive: bool) -> Result<(), Error<A>>
        ensures ok { OnOk result (rules.leaves self.old path.now recursive self.new) }
        ensures err { IfErr result (λ e. e ≡ out_of_memory) };

    /// Returns the paths that the last scan found, each with its file's number.
    fn found(&self) -> &[(PathBuf<A>, FileId)]
        ensures { result.now ≡ rules.found self.now };
}
