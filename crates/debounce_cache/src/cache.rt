//! Caches of file numbers.
ghost use Rattle.std.specs.Prelude.{◌≡◌, OnOk, OnErr, IfErr, IsOk, true};
ghost use Rattle.notify_paths.specs.Errors.{out_of_memory};
ghost use Rattle.debounce_model.specs.Cache.{Roots, AddPath, RemovePath, RescanRoots, Rules, AreMade, IsStopped, adds_of, no_numbers};
ghost use Rattle.debounce_model.specs.CacheLaws.{no_numbers-rescan, no_numbers-stopped};

use debounce_model::FileId;
use notify_paths::{Error, PathBuf};
use notify_types::RecursiveMode;
use std::alloc::Allocator;

/// A map from paths to numbers of files, by which the two halves of a rename find each other.
///
/// Each cache says by its `rules` what its numbers are and what each call leaves, also a refused
/// one. A call is refused only if an allocation fails.
pub trait FileIdCache<A: Allocator> {
    ghost rules: { Rules Self };

    /// Returns the number of the path, if there is one.
    fn cached_file_id(&self, path: &PathBuf<A>) -> Option<FileId>
        ensures { result ≡ rules.numbers self.now path.now };

    /// The path is watched from now on in this mode, or was created.
    fn add_path(&mut self, path: &PathBuf<A>, mode: RecursiveMode) -> Result<(), Error<A>>
        ensures ok { OnOk result (rules.leaves self.old (AddPath path.now mode) self.new) }
        ensures err { OnErr result (rules.refused self.old (AddPath path.now mode) self.new) }
        ensures memory { IfErr result (λ e. e ≡ out_of_memory) }
        ensures sure { rules.refuses_nothing ≡ true → IsOk result };

    /// The path isn't watched any longer, or was removed.
    fn remove_path(&mut self, path: &PathBuf<A>) -> Result<(), Error<A>>
        ensures ok { OnOk result (rules.leaves self.old (RemovePath path.now) self.new) }
        ensures err { OnErr result (rules.refused self.old (RemovePath path.now) self.new) }
        ensures memory { IfErr result (λ e. e ≡ out_of_memory) }
        ensures sure { rules.refuses_nothing ≡ true → IsOk result };

    /// Events were lost: each root is added anew, in order, up to the first refusal.
    fn rescan(&mut self, roots: &[(PathBuf<A>, RecursiveMode)]) -> Result<(), Error<A>>
        ensures ok { OnOk result (rules.leaves self.old (RescanRoots roots.now) self.new) }
        ensures err { OnErr result (rules.refused self.old (RescanRoots roots.now) self.new) }
        ensures memory { IfErr result (λ e. e ≡ out_of_memory) }
        ensures sure { rules.refuses_nothing ≡ true → IsOk result }
    {
        for (root, mode) in roots {
            self.add_path(root, *mode)?;
        }
        Ok(())
    }

    ghost rescan_leaves: { (c : Self) (roots : Roots) (d : Self) →
        AreMade rules c (adds_of roots) d → rules.leaves c (RescanRoots roots) d };

    ghost rescan_refused: { (c : Self) (roots : Roots) (d : Self) →
        IsStopped rules c (adds_of roots) d → rules.refused c (RescanRoots roots) d };
}

/// The cache that holds no numbers and refuses nothing.
#[derive(Clone, Copy, Debug, Default, PartialEq, Eq)]
pub struct NoCache;

impl NoCache {
    pub fn new() -> NoCache {
        NoCache
    }
}

impl<A: Allocator> FileIdCache<A> for NoCache {
    ghost rules = { no_numbers };

    fn cached_file_id(&self, _path: &PathBuf<A>) -> Option<FileId> {
        None
    }

    fn add_path(&mut self, _path: &PathBuf<A>, _mode: RecursiveMode) -> Result<(), Error<A>> {
        Ok(())
    }

    fn remove_path(&mut self, _path: &PathBuf<A>) -> Result<(), Error<A>> {
        Ok(())
    }

    ghost rescan_leaves = { no_numbers-rescan };

    ghost rescan_refused = { no_numbers-stopped };
}
