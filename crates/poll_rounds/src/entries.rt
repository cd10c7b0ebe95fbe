//! Where a walk over folders puts what it finds.
ghost use Rattle.std.specs.Prelude.{◌≡◌, [], true, IfErr, OnOk};
ghost use Rattle.std.specs.BTreeMap.{insert_entry};
ghost use Rattle.std.specs.List.Sorted.{IsPermutation};
ghost use Rattle.std.specs.Map.{keys_of};
ghost use Rattle.notify_paths.specs.Errors.{out_of_memory};
ghost use Rattle.notify_paths.specs.Path.{PathValue, path_cmp};
ghost use Rattle.debounce_model.specs.Honest.{has_folders};
ghost use Rattle.poll_listing.specs.Listing.{ListingValue, has_entry, is_nonempty};

use notify_paths::{Error, PathBuf};
use poll_listing::{Found, Listing};
use std::alloc::Allocator;

/// What takes the entries of a listing, one after the other.
pub trait Entries<A: Allocator> {
    /// The entries that it has.
    ghost entries: { Self → ListingValue };

    /// The listing that they are put beside, which stays.
    ghost last: { Self → ListingValue };

    /// Puts the names of a folder in the order in which their entries had better come.
    fn arrange(&self, names: &mut Vec<String<A>, A>)
        ensures { IsPermutation names.old.items names.new.items };

    /// Puts in what was found at the path. The folders above it are there. No entry is lost, even after an
    /// error.
    fn put(&mut self, alloc: A, path: &PathBuf<A>, found: Found) -> Result<(), Error<A>>
        requires path { is_nonempty path.now ≡ true }
        requires folders { has_folders (keys_of (entries self.old)) path.now ≡ true }
        ensures ok { OnOk result (entries self.new
            ≡ insert_entry path_cmp (entries self.old) path.now found) }
        ensures grows { (q : PathValue) → has_entry (entries self.old) q ≡ true →
            has_entry (entries self.new) q ≡ true }
        ensures same { last self.new ≡ last self.old }
        ensures err { IfErr result (λ e. e ≡ out_of_memory) };
}

impl<A: Allocator + Copy> Entries<A> for Listing<A> {
    ghost entries = { λ listing. listing };

    ghost last = { λ _. [] };

    fn arrange(&self, _names: &mut Vec<String<A>, A>) {}

    fn put(&mut self, alloc: A, path: &PathBuf<A>, found: Found) -> Result<(), Error<A>> {
        self.insert(alloc, path, found)
    }
}
