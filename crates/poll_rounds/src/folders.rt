//! Folders that can be looked at.
ghost use Rattle.std.specs.Prelude.{◌≡◌, ◌≤◌, ℕ, List, Option, map, IfOk, IfErr, IfSome};
ghost use Rattle.std.specs.Option.{option_map};
ghost use Rattle.std.specs.String.{string_bytes};
ghost use Rattle.notify_paths.specs.Path.{PathValue};
ghost use Rattle.poll_rounds.specs.Folders.{NamesOf, IsRefusal};
ghost use Rattle.poll_listing.specs.Listing.{ListingValue, entry_at};

use notify_paths::{Error, PathBuf};
use poll_listing::Found;
use std::alloc::Allocator;

/// Folders and what stands in them, which are asked path by path. Some tell their whole tree to
/// proofs, as the fake of the tests does; the real file system, which others change, can't.
pub trait Folders<A: Allocator> {
    /// The tree, if the folders tell it.
    ghost told: { Self → Option ListingValue };

    /// How many calls of the device or the system failed so far.
    ghost failed: { Self → ℕ };

    /// Returns what stands at the path; `None` if it is missing. Links aren't followed.
    fn look(&mut self, path: &PathBuf<A>) -> Result<Option<Found>, Error<A>>
        ensures found { IfSome (told self.old) (λ tree. IfOk result (λ r. r
            ≡ entry_at tree path.now)) }
        ensures same { told self.new ≡ told self.old }
        ensures counted { failed self.old ≤ failed self.new }
        ensures err { IfErr result (λ e. IsRefusal e (failed self.old) (failed self.new)) };

    /// Returns the names in the folder at the path; `None` if there is no folder.
    fn names(&mut self, path: &PathBuf<A>) -> Result<Option<Vec<String<A>, A>>, Error<A>>
        ensures found { IfSome (told self.old) (λ tree.
            IfOk result (λ r.
            NamesOf tree path.now (option_map (λ v. map string_bytes v.items) r))) }
        ensures same { told self.new ≡ told self.old }
        ensures counted { failed self.old ≤ failed self.new }
        ensures err { IfErr result (λ e. IsRefusal e (failed self.old) (failed self.new)) };

    /// Returns how many calls failed so far. It never falls, and stays at the greatest number that it
    /// can count to.
    fn failures(&self) -> u64
        ensures { result ≡ failed self.now };
}
