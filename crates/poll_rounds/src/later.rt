//! The entries of a listing that a walk has not come to.
ghost use Rattle.std.specs.Prelude.{◌≡◌, ◌∷◌, [], MatchOption};
ghost use Rattle.std.specs.List.Sorted.{IsStrictlySortedBy};
ghost use Rattle.std.specs.Map.{keys_of};
ghost use Rattle.std.specs.Map.Iter.{deref_pair};
ghost use Rattle.std.specs.Option.{option_map};
ghost use Rattle.notify_paths.specs.Path.{path_cmp};
ghost use Rattle.poll_listing.specs.Listing.{IsListing};
ghost use Rattle.poll_listing.specs.Pairs.{with_head};
ghost use Rattle.poll_rounds.specs.Beside.{within};

use notify_paths::PathBuf;
use poll_listing::{Found, Listing};
use std::alloc::Allocator;
use std::collections::btree_map::Range;
use std::marker::Model;

/// Entries of a listing, in the order of their paths.
#[derive(Drop)]
pub(crate) struct Later<'a, A: Allocator> {
    entries: Range<'a, PathBuf<A>, Found>,
}

impl<'a, A: Allocator> Model for Later<'a, A> {
    ghost use Rattle.std.specs.List.Sorted.{IsStrictlySortedBy};
    ghost use Rattle.std.specs.Map.{keys_of};
    ghost use Rattle.notify_paths.specs.Path.{path_cmp};
    ghost use Rattle.poll_listing.specs.Listing.{ListingValue};

    ghost Value = { ListingValue };

    ghost view = { λ a. a.entries };

    ghost invariant = { λ a. IsStrictlySortedBy path_cmp (keys_of a.entries) };
}

impl<'a, A: Allocator> Later<'a, A> {
    /// Returns the entries from the path on.
    pub(crate) fn begin(last: &'a Listing<A>, path: &PathBuf<A>) -> Later<'a, A>
        ensures ok { within result path.now ≡ within last.now path.now }
        ensures law { IsListing last.now }
    {
        Later {
            entries: last.iter_from(path),
        }
    }

    /// Takes the next entry.
    fn next(&mut self) -> Option<(&'a PathBuf<A>, &'a Found)>
        ensures next { MatchOption (option_map deref_pair result) (self.old ≡ [])
            (λ entry. self.old ≡ entry ∷ self.new) }
        ensures sorted { IsStrictlySortedBy path_cmp (keys_of self.old) }
    {
        self.entries.next()
    }
}

/// Takes the next entry at the path or below it. None comes behind one that stands behind the path and not below
/// it.
pub(crate) fn next_within<'a, A: Allocator>(
    entries: &mut Later<'a, A>,
    top: &PathBuf<A>,
) -> Option<(&'a PathBuf<A>, &'a Found)>
    ensures { within entries.old top.now
        ≡ with_head (option_map deref_pair result) (within entries.new top.now) }
{
    while let Some((path, found)) = entries.next() {
        if path.starts_with(top) {
            return Some((path, found));
        }
        if top.cmp(path).is_lt() {
            return None;
        }
    }
    None
}
