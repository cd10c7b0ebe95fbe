//! What was said in a look, as updates of what was known.
ghost use Rattle.std.specs.Prelude.{◌≡◌, [], OnOk, IfOk};
ghost use Rattle.std.specs.List.Sorted.{IsStrictlySortedBy};
ghost use Rattle.std.specs.Map.{keys_of};
ghost use Rattle.std.specs.Map.Iter.{deref_pair};
ghost use Rattle.std.specs.Option.{option_map};
ghost use Rattle.notify_paths.specs.Path.{path_cmp};
ghost use Rattle.poll_listing.specs.Listing.{IsListing};
ghost use Rattle.poll_listing.specs.Pairs.{with_head};
ghost use Rattle.poll_listing.specs.Updates.{IsUpdate, updated};
ghost use Rattle.listing_looks.specs.Looks.{is_lost, said_of, within};
ghost use Rattle.listing_looks.specs.SaidUpdates.{all_found, all_gone, each_gone, said_updates, untold, update_to};

use notify_paths::PathBuf;
use poll_listing::{Found, Listing, Update, Updates};
use std::alloc::{AllocError, Allocator};
use std::collections::BTreeMap;
use std::collections::btree_map::Range;

/// Whether the last of these that lies at or above the path is lost.
pub(crate) fn is_lost<A: Allocator>(tops: &[(PathBuf<A>, bool)], path: &PathBuf<A>) -> bool
    ensures { result ≡ is_lost tops.now path.now }
{
    let mut gone = false;
    for (top, lost) in tops {
        if path.starts_with(top) {
            gone = *lost;
        }
    }
    gone
}

/// Takes the next of the entries, which lie at the path or behind it, if it lies at the path or below it.
fn next_within<'a, A: Allocator>(
    entries: &mut Range<'a, PathBuf<A>, Found>,
    top: &PathBuf<A>,
) -> Option<(&'a PathBuf<A>, &'a Found)>
    requires { IsStrictlySortedBy path_cmp (keys_of entries.old) }
    ensures next { within entries.old top.now
        ≡ with_head (option_map deref_pair result) (within entries.new top.now) }
    ensures sorted { IsStrictlySortedBy path_cmp (keys_of entries.new) }
{
    while let Some((path, found)) = entries.next() {
        if path.starts_with(top) {
            return Some((path, found));
        }
        if top.cmp(path).is_lt() {
            return None;
        }
    }
    None
}

/// What is known at the path and below it goes.
fn tell_gone<A: Allocator + Copy>(
    updates: &mut Updates<A>,
    known: &Listing<A>,
    top: &PathBuf<A>,
) -> Result<(), AllocError>
    ensures { OnOk result (updates.new.entries
        ≡ all_gone updates.old.entries (within known.now top.now)) }
{
    let mut entries = known.iter_from(top);
    while let Some((path, _found)) = next_within(&mut entries, top) {
        updates.insert(path.clone()?, Update::Gone)?;
    }
    Ok(())
}

/// Nothing becomes of what is known at the path and below it.
fn tell_nothing<A: Allocator>(updates: &mut Updates<A>, top: &PathBuf<A>)
    ensures { updates.new.entries ≡ untold updates.old.entries top.now }
{
    updates.retain(|path, _update| !path.starts_with(top));
}

/// What is known at these paths and below them goes, or stays.
fn tell_each_gone<A: Allocator + Copy>(
    updates: &mut Updates<A>,
    known: &Listing<A>,
    tops: &[(PathBuf<A>, bool)],
) -> Result<(), AllocError>
    ensures { OnOk result (updates.new.entries
        ≡ each_gone updates.old.entries known.now tops.now) }
{
    for (top, lost) in tops {
        if *lost {
            tell_gone(updates, known, top)?;
        } else {
            tell_nothing(updates, top);
        }
    }
    Ok(())
}

/// This was found.
fn tell_found<A: Allocator + Copy>(
    updates: &mut Updates<A>,
    known: &Listing<A>,
    found: &BTreeMap<PathBuf<A>, Found, A>,
) -> Result<(), AllocError>
    ensures { OnOk result (updates.new.entries
        ≡ all_found updates.old.entries known.now found.now.entries) }
{
    let mut rest = found.iter();
    while let Some((path, here)) = rest.next() {
        updates.insert(path.clone()?, update_to(known.get(path), *here))?;
    }
    Ok(())
}

/// What becomes of a path where this was known, and this was found.
fn update_to(before: Option<Found>, found: Found) -> Update
    ensures { result ≡ update_to before found }
{
    match before {
        Some(_) => Update::Changed(found),
        None => Update::Added(found),
    }
}

/// Returns the updates that lead from what is known to what was said.
pub(crate) fn said_updates<A: Allocator + Copy>(
    alloc: A,
    known: &Listing<A>,
    lost: &[(PathBuf<A>, bool)],
    found: &BTreeMap<PathBuf<A>, Found, A>,
) -> Result<Updates<A>, AllocError>
    requires known { IsListing known.now }
    requires found { IsStrictlySortedBy path_cmp (keys_of found.now.entries) }
    requires said { IsListing (said_of known.now lost.now found.now.entries) }
    ensures update { IfOk result (λ updates. IsUpdate known.now updates.entries) }
    ensures ok { IfOk result (λ updates. updated known.now updates.entries
        ≡ said_of known.now lost.now found.now.entries) }
{
    let mut updates = BTreeMap::new(alloc);
    tell_each_gone(&mut updates, known, lost)?;
    tell_found(&mut updates, known, found)?;
    Ok(updates)
}
