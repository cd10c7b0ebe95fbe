//! Updates of a listing.
ghost use Rattle.std.specs.Prelude.{◌≡◌, OnErr, OnOk};
ghost use Rattle.poll_listing.specs.Updates.{DifferInAdded, added_at, after_each, changed_at, dropped_at, found_after};

use crate::entry::Found;
use notify_paths::PathBuf;
use std::alloc::{AllocError, Allocator};
use std::collections::BTreeMap;

/// What becomes of a path.
#[derive(Clone, Copy, Debug, PartialEq, Eq)]
pub enum Update {
    /// Nothing stands there any longer.
    Gone,
    /// Something else stands there now, or the same with another length, modified time or number.
    Changed(Found),
    /// Something stands there now, and nothing did before.
    Added(Found),
}

impl Update {
    /// Returns what stands there after it.
    pub fn found(self) -> Option<Found>
        ensures { result ≡ found_after self }
    {
        match self {
            Update::Gone => None,
            Update::Changed(found) | Update::Added(found) => Some(found),
        }
    }
}

/// What becomes of some paths.
pub type Updates<A> = BTreeMap<PathBuf<A>, Update, A>;

/// What stands at some paths.
type Entries<A> = BTreeMap<PathBuf<A>, Found, A>;

/// Takes out what the update adds, if it is there.
fn drop_added<A: Allocator>(entries: &mut Entries<A>, path: &PathBuf<A>, update: Update)
    ensures { entries.new.entries ≡ dropped_at entries.old.entries (path.now, update) }
{
    if let Update::Added(_) = update {
        entries.remove(path);
    }
}

/// Changes or takes out what the update tells of, if it adds nothing.
fn change<A: Allocator>(entries: &mut Entries<A>, path: &PathBuf<A>, update: Update)
    ensures { entries.new.entries ≡ changed_at entries.old.entries (path.now, update) }
{
    match update {
        Update::Added(_) => {}
        Update::Changed(found) => {
            if let Some(place) = entries.get_mut(path) {
                *place = found;
            }
        }
        Update::Gone => {
            entries.remove(path);
        }
    }
}

/// Puts in all that is added. After an error a part of it may be there.
pub(crate) fn add_each<A: Allocator + Copy>(
    entries: &mut Entries<A>,
    updates: &Updates<A>,
) -> Result<(), AllocError>
    ensures ok { OnOk result (entries.new.entries
        ≡ after_each added_at entries.old.entries updates.now.entries) }
    ensures others { OnErr result
        (DifferInAdded updates.now.entries entries.old.entries entries.new.entries) }
{
    // The proof reads here that the paths ascend.
    let _count = entries.len();
    let mut rest = updates.iter();
    while let Some((path, update)) = rest.next() {
        if let Update::Added(found) = *update {
            entries.insert(path.clone()?, found)?;
        }
    }
    Ok(())
}

/// Takes out all that is added.
pub(crate) fn drop_each_added<A: Allocator>(entries: &mut Entries<A>, updates: &Updates<A>)
    ensures { entries.new.entries ≡ after_each dropped_at entries.old.entries updates.now.entries }
{
    let mut rest = updates.iter();
    while let Some((path, update)) = rest.next() {
        drop_added(entries, path, *update);
    }
}

/// Changes or takes out all that isn't added.
pub(crate) fn change_each<A: Allocator>(entries: &mut Entries<A>, updates: &Updates<A>)
    ensures { entries.new.entries ≡ after_each changed_at entries.old.entries updates.now.entries }
{
    let mut rest = updates.iter();
    while let Some((path, update)) = rest.next() {
        change(entries, path, *update);
    }
}
