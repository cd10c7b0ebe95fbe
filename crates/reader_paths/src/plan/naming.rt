//! Batches that say only where to look, or what was removed.
ghost use Rattle.std.specs.Prelude.{◌≡◌, ◌++◌, ◌∷◌, [], OnOk};
ghost use Rattle.reader_paths.specs.Plan.Naming.{naming, naming_again, naming_as, naming_beside, namings, namings_beside, removing};

use crate::plan::target::target_of;
use notify_paths::PathBuf;
use notify_types::{DebouncedEvent, Event, EventKind, RemoveKind};
use poll_listing::Listing;
use std::alloc::{AllocError, Allocator};

/// Adds an event that names the path and says nothing of it, so that what stands there decides. With the
/// paths of an original and of its copy, a batch of such events makes the one a copy of the other.
pub fn name_path<A: Allocator + Copy>(
    batch: &mut Vec<DebouncedEvent<A>, A>,
    path: &PathBuf<A>,
) -> Result<(), AllocError>
    ensures { OnOk result (batch.new.items ≡ batch.old.items ++ naming path.now ∷ []) }
{
    push_event(batch, EventKind::Any, path)
}

/// Adds an event that says that the path was removed: whatever stands there again, a copy only loses it.
pub fn name_removed<A: Allocator + Copy>(
    batch: &mut Vec<DebouncedEvent<A>, A>,
    path: &PathBuf<A>,
) -> Result<(), AllocError>
    ensures { OnOk result (batch.new.items ≡ batch.old.items ++ removing path.now ∷ []) }
{
    push_event(batch, EventKind::Remove(RemoveKind::Any), path)
}

/// Adds an event that has the path looked at again: one that names it, if it is wanted, and else its
/// removal.
pub fn name_again<A: Allocator + Copy>(
    batch: &mut Vec<DebouncedEvent<A>, A>,
    path: &PathBuf<A>,
    is_wanted: bool,
) -> Result<(), AllocError>
    ensures { OnOk result (batch.new.items
        ≡ batch.old.items ++ naming_again path.now is_wanted ∷ []) }
{
    if is_wanted {
        name_path(batch, path)
    } else {
        name_removed(batch, path)
    }
}

/// Adds an event of this kind at the path.
fn push_event<A: Allocator + Copy>(
    batch: &mut Vec<DebouncedEvent<A>, A>,
    kind: EventKind,
    path: &PathBuf<A>,
) -> Result<(), AllocError>
    ensures { OnOk result (batch.new.items ≡ batch.old.items ++ naming_as kind path.now ∷ []) }
{
    let mut event = Event::new(*batch.allocator(), kind);
    event.paths.push(path.clone()?)?;
    batch.push(DebouncedEvent::new(event, 0))?;
    Ok(())
}

/// Adds an event that names it for each path of the listing at or below the folder.
pub fn name_listed<A: Allocator + Copy>(
    batch: &mut Vec<DebouncedEvent<A>, A>,
    listing: &Listing<A>,
    folder: &PathBuf<A>,
) -> Result<(), AllocError>
    ensures { OnOk result (batch.new.items ≡ batch.old.items ++ namings folder.now listing.now) }
{
    let mut rest = listing.iter();
    while let Some((path, _found)) = rest.next() {
        if path.starts_with(folder) {
            name_path(batch, path)?;
        }
    }
    Ok(())
}

/// Adds a removal of each path of the original `from` at which the copy `to` has something and the
/// original nothing.
pub fn name_beside<A: Allocator + Copy>(
    batch: &mut Vec<DebouncedEvent<A>, A>,
    original: &Listing<A>,
    copied: &Listing<A>,
    from: &PathBuf<A>,
    to: &PathBuf<A>,
) -> Result<(), AllocError>
    ensures { OnOk result (batch.new.items ≡ batch.old.items
        ++ namings_beside original.now from.now to.now copied.now) }
{
    let mut rest = copied.iter();
    while let Some((path, _found)) = rest.next() {
        name_missing(batch, original, target_of(to, from, path)?)?;
    }
    Ok(())
}

/// Adds the removal of the path, if it is one and the original has nothing there.
fn name_missing<A: Allocator + Copy>(
    batch: &mut Vec<DebouncedEvent<A>, A>,
    original: &Listing<A>,
    path: Option<PathBuf<A>>,
) -> Result<(), AllocError>
    ensures { OnOk result (batch.new.items ≡ batch.old.items
        ++ naming_beside original.now path) }
{
    match path {
        Some(path) if original.get(&path).is_none() => name_removed(batch, &path),
        _ => Ok(()),
    }
}
