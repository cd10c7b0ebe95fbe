//! The paths that a batch wants.
ghost use Rattle.std.specs.Prelude.{◌≡◌, IfOk, OnOk};
ghost use Rattle.std.specs.Map.{keys_of};
ghost use Rattle.debounce_model.specs.Play.{events_of, with_path, without_at};
ghost use Rattle.reader_paths.specs.Plan.{wanted, wanted_first};

use notify_paths::{PathBuf, drop_at_or_below};
use notify_types::DebouncedEvent;
use std::alloc::{AllocError, Allocator};
use std::collections::BTreeMap;

/// Returns the paths that the batch wants, in their order: an event that is no removal names each first,
/// and no later removal takes it away, of the path or of a folder above it. Look at these alone. What
/// stands at a path that was removed isn't reported yet.
pub fn wanted<A: Allocator + Copy>(
    alloc: A,
    batch: &[DebouncedEvent<A>],
) -> Result<BTreeMap<PathBuf<A>, (), A>, AllocError>
    ensures { IfOk result (λ paths. keys_of paths.entries ≡ wanted (events_of batch.now)) }
{
    let mut paths = BTreeMap::new(alloc);
    for event in batch {
        want(&mut paths, alloc, event)?;
    }
    Ok(paths)
}

/// Puts in the event's first path, or takes it away with all below it.
fn want<A: Allocator + Copy>(
    paths: &mut BTreeMap<PathBuf<A>, (), A>,
    alloc: A,
    event: &DebouncedEvent<A>,
) -> Result<(), AllocError>
    ensures { OnOk result (keys_of paths.new.entries ≡ wanted_first (keys_of paths.old.entries)
        event.now.event.kind event.now.event.paths) }
{
    let Some(path) = event.first_path() else {
        return Ok(());
    };
    if event.kind().is_removal() {
        take_away(paths, alloc, path);
        return Ok(());
    }
    add(paths, path.clone()?)
}

/// Puts the path in.
fn add<A: Allocator + Copy>(
    paths: &mut BTreeMap<PathBuf<A>, (), A>,
    path: PathBuf<A>,
) -> Result<(), AllocError>
    ensures { OnOk result (keys_of paths.new.entries
        ≡ with_path (keys_of paths.old.entries) path) }
{
    paths.insert(path, ())?;
    Ok(())
}

/// Takes away what lies at or below the path.
fn take_away<A: Allocator + Copy>(
    paths: &mut BTreeMap<PathBuf<A>, (), A>,
    alloc: A,
    path: &PathBuf<A>,
)
    ensures { keys_of paths.new.entries ≡ without_at (keys_of paths.old.entries) path.now }
{
    let mut spare = PathBuf::empty(alloc);
    drop_at_or_below(paths, path, &mut spare);
}
