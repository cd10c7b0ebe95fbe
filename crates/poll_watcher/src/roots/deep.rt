//! Folders that lie so deep below a watched path that nothing looks into them.
ghost use Rattle.std.specs.Prelude.{◌≡◌, ◌-◌, ◌^◌, length, min};
ghost use Rattle.std.specs.List.{list_any};
ghost use Rattle.poll_watcher.specs.Roots.Deep.{ends, goes_on, is_end, levels_below, too_deep};

use notify_paths::PathBuf;
use notify_types::RecursiveMode;
use poll_listing::{Listing, levels_left};
use std::alloc::Allocator;

/// How many folders of the listing aren't looked into, since they lie 64 levels below a root and no other root leads
/// further.
pub(crate) fn count_too_deep<A: Allocator + Copy>(
    roots: &[(PathBuf<A>, RecursiveMode)],
    last: &Listing<A>,
) -> u64
    ensures { result ≡ min (length (too_deep roots.now last.now)) (2 ^ 64 - 1) }
{
    let mut count: u64 = 0;
    for (path, found) in last.iter() {
        if found.kind.is_folder() && is_end(roots, path) {
            count = count.saturating_add(1);
        }
    }
    count
}

/// Whether the look of a root ends at the path, and that of none goes on.
fn is_end<A: Allocator>(roots: &[(PathBuf<A>, RecursiveMode)], path: &PathBuf<A>) -> bool
    ensures { result ≡ is_end roots.now path.now }
{
    one_ends(roots, path) && !one_goes_on(roots, path)
}

/// Whether the look of a root ends at the path.
fn one_ends<A: Allocator>(roots: &[(PathBuf<A>, RecursiveMode)], path: &PathBuf<A>) -> bool
    ensures { result ≡ list_any (λ root. ends root.1 (levels_below root path.now)) roots.now }
{
    for (root, mode) in roots {
        if ends(*mode, levels_below(root, *mode, path)) {
            return true;
        }
    }
    false
}

/// Whether the look of a root goes on below the path.
fn one_goes_on<A: Allocator>(roots: &[(PathBuf<A>, RecursiveMode)], path: &PathBuf<A>) -> bool
    ensures { result ≡ list_any (λ root. goes_on (levels_below root path.now)) roots.now }
{
    for (root, mode) in roots {
        if goes_on(levels_below(root, *mode, path)) {
            return true;
        }
    }
    false
}

/// How many levels below the path are looked at for the root, if the path lies there.
fn levels_below<A: Allocator>(
    root: &PathBuf<A>,
    mode: RecursiveMode,
    path: &PathBuf<A>,
) -> Option<u32>
    ensures { result ≡ levels_below (root.now, mode) path.now }
{
    if path.starts_with(root) {
        levels_left(root, mode, path)
    } else {
        None
    }
}

/// Whether a folder with so many levels left isn't looked into. A root that isn't watched with all below it ends where
/// it should.
fn ends(mode: RecursiveMode, levels: Option<u32>) -> bool
    ensures { result ≡ ends mode levels }
{
    matches!((mode, levels), (RecursiveMode::Recursive, Some(0)))
}

/// Whether a folder with so many levels left is looked into.
fn goes_on(levels: Option<u32>) -> bool
    ensures { result ≡ goes_on levels }
{
    match levels {
        Some(left) => left > 0,
        None => false,
    }
}
