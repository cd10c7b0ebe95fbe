//! What lies below a path in a map whose keys are paths, which is one run of keys, right after the path: counted,
//! found and dropped.
//!
//! ```text
//! let mut spare = PathBuf::empty(rt.alloc());
//! drop_below(&mut map, &folder, &mut spare);
//! ```
ghost use Rattle.std.specs.Prelude.{◌≡◌, true, length, filter, IsTrue};
ghost use Rattle.notify_paths.specs.Below.{without_below, without_at_or_below};
ghost use Rattle.notify_paths.specs.Path.{is_below};

use crate::path::PathBuf;
use std::alloc::Allocator;
use std::collections::BTreeMap;
use std::ops::Bound;

/// Returns how many keys lie strictly below the path. It looks at these and at one more.
pub fn count_below<V, A: Allocator>(map: &BTreeMap<PathBuf<A>, V, A>, path: &PathBuf<A>) -> usize
    ensures { result ≡ length (filter (λ e. is_below e.0 path.now) map.now.entries) }
{
    let mut count = 0;
    for (key, _value) in map.range((Bound::Excluded(path), Bound::Unbounded)) {
        if !key.starts_with(path) {
            return count;
        }
        count += 1;
    }
    count
}

/// Copies the first key strictly below the path to `spare`. False says that none lies below, or that
/// there is no memory for the copy.
pub fn copy_first_below<V, A: Allocator>(
    map: &BTreeMap<PathBuf<A>, V, A>,
    path: &PathBuf<A>,
    spare: &mut PathBuf<A>,
) -> bool
    ensures { IsTrue result → is_below spare.new path.now ≡ true }
{
    match map.range((Bound::Excluded(path), Bound::Unbounded)).next() {
        Some((key, _value)) if key.is_below(path) => spare.copy_from(key).is_ok(),
        _ => false,
    }
}

/// Removes the first key below the path, if there is memory for a copy of it in `spare`.
fn remove_first_below<V: Drop, A: Allocator>(
    map: &mut BTreeMap<PathBuf<A>, V, A>,
    path: &PathBuf<A>,
    spare: &mut PathBuf<A>,
)
    ensures { without_below map.new.entries path.now ≡ without_below map.old.entries path.now }
{
    if copy_first_below(map, path, spare) {
        map.remove(&*spare);
    }
}

/// Removes the first `count` keys below the path, as far as there is memory for a copy of each.
fn remove_below<V: Drop, A: Allocator>(
    map: &mut BTreeMap<PathBuf<A>, V, A>,
    path: &PathBuf<A>,
    spare: &mut PathBuf<A>,
    count: usize,
)
    ensures { without_below map.new.entries path.now ≡ without_below map.old.entries path.now }
{
    for _step in 0..count {
        remove_first_below(map, path, spare);
    }
}

/// Drops what lies strictly below the path. It can't fail.
///
/// If nothing lies below, it looks at one key. Few keys below are removed one by one, each after a
/// copy of it to `spare`, whatever path that held; so if `spare` has room for each key, no memory is
/// asked for. If more than a sixteenth of the map lies below, or a copy is refused, it goes over the
/// whole map.
pub fn drop_below<V: Drop, A: Allocator>(
    map: &mut BTreeMap<PathBuf<A>, V, A>,
    path: &PathBuf<A>,
    spare: &mut PathBuf<A>,
)
    ensures { map.new.entries ≡ without_below map.old.entries path.now }
{
    let count = count_below(map, path);
    if count == 0 {
        return;
    }
    if count <= map.len() / 16 {
        remove_below(map, path, spare, count);
    }
    retain_outside(map, path);
}

/// Drops what lies at the path or below it, as `drop_below` does.
pub fn drop_at_or_below<V: Drop, A: Allocator>(
    map: &mut BTreeMap<PathBuf<A>, V, A>,
    path: &PathBuf<A>,
    spare: &mut PathBuf<A>,
)
    ensures { map.new.entries ≡ without_at_or_below map.old.entries path.now }
{
    drop_below(map, path, spare);
    map.remove(path);
}

/// Keeps what doesn't lie strictly below the path.
fn retain_outside<V: Drop, A: Allocator>(map: &mut BTreeMap<PathBuf<A>, V, A>, path: &PathBuf<A>)
    ensures { map.new.entries ≡ without_below map.old.entries path.now }
{
    if count_below(map, path) == 0 {
        return;
    }
    map.retain(|key, _value| !key.is_below(path));
}
