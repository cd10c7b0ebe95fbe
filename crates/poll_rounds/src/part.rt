//! A part of a listing, listed anew.
ghost use Rattle.std.specs.Prelude.{◌≡◌, ◌≤◌, ◌&&◌, [], true, false, IfErr, IfOk, IfSome, OnOk};
ghost use Rattle.std.specs.List.{list_all, list_any};
ghost use Rattle.std.specs.Map.{keys_of};
ghost use Rattle.notify_paths.specs.Errors.{out_of_memory};
ghost use Rattle.notify_paths.specs.Path.{PathValue, is_below, is_prefix};
ghost use Rattle.debounce_model.specs.Honest.{folders_of, has_folders};
ghost use Rattle.poll_listing.specs.Listing.{has_entry};
ghost use Rattle.poll_rounds.specs.Folders.{Adds, IsRefusal, IsTree, is_passable, shows};
ghost use Rattle.poll_rounds.specs.Beside.{put_in};
ghost use Rattle.poll_rounds.specs.Parts.{IsTop, LooksAt, has_folder, has_root_below, passes, shows_in};

use crate::beside::Beside;
use crate::entries::Entries;
use crate::folders::Folders;
use crate::walk::{first_parts, list_at, list_roots, part_count};
use notify_paths::{Error, PathBuf};
use notify_types::RecursiveMode;
use poll_listing::{Found, levels_left};
use std::alloc::Allocator;

/// Whether what was found at a folder on the way lets it be passed: from the root on it is a folder,
/// and above the root no file.
fn passes<A: Allocator>(root: &PathBuf<A>, folder: &PathBuf<A>, found: Option<Found>) -> bool
    ensures { result ≡ passes root.now folder.now found }
{
    match found {
        None => false,
        Some(found) if folder.starts_with(root) => found.kind.is_folder(),
        Some(found) => !found.kind.is_file(),
    }
}

/// Whether each folder above the path lets it be shown at the root.
fn is_open<A: Allocator + Copy, D: Folders<A>>(
    alloc: A,
    folders: &mut D,
    root: &PathBuf<A>,
    path: &PathBuf<A>,
) -> Result<bool, Error<A>>
    ensures passed { IfSome (D.told folders.old) (λ tree. IfOk result (λ b. b
        ≡ list_all (is_passable tree root.now) (folders_of path.now))) }
    ensures same { D.told folders.new ≡ D.told folders.old }
    ensures counted { D.failed folders.old ≤ D.failed folders.new }
    ensures err { IfErr result (λ e. IsRefusal e (D.failed folders.old) (D.failed folders.new)) }
{
    for count in 1..part_count(path) {
        let folder = first_parts(alloc, path, count)?;
        let found = folders.look(&folder)?;
        if !passes(root, &folder, found) {
            return Ok(false);
        }
    }
    Ok(true)
}

/// Adds what the root, which doesn't lie below the path, shows at the path and below it.
fn list_part<A: Allocator + Copy, D: Folders<A>, L: Entries<A>>(
    alloc: A,
    folders: &mut D,
    listing: &mut L,
    root: &PathBuf<A>,
    mode: RecursiveMode,
    path: &PathBuf<A>,
) -> Result<(), Error<A>>
    requires folders { has_folders (keys_of (L.entries listing.old)) path.now ≡ true }
    requires above { is_below root.now path.now ≡ false }
    ensures added { IfSome (D.told folders.old) (λ tree.
        OnOk result (Adds tree (shows_in tree path.now (root.now, mode)) (L.entries listing.old)
        (L.entries listing.new))) }
    ensures grows { (q : PathValue) → has_entry (L.entries listing.old) q ≡ true →
        has_entry (L.entries listing.new) q ≡ true }
    ensures beside { L.last listing.new ≡ L.last listing.old }
    ensures same { D.told folders.new ≡ D.told folders.old }
    ensures counted { D.failed folders.old ≤ D.failed folders.new }
    ensures err { IfErr result (λ e. IsRefusal e (D.failed folders.old) (D.failed folders.new)) }
{
    if root.is_empty() {
        return Ok(());
    }
    if !path.starts_with(root) {
        return Ok(());
    }
    let Some(depth) = levels_left(root, mode, path) else {
        return Ok(());
    };
    if !is_open(alloc, folders, root, path)? {
        return Ok(());
    }
    list_at(alloc, folders, listing, path, depth)
}

/// Adds what the roots, none of which lies below the path, show at the path and below it.
fn list_parts<A: Allocator + Copy, D: Folders<A>, L: Entries<A>>(
    alloc: A,
    folders: &mut D,
    listing: &mut L,
    roots: &[(PathBuf<A>, RecursiveMode)],
    path: &PathBuf<A>,
) -> Result<(), Error<A>>
    requires folders { has_folders (keys_of (L.entries listing.old)) path.now ≡ true }
    requires above { has_root_below roots.now path.now ≡ false }
    ensures added { IfSome (D.told folders.old) (λ tree.
        OnOk result (Adds tree (λ q. list_any (λ root. shows_in tree path.now root q) roots.now)
        (L.entries listing.old) (L.entries listing.new))) }
    ensures beside { L.last listing.new ≡ L.last listing.old }
    ensures same { D.told folders.new ≡ D.told folders.old }
    ensures counted { D.failed folders.old ≤ D.failed folders.new }
    ensures err { IfErr result (λ e. IsRefusal e (D.failed folders.old) (D.failed folders.new)) }
{
    for (root, mode) in roots {
        list_part(alloc, folders, listing, root, *mode, path)?;
    }
    Ok(())
}

/// Whether one of the roots lies strictly below the path.
fn has_root_below<A: Allocator>(roots: &[(PathBuf<A>, RecursiveMode)], path: &PathBuf<A>) -> bool
    ensures { result ≡ has_root_below roots.now path.now }
{
    for (root, _mode) in roots {
        if root.is_below(path) {
            return true;
        }
    }
    false
}

/// Whether the listing has something at the path that isn't a file.
fn has_folder<A: Allocator + Copy>(listing: &Beside<'_, A>, path: &PathBuf<A>) -> bool
    requires { listing.now.left ≡ [] }
    ensures { result ≡ has_folder (put_in listing.now) path.now }
{
    match listing.found_at(path) {
        Some(found) => !found.kind.is_file(),
        None => false,
    }
}

/// Returns the path, or the first path above it that the listing doesn't have as a folder.
pub(crate) fn top_of<A: Allocator + Copy>(
    alloc: A,
    listing: &Beside<'_, A>,
    path: &PathBuf<A>,
) -> Result<PathBuf<A>, Error<A>>
    requires { listing.now.left ≡ [] }
    ensures ok { IfOk result (λ top. IsTop (put_in listing.now) path.now top) }
    ensures folders { IfOk result (λ top. has_folders (keys_of (put_in listing.now)) top ≡ true) }
    ensures err { IfErr result (λ e. e ≡ out_of_memory) }
{
    for count in 1..part_count(path) {
        let folder = first_parts(alloc, path, count)?;
        if !has_folder(listing, &folder) {
            return Ok(folder);
        }
    }
    path.try_clone()
}

/// Lists anew what the roots show at the path and below it. The listing has the folders above the path. If a
/// root lies strictly below the path, all roots are listed. After an error the listing may have a part of it.
pub(crate) fn list_anew<A: Allocator + Copy, D: Folders<A>>(
    alloc: A,
    folders: &mut D,
    roots: &[(PathBuf<A>, RecursiveMode)],
    listing: &mut Beside<'_, A>,
    path: &PathBuf<A>,
) -> Result<(), Error<A>>
    requires folders { has_folders (keys_of (put_in listing.old)) path.now ≡ true }
    ensures shown { IfSome (D.told folders.old) (λ tree. IsTree tree →
        OnOk result (LooksAt tree roots.now path.now (put_in listing.old) (put_in listing.new))) }
    ensures left { OnOk result (listing.new.left ≡ []) }
    ensures beside { listing.new.last ≡ listing.old.last }
    ensures same { D.told folders.new ≡ D.told folders.old }
    ensures counted { D.failed folders.old ≤ D.failed folders.new }
    ensures err { IfErr result (λ e. IsRefusal e (D.failed folders.old) (D.failed folders.new)) }
{
    if has_root_below(roots, path) {
        listing.drop_at(alloc, &PathBuf::empty(alloc))?;
        list_roots(alloc, folders, roots, listing)?;
        return listing.drop_rest(alloc);
    }
    listing.drop_at(alloc, path)?;
    list_parts(alloc, folders, listing, roots, path)?;
    listing.drop_rest(alloc)
}
