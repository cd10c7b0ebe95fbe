//! The cache of the numbers that scans found.
ghost use Rattle.std.specs.Prelude.{◌≡◌, ◌==◌, ◌≤◌, [], length, OnOk, OnErr, IfOk, IsOk};
ghost use Rattle.std.specs.HashMap.{spare};
ghost use Rattle.std.specs.List.{IsDistinct};
ghost use Rattle.std.specs.Map.{keys_of};
ghost use Rattle.notify_paths.specs.Path.{path_eq};
ghost use Rattle.debounce_cache.specs.FileIdMap.{Holds, IsRemoved, count_with, entries_without, numbers_in, with_pairs, without_path, map_rules};
ghost use Rattle.debounce_cache.specs.FileIdMapLaws.{map-rescan, map-stopped};

use crate::cache::FileIdCache;
use crate::scan::Scan;
use debounce_model::FileId;
use notify_paths::{Error, PathBuf};
use notify_types::RecursiveMode;
use std::alloc::{AllocError, Allocator, Global};
use std::collections::HashMap;
use std::hash::{BuildHasherDefault, FoldHasher};
use std::marker::Model;

type Entries<A> = HashMap<PathBuf<A>, FileId, BuildHasherDefault<FoldHasher>, A>;

/// A cache that holds the number of each path that its scan found.
///
/// A path that is added is scanned, and what was found is put over what is held: a later pair wins,
/// and nothing is dropped. Only `remove_path` drops numbers, those at the path and below it.
#[derive(Drop)]
pub struct FileIdMap<S, A: Allocator = Global> {
    scan: S,
    entries: Entries<A>,
    alloc: A,
}

impl<S, A: Allocator> Model for FileIdMap<S, A> {
    ghost use Rattle.debounce_cache.specs.FileIdMap.{FileIdMapValue};

    ghost Value = { FileIdMapValue S };

    ghost view = { λ a. record { scan = a.scan; entries = a.entries.entries } };
}

impl<S, A: Allocator + Copy> FileIdMap<S, A> {
    /// Returns a cache that holds no number, and asks this scan for each path that is added.
    pub fn new(alloc: A, scan: S) -> FileIdMap<S, A>
        ensures { result ≡ record { scan = scan; entries = [] } }
    {
        FileIdMap {
            scan,
            entries: HashMap::new(alloc),
            alloc,
        }
    }

    /// Returns the scan, as the last call left it.
    pub fn scan(&self) -> &S
        ensures { result.now ≡ self.now.scan }
    {
        &self.scan
    }

    /// Returns how many paths have a number. No path has two, so the numbers alone decide how many.
    pub fn len(&self) -> usize
        ensures count { result ≡ length self.now.entries }
        ensures law { IsDistinct path_eq (keys_of self.now.entries) }
    {
        self.entries.len()
    }

    /// Whether no path has a number.
    pub fn is_empty(&self) -> bool
        ensures { result ≡ (length self.now.entries == 0) }
    {
        self.entries.is_empty()
    }
}

impl<S: Scan<A>, A: Allocator + Copy> FileIdCache<A> for FileIdMap<S, A> {
    ghost rules = { map_rules S.rules };

    fn cached_file_id(&self, path: &PathBuf<A>) -> Option<FileId> {
        self.entries.get(path).copied()
    }

    /// Scans the path, and puts what was found over the numbers. If an allocation fails, the entries
    /// stay as they were.
    fn add_path(&mut self, path: &PathBuf<A>, mode: RecursiveMode) -> Result<(), Error<A>> {
        self.scan.scan(path, mode == RecursiveMode::Recursive)?;
        let Ok(()) = put_copies(self.alloc, &mut self.entries, self.scan.found()) else {
            return Err(Error::out_of_memory(self.alloc));
        };
        Ok(())
    }

    /// Drops the numbers at the path and below it. It takes no memory, and is never refused.
    fn remove_path(&mut self, path: &PathBuf<A>) -> Result<(), Error<A>>
        ensures removed { IsRemoved self.old path.now self.new }
        ensures never_refused { IsOk result }
    {
        drop_at_or_below(&mut self.entries, path);
        Ok(())
    }

    ghost rescan_leaves = { map-rescan S.rules };

    ghost rescan_refused = { map-stopped S.rules };
}

/// Puts copies of the pairs over the entries. All that can fail comes before the first pair.
fn put_copies<A: Allocator + Copy>(
    alloc: A,
    entries: &mut Entries<A>,
    pairs: &[(PathBuf<A>, FileId)],
) -> Result<(), AllocError>
    ensures ok { OnOk result
        (Holds entries.new.entries (with_pairs (numbers_in entries.old.entries) pairs.now)) }
    ensures count { OnOk result
        (length entries.new.entries ≡ count_with entries.old.entries pairs.now) }
    ensures unchanged { OnErr result (entries.new.entries ≡ entries.old.entries) }
{
    let copies = pairs.to_vec(alloc)?;
    entries.reserve(copies.len())?;
    put_pairs(entries, copies);
    Ok(())
}

/// Puts the pairs over the entries, which have room for them.
fn put_pairs<A: Allocator + Clone>(entries: &mut Entries<A>, pairs: Vec<(PathBuf<A>, FileId), A>)
    requires room { length pairs.items ≤ spare entries.old }
    requires law { IsDistinct path_eq (keys_of entries.old.entries) }
    ensures ok { Holds entries.new.entries
        (with_pairs (numbers_in entries.old.entries) pairs.items) }
    ensures law { IsDistinct path_eq (keys_of entries.new.entries) }
{
    for (path, id) in pairs {
        match entries.insert(path, id) {
            Ok(_) | Err(_) => {}
        }
    }
}

/// Drops the entries at the path and below it.
fn drop_at_or_below<A: Allocator>(entries: &mut Entries<A>, path: &PathBuf<A>)
    ensures ok { Holds entries.new.entries
        (without_path (numbers_in entries.old.entries) path.now) }
    ensures left { entries.new.entries ≡ entries_without entries.old.entries path.now }
{
    entries.retain(|key, _| !key.starts_with(path));
}
