//! Folders in memory.
ghost use Rattle.std.specs.Prelude.{◌≡◌, Some, None, false, map, IfOk, MatchOption};
ghost use Rattle.std.specs.List.{list_all};
ghost use Rattle.std.specs.Option.{option_copied, option_map};
ghost use Rattle.std.specs.Path.{components_remaining};
ghost use Rattle.std.specs.String.{string_bytes};
ghost use Rattle.notify_paths.specs.PathText.{part_of};
ghost use Rattle.poll_rounds.specs.Folders.{AreNames, IsTree, has_own_length};
ghost use Rattle.test_fakes.specs.Folders.Tree.{name_in, only_name};

use notify_paths::{Error, PathBuf};
use poll_listing::{Found, Listing, components_past};
use poll_rounds::Folders;
use std::alloc::{AllocError, Allocator};
use std::path::{Component, Components};

/// A tree of folders in memory, that tells what it holds.
#[derive(Drop)]
pub struct TreeFolders<A: Allocator> {
    alloc: A,
    tree: Listing<A>,
}

impl<A: Allocator + Copy> TreeFolders<A> {
    /// Returns folders that hold what the listing has. It is `None` if something that isn't a file has
    /// a length there.
    pub fn new(alloc: A, tree: Listing<A>) -> Option<TreeFolders<A>>
        ensures { MatchOption result (list_all has_own_length tree
            ≡ false) (λ folders. (folders.tree ≡ tree) × IsTree folders.tree) }
    {
        if has_own_lengths(&tree) {
            Some(TreeFolders { alloc, tree })
        } else {
            None
        }
    }
}

/// Whether only files have lengths.
fn has_own_lengths<A: Allocator>(tree: &Listing<A>) -> bool
    ensures { result ≡ list_all has_own_length tree.now }
{
    let mut rest = tree.iter();
    while let Some((_path, found)) = rest.next() {
        if !found.kind.is_file() && found.length != 0 {
            return false;
        }
    }
    true
}

/// The name of what stands at the path, if it stands in the folder and has one.
fn name_in<'a, A: Allocator>(folder: &PathBuf<A>, path: &'a PathBuf<A>) -> Option<&'a str>
    ensures { option_copied result ≡ name_in folder.now path.now }
{
    if path.starts_with(folder) {
        only_name(components_past(folder, path))
    } else {
        None
    }
}

/// The one component, if there is one and it is a name.
fn only_name(mut components: Components<'_>) -> Option<&str>
    ensures { option_copied result
        ≡ only_name (map part_of (components_remaining components.entry)) }
{
    match (components.next(), components.next()) {
        (Some(Component::Normal(name)), None) => Some(name),
        _ => None,
    }
}

/// The names of the entries in the folder.
fn names_in<A: Allocator + Copy>(
    alloc: A,
    tree: &Listing<A>,
    folder: &PathBuf<A>,
) -> Result<Vec<String<A>, A>, AllocError>
    ensures { IfOk result (λ names. AreNames tree.now folder.now (map string_bytes names.items)) }
{
    let mut names = Vec::new(alloc);
    let mut rest = tree.iter();
    while let Some((path, _found)) = rest.next() {
        if let Some(name) = name_in(folder, path) {
            names.push(String::from_str(alloc, name)?)?;
        }
    }
    Ok(names)
}

impl<A: Allocator + Copy> Folders<A> for TreeFolders<A> {
    ghost told = { λ folders. Some folders.tree };

    ghost failed = { λ _. 0 };

    fn look(&mut self, path: &PathBuf<A>) -> Result<Option<Found>, Error<A>> {
        Ok(self.tree.get(path))
    }

    fn names(&mut self, path: &PathBuf<A>) -> Result<Option<Vec<String<A>, A>>, Error<A>> {
        match self.tree.get(path) {
            Some(found) if found.kind.is_folder() => {}
            _ => return Ok(None),
        }
        match names_in(self.alloc, &self.tree, path) {
            Ok(names) => Ok(Some(names)),
            Err(_) => Err(Error::out_of_memory(self.alloc)),
        }
    }

    fn failures(&self) -> u64 {
        0
    }
}
