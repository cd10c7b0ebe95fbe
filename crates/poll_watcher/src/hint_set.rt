//! Hints: paths at which a watcher is asked to look soon.
//!
//! What waits is bounded. If there is no room for one more path, everything is looked at:
//!
//! ```text
//! let mut set = HintSet::new(rt.alloc());
//! set.add(path);
//! let taken = set.take();
//! match taken.paths() {
//!     Some(paths) => look_at_each(paths),
//!     None => look_at_all(),
//! }
//! ```
ghost use Rattle.std.specs.Prelude.{◌≡◌, ◌≤◌, ◌==◌, ◌&&◌, ◌⊎◌, false, true, not, length, MatchOption};
ghost use Rattle.std.specs.Option.{option_copied};
ghost use Rattle.poll_watcher.specs.HintSet.Hints.{IsHinted, Keeps, covers, everything, is_among, most_paths, nothing, others, with_path};

use notify_paths::PathBuf;
use std::alloc::{Allocator, Global};
use std::marker::Model;
use std::mem;

/// How many paths wait at most. One more, and all that is watched is looked at.
const MOST: usize = 1_000;

/// Paths that wait for a look, or else all that is watched. Whatever is added, a look at what is taken
/// sees it: it is at or below a path that is taken, or everything is looked at.
#[derive(Drop)]
pub struct HintSet<A: Allocator = Global> {
    alloc: A,
    paths: Vec<PathBuf<A>, A>,
    all: bool,
}

impl<A: Allocator> Model for HintSet<A> {
    ghost use Rattle.poll_watcher.specs.HintSet.Hints.{HintSetValue, IsHintSet};

    ghost Value = { HintSetValue };

    ghost view = { λ a. record { paths = a.paths.items; all = a.all } };

    ghost invariant = { λ a. IsHintSet (record { paths = a.paths.items; all = a.all }) };
}

impl<A: Allocator + Copy> HintSet<A> {
    /// Returns a set in which nothing waits.
    pub fn new(alloc: A) -> HintSet<A>
        ensures { result ≡ nothing }
    {
        HintSet {
            alloc,
            paths: Vec::new(alloc),
            all: false,
        }
    }

    /// Whether nothing waits.
    pub fn is_empty(&self) -> bool
        ensures { result ≡ (not self.now.all && (length self.now.paths == 0)) }
    {
        !self.all && self.paths.is_empty()
    }

    /// Returns the paths that wait; `None` says that all waits.
    pub fn paths(&self) -> Option<&[PathBuf<A>]>
        ensures value { MatchOption (option_copied result) (self.now.all ≡ true)
            (λ paths. (paths ≡ self.now.paths) × (self.now.all ≡ false)) }
        ensures bound { length self.now.paths ≤ most_paths }
    {
        if self.all {
            None
        } else {
            Some(self.paths.as_slice())
        }
    }

    /// Whether a look at what waits is a look at the path.
    pub fn covers(&self, path: &PathBuf<A>) -> bool
        ensures { result ≡ covers self.now path.now }
    {
        self.all || is_among(self.paths.as_slice(), path)
    }

    /// Adds the path. If there is no room for it, or no memory, all waits from now on.
    pub fn add(&mut self, path: PathBuf<A>)
        ensures value { IsHinted self.old path self.new }
        ensures added { covers self.new path ≡ true }
        ensures kept { Keeps self.old self.new }
    {
        if self.covers(&path) {
            return;
        }
        self.put(path);
    }

    /// Adds the path, which isn't covered, in the place of those below it, or has all wait.
    fn put(&mut self, path: PathBuf<A>)
        requires { covers self.old path ≡ false }
        ensures { (self.new ≡ with_path self.old path) ⊎ (self.new ≡ everything) }
    {
        drop_at(&mut self.paths, &path);
        if self.paths.len() >= MOST || self.paths.push(path).is_err() {
            self.add_all();
        }
    }

    /// Has all wait.
    pub fn add_all(&mut self)
        ensures { self.new ≡ everything }
    {
        self.all = true;
        self.paths.clear();
    }

    /// Takes out what waits, and leaves nothing.
    pub fn take(&mut self) -> HintSet<A>
        ensures value { result ≡ self.old }
        ensures left { self.new ≡ nothing }
    {
        mem::replace(self, HintSet::new(self.alloc))
    }
}

/// Whether the path is at or below one of these.
fn is_among<A: Allocator>(paths: &[PathBuf<A>], path: &PathBuf<A>) -> bool
    ensures { result ≡ is_among paths.now path.now }
{
    for kept in paths {
        if path.starts_with(kept) {
            return true;
        }
    }
    false
}

/// Drops the paths at and below this one.
fn drop_at<A: Allocator>(paths: &mut Vec<PathBuf<A>, A>, path: &PathBuf<A>)
    ensures items { paths.new.items ≡ others paths.old.items path.now }
    ensures bound { length paths.new.items ≤ length paths.old.items }
{
    paths.retain(|kept| !kept.starts_with(path));
}
