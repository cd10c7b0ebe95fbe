//! Two listings side by side, and a listing and its updates.
ghost use Rattle.std.specs.Prelude.{◌≡◌, ◌∷◌, [], MatchOption, None, Some};
ghost use Rattle.std.specs.BTreeMap.Range.{entries_between};
ghost use Rattle.std.specs.Option.{option_copied};
ghost use Rattle.std.specs.declared.ops.Bound.TheVariants.{Included, Unbounded};
ghost use Rattle.notify_paths.specs.Path.{path_cmp};
ghost use Rattle.poll_listing.specs.Pairs.{paired, change_of, is_under, goes, no_parts, updated_pairs, walk};
ghost use Rattle.poll_listing.specs.Updates.{found_after};

use crate::entry::{EntryKind, Found};
use crate::updates::{Update, Updates};
use notify_paths::PathBuf;
use std::alloc::Allocator;
use std::cmp::Ordering;
use std::collections::BTreeMap;
use std::collections::btree_map::{Iter, Range};
use std::marker::Model;
use std::ops::Bound;

/// What happened at a path.
#[derive(Clone, Copy)]
pub(crate) enum Change {
    Removed(EntryKind),
    Created(EntryKind),
    /// There is another kind of thing now.
    Replaced(EntryKind, EntryKind),
    /// Its length, its modified time or its number is another now.
    Rewritten,
    /// Nothing, or nothing that is told by itself.
    Same,
}

impl Change {
    /// Whether what stood at the path went.
    pub(crate) fn goes(self) -> bool
        ensures { result ≡ goes self }
    {
        matches!(self, Change::Removed(_) | Change::Replaced(_, _))
    }
}

/// A path, and what stands there before and after.
#[derive(Drop)]
pub(crate) struct Pair<'a, A: Allocator> {
    pub(crate) path: &'a PathBuf<A>,
    pub(crate) before: Option<Found>,
    pub(crate) after: Option<Found>,
}

impl<'a, A: Allocator> Model for Pair<'a, A> {
    ghost use Rattle.poll_listing.specs.Pairs.{PairValue};

    ghost Value = { PairValue };

    ghost view = { λ a. record { path = a.path.now; before = a.before; after = a.after } };
}

impl<'a, A: Allocator> Pair<'a, A> {
    pub(crate) fn path(&self) -> &'a PathBuf<A>
        ensures { result.now ≡ self.now.path }
    {
        self.path
    }

    /// What happened there, if `top` is the path that went last.
    pub(crate) fn change(&self, top: Option<&PathBuf<A>>) -> Change
        ensures { result ≡ change_of (option_copied top.entry) self.now }
    {
        let under = is_under(top, self.path);
        match (self.before, self.after) {
            (None, None) => Change::Same,
            (None, Some(after)) => Change::Created(after.kind),
            (Some(_), None) if under => Change::Same,
            (Some(before), None) => Change::Removed(before.kind),
            (Some(_), Some(after)) if under => Change::Created(after.kind),
            (Some(before), Some(after)) if !before.kind.is_same(after.kind) => {
                Change::Replaced(before.kind, after.kind)
            }
            (Some(before), Some(after)) if !before.is_same_state(after) => Change::Rewritten,
            (Some(_), Some(_)) => Change::Same,
        }
    }
}

/// Whether the path lies at or below the one that went last.
fn is_under<A: Allocator>(top: Option<&PathBuf<A>>, path: &PathBuf<A>) -> bool
    ensures { result ≡ is_under (option_copied top.entry) path.now }
{
    match top {
        None => false,
        Some(top) => path.starts_with(top),
    }
}

/// Two listings side by side: a walk over the paths of both, in their order, which looks at each
/// entry once.
#[derive(Drop)]
pub(crate) struct Pairs<'a, A: Allocator> {
    olds: Iter<'a, PathBuf<A>, Found>,
    news: Iter<'a, PathBuf<A>, Found>,
    before: Option<(&'a PathBuf<A>, &'a Found)>,
    after: Option<(&'a PathBuf<A>, &'a Found)>,
}

impl<'a, A: Allocator> Model for Pairs<'a, A> {
    ghost use Rattle.std.specs.Prelude.{List};
    ghost use Rattle.std.specs.Option.{option_map};
    ghost use Rattle.std.specs.Map.Iter.{deref_pair};
    ghost use Rattle.poll_listing.specs.Pairs.{PairValue, paired, with_head};

    ghost Value = { List PairValue };

    ghost view = { λ a. paired (with_head (option_map deref_pair a.before) a.olds)
        (with_head (option_map deref_pair a.after) a.news) };
}

impl<'a, A: Allocator> Pairs<'a, A> {
    pub(crate) fn new(
        old: &'a BTreeMap<PathBuf<A>, Found, A>,
        new: &'a BTreeMap<PathBuf<A>, Found, A>,
    ) -> Pairs<'a, A>
        ensures { result ≡ paired old.now.entries new.now.entries }
    {
        let mut olds = old.iter();
        let mut news = new.iter();
        let before = olds.next();
        let after = news.next();
        Pairs {
            olds,
            news,
            before,
            after,
        }
    }

    /// Returns the next pair.
    pub(crate) fn next(&mut self) -> Option<Pair<'a, A>>
        ensures { MatchOption result (self.old ≡ []) (λ pair. self.old ≡ pair ∷ self.new) }
    {
        match (self.before, self.after) {
            (None, None) => None,
            (Some(old), None) => {
                self.before = self.olds.next();
                Some(only_old(old.0, *old.1))
            },
            (None, Some(new)) => {
                self.after = self.news.next();
                Some(only_new(new.0, *new.1))
            },
            (Some(old), Some(new)) => match old.0.cmp(new.0) {
                Ordering::Less => {
                    self.before = self.olds.next();
                    Some(only_old(old.0, *old.1))
                },
                Ordering::Greater => {
                    self.after = self.news.next();
                    Some(only_new(new.0, *new.1))
                },
                Ordering::Equal => {
                    self.before = self.olds.next();
                    self.after = self.news.next();
                    Some(in_both(old.0, *old.1, *new.1))
                }
            },
        }
    }
}

/// The pair of a path that only the old listing has.
fn only_old<'a, A: Allocator>(path: &'a PathBuf<A>, before: Found) -> Pair<'a, A>
    ensures { result ≡ record { path = path.now; before = Some before; after = None } }
{
    Pair {
        path,
        before: Some(before),
        after: None,
    }
}

/// The pair of a path that only the new listing has.
fn only_new<'a, A: Allocator>(path: &'a PathBuf<A>, after: Found) -> Pair<'a, A>
    ensures { result ≡ record { path = path.now; before = None; after = Some after } }
{
    Pair {
        path,
        before: None,
        after: Some(after),
    }
}

/// The pair of a path that both listings have.
fn in_both<'a, A: Allocator>(path: &'a PathBuf<A>, before: Found, after: Found) -> Pair<'a, A>
    ensures { result ≡ record { path = path.now; before = Some before; after = Some after } }
{
    Pair {
        path,
        before: Some(before),
        after: Some(after),
    }
}

/// A listing from a path on, and its updates, side by side: a walk over the paths of both, in their order,
/// which looks at each entry and each update once.
#[derive(Drop)]
pub(crate) struct UpdatedPairs<'a, A: Allocator> {
    olds: Range<'a, PathBuf<A>, Found>,
    updates: Iter<'a, PathBuf<A>, Update>,
    before: Option<(&'a PathBuf<A>, &'a Found)>,
    update: Option<(&'a PathBuf<A>, &'a Update)>,
}

impl<'a, A: Allocator> Model for UpdatedPairs<'a, A> {
    ghost use Rattle.std.specs.Prelude.{List};
    ghost use Rattle.std.specs.Option.{option_map};
    ghost use Rattle.std.specs.Map.Iter.{deref_pair};
    ghost use Rattle.poll_listing.specs.Pairs.{PairValue, updated_pairs, with_head};

    ghost Value = { List PairValue };

    ghost view = { λ a. updated_pairs (with_head (option_map deref_pair a.before) a.olds)
        (with_head (option_map deref_pair a.update) a.updates) };
}

impl<'a, A: Allocator> UpdatedPairs<'a, A> {
    pub(crate) fn new(
        old: &'a BTreeMap<PathBuf<A>, Found, A>,
        first: &PathBuf<A>,
        updates: &'a Updates<A>,
    ) -> UpdatedPairs<'a, A>
        ensures { result ≡ updated_pairs
            (entries_between path_cmp (Included first.now) Unbounded old.now.entries)
            updates.now.entries }
    {
        let mut olds = old.range((Bound::Included(first), Bound::Unbounded));
        let mut updates = updates.iter();
        let before = olds.next();
        let update = updates.next();
        UpdatedPairs {
            olds,
            updates,
            before,
            update,
        }
    }

    /// Begins with the first path of all.
    pub(crate) fn all(
        alloc: A,
        old: &'a BTreeMap<PathBuf<A>, Found, A>,
        updates: &'a Updates<A>,
    ) -> UpdatedPairs<'a, A>
        ensures { result ≡ updated_pairs old.now.entries updates.now.entries }
    {
        UpdatedPairs::new(old, &PathBuf::empty(alloc), updates)
    }

    /// Returns the next pair, if something is left to be told, where `top` is the path that went last.
    pub(crate) fn next_told(&mut self, top: Option<&PathBuf<A>>) -> Option<Pair<'a, A>>
        ensures { MatchOption result (walk (option_copied top.entry) self.old ≡ no_parts)
            (λ pair. self.old ≡ pair ∷ self.new) }
    {
        match (top, self.update) {
            // Behind the last update all stays as it is, but for what lies below a path that went.
            (None, None) => None,
            _ => self.next(),
        }
    }

    /// Returns the next pair.
    pub(crate) fn next(&mut self) -> Option<Pair<'a, A>>
        ensures { MatchOption result (self.old ≡ []) (λ pair. self.old ≡ pair ∷ self.new) }
    {
        match (self.before, self.update) {
            (None, None) => None,
            (Some(old), None) => {
                self.before = self.olds.next();
                Some(in_both(old.0, *old.1, *old.1))
            },
            (None, Some(update)) => {
                self.update = self.updates.next();
                Some(updated(update.0, None, *update.1))
            },
            (Some(old), Some(update)) => match old.0.cmp(update.0) {
                Ordering::Less => {
                    self.before = self.olds.next();
                    Some(in_both(old.0, *old.1, *old.1))
                },
                Ordering::Greater => {
                    self.update = self.updates.next();
                    Some(updated(update.0, None, *update.1))
                },
                Ordering::Equal => {
                    self.before = self.olds.next();
                    self.update = self.updates.next();
                    Some(updated(old.0, Some(*old.1), *update.1))
                }
            },
        }
    }
}

/// The pair of what stood at the path, and what the update leaves.
fn updated<'a, A: Allocator>(
    path: &'a PathBuf<A>,
    before: Option<Found>,
    update: Update,
) -> Pair<'a, A>
    ensures { result ≡ record { path = path.now; before = before; after = found_after update } }
{
    Pair {
        path,
        before,
        after: update.found(),
    }
}
