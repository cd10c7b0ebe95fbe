//! What a walk finds, beside the last listing.
ghost use Rattle.std.specs.Prelude.{◌≡◌, ◌==◌, [], true, false, length, drop, IfErr, IfOk, MatchOption, OnErr, OnOk};
ghost use Rattle.std.specs.BTreeMap.{insert_entry};
ghost use Rattle.std.specs.Map.{keys_of};
ghost use Rattle.notify_paths.specs.Errors.{out_of_memory};
ghost use Rattle.notify_paths.specs.Path.{path_cmp};
ghost use Rattle.debounce_model.specs.Honest.{has_folders};
ghost use Rattle.poll_listing.specs.Listing.{IsListing, entry_at, has_entry, is_nonempty};
ghost use Rattle.poll_listing.specs.Near.{outside};
ghost use Rattle.poll_listing.specs.Updates.{IsUpdate, updated};
ghost use Rattle.poll_rounds.specs.Beside.{IsBeside, begins_before, put_in};

use crate::entries::Entries;
use crate::later::{Later, next_within};
use notify_paths::{Error, PathBuf};
use poll_listing::{Found, Listing, Update, Updates};
use std::alloc::Allocator;
use std::collections::BTreeMap;
use std::marker::Model;

/// A listing that is made beside the last one. Only what differs is copied.
#[derive(Drop)]
pub(crate) struct Beside<'a, A: Allocator> {
    last: &'a Listing<A>,
    /// What lies at this path or below it is looked at anew,
    top: PathBuf<A>,
    /// and this is the first such entry of the last listing that wasn't passed yet, among the later ones.
    next: Option<(&'a PathBuf<A>, &'a Found)>,
    later: Later<'a, A>,
    /// What differs elsewhere.
    updates: Updates<A>,
}

impl<'a, A: Allocator> Model for Beside<'a, A> {
    ghost use Rattle.std.specs.Option.{option_map};
    ghost use Rattle.std.specs.Map.Iter.{deref_pair};
    ghost use Rattle.poll_listing.specs.Pairs.{with_head};
    ghost use Rattle.poll_rounds.specs.Beside.{BesideValue, IsBeside, within};

    ghost Value = { BesideValue };

    ghost view = { λ a. record {
      last = a.last.now;
      left = with_head (option_map deref_pair a.next) (within a.later a.top);
      updates = a.updates.entries;
    } };

    ghost invariant = { λ a. IsBeside (record {
      last = a.last.now;
      left = with_head (option_map deref_pair a.next) (within a.later a.top);
      updates = a.updates.entries;
    }) };
}

impl<'a, A: Allocator + Copy> Beside<'a, A> {
    /// Returns the last listing.
    pub(crate) fn new(alloc: A, last: &'a Listing<A>) -> Beside<'a, A>
        ensures ok { put_in result ≡ last.now }
        ensures left { result.left ≡ [] }
        ensures beside { result.last ≡ last.now }
    {
        let top = PathBuf::empty(alloc);
        Beside {
            last,
            later: Later::begin(last, &top),
            top,
            next: None,
            updates: BTreeMap::new(alloc),
        }
    }

    /// Takes out what lies at the path or below it.
    pub(crate) fn drop_at(&mut self, alloc: A, path: &PathBuf<A>) -> Result<(), Error<A>>
        ensures ok { OnOk result (put_in self.new ≡ outside (put_in self.old) path.now) }
        ensures beside { self.new.last ≡ self.old.last }
        ensures err { IfErr result (λ e. e ≡ out_of_memory) }
    {
        self.drop_rest(alloc)?;
        let top = path.try_clone()?;
        self.begin_at(path, top);
        Ok(())
    }

    /// Begins to look anew at what lies at the path or below it.
    fn begin_at(&mut self, path: &PathBuf<A>, top: PathBuf<A>)
        requires left { self.old.left ≡ [] }
        requires top { top ≡ path.now }
        ensures ok { put_in self.new ≡ outside (put_in self.old) path.now }
        ensures beside { self.new.last ≡ self.old.last }
    {
        self.updates
            .retain(|other, _update| !other.starts_with(path));
        self.later = Later::begin(self.last, path);
        self.next = next_within(&mut self.later, path);
        self.top = top;
    }

    /// Returns what stands at the path, if anything does.
    pub(crate) fn found_at(&self, path: &PathBuf<A>) -> Option<Found>
        requires { self.now.left ≡ [] }
        ensures { result ≡ entry_at (put_in self.now) path.now }
    {
        match self.updates.get(path) {
            Some(update) => update.found(),
            None => self.last.get(path),
        }
    }

    /// Whether all entries were passed.
    fn is_at_end(&self) -> bool
        ensures ok { result ≡ (length self.now.left == 0) }
        ensures law { IsListing (put_in self.now) }
    {
        self.next.is_none()
    }

    /// Whether the next entry stands at the path, as it does in a round in which nothing changed. That is found out
    /// sooner than which of the two stands first.
    fn is_next(&self, path: &PathBuf<A>) -> bool
        ensures { result ≡ true → begins_before self.now.left path.now ≡ false }
    {
        match self.next {
            None => false,
            Some((next, _found)) => *next == *path,
        }
    }

    /// Whether the next entry stands before the path.
    fn is_before(&self, path: &PathBuf<A>) -> bool
        ensures { result ≡ begins_before self.now.left path.now }
    {
        match self.next {
            None => false,
            Some((next, _found)) => next.cmp(path).is_lt(),
        }
    }

    /// Passes the next entry, for which nothing was found.
    fn drop_next(&mut self, alloc: A) -> Result<(), Error<A>>
        ensures same { put_in self.new ≡ put_in self.old }
        ensures left { OnOk result (self.new.left ≡ drop 1 self.old.left) }
        ensures beside { self.new.last ≡ self.old.last }
        ensures err { IfErr result (λ e. e ≡ out_of_memory) }
    {
        let Some((path, _found)) = self.next else {
            return Ok(());
        };
        tell(alloc, &mut self.updates, path, Update::Gone)?;
        self.next = next_within(&mut self.later, &self.top);
        Ok(())
    }

    /// Passes the entries that stand before the path.
    fn drop_before(&mut self, alloc: A, path: &PathBuf<A>) -> Result<(), Error<A>>
        ensures same { put_in self.new ≡ put_in self.old }
        ensures ok { OnOk result (begins_before self.new.left path.now ≡ false) }
        ensures beside { self.new.last ≡ self.old.last }
        ensures err { IfErr result (λ e. e ≡ out_of_memory) }
    {
        if self.is_next(path) {
            return Ok(());
        }
        while self.is_before(path) {
            self.drop_next(alloc)?;
        }
        Ok(())
    }

    /// Passes all entries that are left.
    pub(crate) fn drop_rest(&mut self, alloc: A) -> Result<(), Error<A>>
        ensures same { put_in self.new ≡ put_in self.old }
        ensures ok { OnOk result (self.new.left ≡ []) }
        ensures law { IsListing (put_in self.new) }
        ensures beside { self.new.last ≡ self.old.last }
        ensures err { IfErr result (λ e. e ≡ out_of_memory) }
    {
        while !self.is_at_end() {
            self.drop_next(alloc)?;
        }
        Ok(())
    }

    /// Passes the next entry, if it stands at the path, and returns what it has.
    fn meet(&mut self, path: &PathBuf<A>) -> Option<Found>
        requires before { begins_before self.old.left path.now ≡ false }
        requires path { is_nonempty path.now ≡ true }
        requires folders { has_folders (keys_of (put_in self.old)) path.now ≡ true }
        ensures ok { MatchOption result (put_in self.new ≡ put_in self.old) (λ found.
            put_in self.new ≡ insert_entry path_cmp (put_in self.old) path.now found) }
        ensures here { has_entry self.new.left path.now ≡ false }
        ensures beside { self.new.last ≡ self.old.last }
    {
        let Some((next, found)) = self.next else {
            return None;
        };
        if *next == *path {
            self.next = next_within(&mut self.later, &self.top);
            return Some(*found);
        }
        None
    }

    /// Puts in what was found at the path, which isn't left.
    fn change(&mut self, alloc: A, path: &PathBuf<A>, found: Found) -> Result<(), Error<A>>
        requires here { has_entry self.old.left path.now ≡ false }
        requires path { is_nonempty path.now ≡ true }
        requires folders { has_folders (keys_of (put_in self.old)) path.now ≡ true }
        ensures ok { OnOk result (put_in self.new
            ≡ insert_entry path_cmp (put_in self.old) path.now found) }
        ensures unchanged { OnErr result (put_in self.new ≡ put_in self.old) }
        ensures beside { self.new.last ≡ self.old.last }
        ensures err { IfErr result (λ e. e ≡ out_of_memory) }
    {
        match self.last.get(path) {
            None => tell(alloc, &mut self.updates, path, Update::Added(found)),
            Some(before) if is_equal(before, found) => {
                self.updates.remove(path);
                Ok(())
            }
            Some(_) => tell(alloc, &mut self.updates, path, Update::Changed(found)),
        }
    }

    /// Returns what becomes of the last listing.
    pub(crate) fn into_updates(mut self, alloc: A) -> Result<Updates<A>, Error<A>>
        ensures ok { IfOk result (λ updates. updated self.entry.last updates.entries
            ≡ put_in self.entry) }
        ensures update { IfOk result (λ updates. IsUpdate self.entry.last updates.entries) }
        ensures err { IfErr result (λ e. e ≡ out_of_memory) }
    {
        self.drop_rest(alloc)?;
        Ok(self.updates)
    }
}

impl<'a, A: Allocator + Copy> Entries<A> for Beside<'a, A> {
    ghost entries = { put_in };

    ghost last = { λ beside. beside.last };

    fn arrange(&self, names: &mut Vec<String<A>, A>) {
        names.sort_unstable();
    }

    fn put(&mut self, alloc: A, path: &PathBuf<A>, found: Found) -> Result<(), Error<A>> {
        self.drop_before(alloc, path)?;
        match self.meet(path) {
            Some(before) if is_equal(before, found) => Ok(()),
            _ => self.change(alloc, path, found),
        }
    }
}

/// Notes what becomes of the path.
fn tell<A: Allocator + Copy>(
    alloc: A,
    updates: &mut Updates<A>,
    path: &PathBuf<A>,
    update: Update,
) -> Result<(), Error<A>>
    ensures ok { OnOk result (updates.new.entries
        ≡ insert_entry path_cmp updates.old.entries path.now update) }
    ensures unchanged { OnErr result (updates.new.entries ≡ updates.old.entries) }
    ensures err { IfErr result (λ e. e ≡ out_of_memory) }
{
    let path = path.try_clone()?;
    let Ok(_) = updates.insert(path, update) else {
        return Err(Error::out_of_memory(alloc));
    };
    Ok(())
}

/// Whether the two are equal.
fn is_equal(before: Found, after: Found) -> bool
    ensures { result ≡ true → before ≡ after }
{
    before.kind.is_same(after.kind) && before.is_same_state(after)
}
