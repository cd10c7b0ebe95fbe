//! Folders that note where a call failed.
ghost use Rattle.std.specs.Prelude.{◌≡◌, ◌≤◌, None, Some, Option, map, IfOk, IfErr, IfSome};
ghost use Rattle.std.specs.Option.{option_copied, option_map};
ghost use Rattle.std.specs.String.{string_bytes};
ghost use Rattle.poll_listing.specs.Listing.{entry_at};
ghost use Rattle.poll_rounds.specs.Folders.{IsRefusal, NamesOf};
ghost use Rattle.poll_watcher.specs.Folders.Noted.{IsNoted, Notes};

use crate::folders::real::RealFolders;
use notify_paths::{Error, PathBuf};
use poll_listing::Found;
use poll_rounds::{Closed, Folders, NotesClosed};
use std::alloc::{Allocator, Global};

/// Other folders, and the path of their last call that failed. They tell what the others tell.
#[derive(Drop)]
pub struct NotingFolders<D: Drop, A: Allocator = Global> {
    inner: D,
    failed_path: Option<PathBuf<A>>,
}

impl<D: Drop, A: Allocator + Copy> NotingFolders<D, A> {
    /// Returns the folders with no path noted.
    pub fn new(inner: D) -> NotingFolders<D, A>
        ensures inner { result.inner ≡ inner }
        ensures none { result.failed_path ≡ None }
    {
        NotingFolders {
            inner,
            failed_path: None,
        }
    }

    /// Returns the folders that these stand around.
    pub fn inner(&self) -> &D
        ensures { result.now ≡ self.now.inner }
    {
        &self.inner
    }

    /// Returns the path of the last call that failed, and forgets it. It is `None` if none failed since
    /// the path was taken, or if memory for a copy of the path was refused.
    pub fn take_failed_path(&mut self) -> Option<PathBuf<A>>
        ensures taken { result ≡ self.old.failed_path }
        ensures left { self.new ≡ record self.old { failed_path = None } }
    {
        self.failed_path.take()
    }

    /// Notes the path, as far as there is memory.
    fn note(&mut self, path: &PathBuf<A>)
        ensures inner { self.new.inner ≡ self.old.inner }
        ensures noted { IsNoted path.now self.new.failed_path }
    {
        self.failed_path = path.try_clone().ok();
    }
}

impl<R: Drop, A: Allocator + Copy> NotingFolders<RealFolders<R, A>, A> {
    /// Follows links at these paths and no other, as [`RealFolders::follow`].
    pub fn follow(&mut self, paths: &mut Vec<PathBuf<A>, A>)
        ensures taken { paths.new ≡ self.old.inner.followed }
        ensures left { self.new.inner ≡ record self.old.inner { followed = paths.old } }
        ensures noted { self.new.failed_path ≡ self.old.failed_path }
    {
        self.inner.follow(paths);
    }

    /// Gives what is noted of closed paths in exchange for these, as [`RealFolders::exchange_closed`].
    pub fn exchange_closed(&mut self, closed: &mut Vec<Closed<A>, A>)
        ensures taken { closed.new ≡ self.old.inner.closed }
        ensures left { self.new.inner ≡ record self.old.inner { closed = closed.old } }
        ensures noted { self.new.failed_path ≡ self.old.failed_path }
    {
        self.inner.exchange_closed(closed);
    }
}

impl<D: Folders<A> + Drop, A: Allocator + Copy> Folders<A> for NotingFolders<D, A> {
    ghost told = { λ s. D.told s.inner };

    ghost failed = { λ s. D.failed s.inner };

    fn look(&mut self, path: &PathBuf<A>) -> Result<Option<Found>, Error<A>>
        ensures found { IfSome (D.told self.old.inner) (λ tree. IfOk result (λ r. r
            ≡ entry_at tree path.now)) }
        ensures same { D.told self.new.inner ≡ D.told self.old.inner }
        ensures counted { D.failed self.old.inner ≤ D.failed self.new.inner }
        ensures err { IfErr result (λ e.
            IsRefusal e (D.failed self.old.inner) (D.failed self.new.inner)) }
        ensures noted { Notes path.now result self.old.failed_path self.new.failed_path }
    {
        let found = self.inner.look(path);
        if found.is_err() {
            self.note(path);
        }
        found
    }

    fn names(&mut self, path: &PathBuf<A>) -> Result<Option<Vec<String<A>, A>>, Error<A>>
        ensures found { IfSome (D.told self.old.inner) (λ tree.
            IfOk result (λ r.
            NamesOf tree path.now (option_map (λ v. map string_bytes v.items) r))) }
        ensures same { D.told self.new.inner ≡ D.told self.old.inner }
        ensures counted { D.failed self.old.inner ≤ D.failed self.new.inner }
        ensures err { IfErr result (λ e.
            IsRefusal e (D.failed self.old.inner) (D.failed self.new.inner)) }
        ensures noted { Notes path.now result self.old.failed_path self.new.failed_path }
    {
        let names = self.inner.names(path);
        if names.is_err() {
            self.note(path);
        }
        names
    }

    fn failures(&self) -> u64 {
        self.inner.failures()
    }
}

impl<D: NotesClosed<A> + Drop, A: Allocator + Copy> NotesClosed<A> for NotingFolders<D, A> {
    ghost closed = { λ s. D.closed s.inner };

    fn closed(&self) -> &[Closed<A>] {
        self.inner.closed()
    }

    fn forget_closed(&mut self) {
        self.inner.forget_closed();
    }
}
