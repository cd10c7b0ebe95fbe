//! Rounds of polling that look at some paths alone.
ghost use Rattle.std.specs.Prelude.{◌≡◌, ◌≤◌, [], true, false, IfErr, IfOk, OnErr, OnOk};
ghost use Rattle.poll_rounds.specs.Folders.{IsRefusal};
ghost use Rattle.poll_listing.specs.Changes.{changes};
ghost use Rattle.poll_listing.specs.Updates.{IsUpdate, updated};
ghost use Rattle.poll_rounds.specs.Beside.{put_in};
ghost use Rattle.poll_rounds.specs.Parts.{Looks, LooksEach};
ghost use Rattle.poll_rounds.specs.Rounds.{HandsEach, HandsRefusal};

use crate::beside::Beside;
use crate::folders::Folders;
use crate::part::{list_anew, top_of};
use crate::round::pass_on;
use notify_paths::{Error, PathBuf};
use notify_types::{Event, RecursiveMode};
use notify_watch::EventHandler;
use poll_listing::{Listing, Updates};
use std::alloc::Allocator;

/// Lists the path anew, or else the first path above it that the listing doesn't have as a folder.
fn look_in<A: Allocator + Copy, D: Folders<A>>(
    alloc: A,
    folders: &mut D,
    roots: &[(PathBuf<A>, RecursiveMode)],
    listing: &mut Beside<'_, A>,
    path: &PathBuf<A>,
) -> Result<(), Error<A>>
    requires { listing.old.left ≡ [] }
    ensures shown { OnOk result (Looks (D.told folders.old) roots.now path.now (put_in listing.old)
        (put_in listing.new)) }
    ensures left { OnOk result (listing.new.left ≡ []) }
    ensures beside { listing.new.last ≡ listing.old.last }
    ensures err { IfErr result (λ e. IsRefusal e (D.failed folders.old) (D.failed folders.new)) }
    ensures same { D.told folders.new ≡ D.told folders.old }
    ensures counted { D.failed folders.old ≤ D.failed folders.new }
{
    let top = top_of(alloc, listing, path)?;
    list_anew(alloc, folders, roots, listing, &top)
}

/// Lists each of the paths anew, one after the other.
fn look_in_each<A: Allocator + Copy, D: Folders<A>>(
    alloc: A,
    folders: &mut D,
    roots: &[(PathBuf<A>, RecursiveMode)],
    listing: &mut Beside<'_, A>,
    paths: &[PathBuf<A>],
) -> Result<(), Error<A>>
    requires { listing.old.left ≡ [] }
    ensures shown { OnOk result (LooksEach (D.told folders.old) roots.now paths.now
        (put_in listing.old) (put_in listing.new)) }
    ensures beside { listing.new.last ≡ listing.old.last }
    ensures err { IfErr result (λ e. IsRefusal e (D.failed folders.old) (D.failed folders.new)) }
    ensures same { D.told folders.new ≡ D.told folders.old }
    ensures counted { D.failed folders.old ≤ D.failed folders.new }
{
    for path in paths {
        look_in(alloc, folders, roots, listing, path)?;
    }
    Ok(())
}

/// What becomes of the last listing by what stands at the paths and below them now.
pub(crate) fn list_near<A: Allocator + Copy, D: Folders<A>>(
    alloc: A,
    folders: &mut D,
    roots: &[(PathBuf<A>, RecursiveMode)],
    last: &Listing<A>,
    paths: &[PathBuf<A>],
) -> Result<Updates<A>, Error<A>>
    ensures shown { IfOk result (λ updates. LooksEach (D.told folders.old) roots.now paths.now
        last.now (updated last.now updates.entries)) }
    ensures update { IfOk result (λ updates. IsUpdate last.now updates.entries) }
    ensures err { IfErr result (λ e. IsRefusal e (D.failed folders.old) (D.failed folders.new)) }
    ensures same { D.told folders.new ≡ D.told folders.old }
    ensures counted { D.failed folders.old ≤ D.failed folders.new }
{
    let mut beside = Beside::new(alloc, last);
    look_in_each(alloc, folders, roots, &mut beside, paths)?;
    beside.into_updates(alloc)
}

/// Lists anew what the roots show at each of the paths and below it; or at and below the first path above it
/// that the last listing doesn't have as a folder, so that a folder is reported before what lies in it. If a
/// root lies strictly below that, all roots are listed. Reports what changed since the last listing, and keeps
/// the new one. An error is reported as by [`poll_round`](crate::round::poll_round), and leaves the last
/// listing. Returns whether there was none.
pub fn look_round<A: Allocator + Copy, D: Folders<A>, H: EventHandler<Result<Event<A>, Error<A>>>>(
    alloc: A,
    folders: &mut D,
    roots: &[(PathBuf<A>, RecursiveMode)],
    last: &mut Listing<A>,
    paths: &[PathBuf<A>],
    handler: &mut H,
) -> bool
    requires { H.ready handler.old }
    ensures again { H.ready handler.new }
    ensures given { result ≡ true →
        HandsEach H.handles (changes last.old last.new) handler.old handler.new }
    ensures shown { result ≡ true →
        LooksEach (D.told folders.old) roots.now paths.now last.old last.new }
    ensures unchanged { result ≡ false → last.new ≡ last.old }
    ensures refused { result ≡ false →
        HandsRefusal H.handles (D.failed folders.old) (D.failed folders.new) handler.old
        handler.new }
    ensures same { D.told folders.new ≡ D.told folders.old }
    ensures counted { D.failed folders.old ≤ D.failed folders.new }
{
    let found = list_near(alloc, folders, roots, last, paths);
    let closed = Vec::new(alloc);
    pass_on(alloc, closed.as_slice(), found, &mut None, last, handler)
}
