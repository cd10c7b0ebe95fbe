//! Whether a batch may be about a file.
ghost use Rattle.std.specs.Prelude.{◌≡◌, ◌↔◌, IsTrue};
ghost use Rattle.std.specs.List.{list_any};
ghost use Rattle.notify_paths.specs.Path.{is_prefix};
ghost use Rattle.program_logic.specs.Config.Readings.{ReadingsFollowChanges};
ghost use Rattle.program_logic.specs.Config.Reloads.{RunsReadEachChange, RunsReadEachChangeByEnd};
ghost use Rattle.program_logic.specs.Config.Touched.{touches, Touches, HasChange};

use crate::config::files::ReadsText;
use debounce_cache::FileIdCache;
use notify_paths::PathBuf;
use notify_types::DebouncedEvent;
use std::alloc::Allocator;

/// Whether some event of the batch may be about the file: it names the file or a folder above it, as its
/// one path or as one of the two of a rename, or it asks to read anew.
///
/// So a batch in which a change of the file is found, as the debouncer keeps it, is about the file. What
/// that means for a whole run is [`law_of_reloads`](crate::config::law_of_reloads).
pub fn is_touched(batch: &[DebouncedEvent], file: &PathBuf) -> bool
    ensures value { result ≡ list_any (touches file.now) batch.now }
    ensures exact { IsTrue result ↔ Touches file.now batch.now }
    ensures change { HasChange file.now batch.now → IsTrue result }
{
    some_touches(batch, file)
}

fn some_touches(batch: &[DebouncedEvent], file: &PathBuf) -> bool
    ensures { result ≡ list_any (touches file.now) batch.now }
{
    batch.iter().any(|event| may_touch(event, file))
}

/// Whether the event may be about the file.
fn may_touch(event: &DebouncedEvent, file: &PathBuf) -> bool
    ensures { result ≡ touches file.now event.now }
{
    event.need_rescan() || names(event.event.paths.as_slice(), file)
}

/// Whether one of the paths is the file or a folder above it.
fn names(paths: &[PathBuf], file: &PathBuf) -> bool
    ensures { result ≡ list_any (λ path. is_prefix path file.now) paths.now }
{
    paths.iter().any(|path| file.starts_with(path))
}

/// Does nothing. By its contract each change of a file that a debouncer accepts is followed by a batch
/// for which [`is_touched`] answers `true`, or its event still waits for its batch,
/// or a later removal took the file or a folder above it away.
///
/// The run begins where nothing waits, and has no accepted rename; a watcher that polls reports none. A
/// change is a creation of the file or a plain change of it, told by an event whose first path it is.
pub fn law_of_reloads<C: FileIdCache<A>, A: Allocator>()
    ensures { RunsReadEachChange C.rules }
{}

/// Does nothing. By its contract each change of a file that a debouncer accepts, in a run as of
/// [`law_of_reloads`], is followed by a batch for which [`is_touched`] answers `true`, if the outlook is
/// taken as the last batch; or a later removal took the file or a folder above it away.
///
/// So a program that takes the outlook as it ends leaves no pending change unread.
pub fn law_of_reloads_by_end<C: FileIdCache<A>, A: Allocator>()
    ensures { RunsReadEachChangeByEnd C.rules }
{}

/// Does nothing. By its contract each change of a file that a debouncer accepts, in a run as of [`law_of_reloads`], is
/// followed by a reading of a program that takes each batch and then the outlook, and reads the file as a [`Follower`]
/// does: at first, and after each batch that may be about the file. Or a later removal took the file or a folder above it
/// away.
///
/// [`Follower`]: crate::config::Follower
pub fn law_of_readings<C: FileIdCache<A>, A: Allocator, F: ReadsText>()
    ensures { ReadingsFollowChanges C.rules F.gives }
{
    law_of_reloads_by_end::<C, A>();
}
