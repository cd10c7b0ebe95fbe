//! What a failed call says of its path.
ghost use Rattle.std.specs.Prelude.{◌≡◌, OnErr, OnOk};
ghost use Rattle.std.specs.List.{list_any};
ghost use Rattle.notify_paths.specs.Path.{path_eq};
ghost use Rattle.poll_watcher.specs.Folders.Closed.{failure_of, with_closed};

use notify_paths::PathBuf;
use poll_rounds::Closed;
use std::alloc::{AllocError, Allocator};
use std::io;

/// What a failed call says of its path.
#[derive(Clone, Copy, Debug, PartialEq, Eq)]
pub(crate) enum Failure {
    /// Nothing stands there, or what does counts as missing.
    Missing,
    /// It can't be looked at, which is noted.
    Closed,
    /// Nothing: the round is refused.
    Refused,
}

/// Returns what a call says that failed for this cause, if closed paths are noted, and if they aren't.
pub(crate) fn failure_of(cause: io::ErrorKind, noted: bool) -> Failure
    ensures { result ≡ failure_of cause noted }
{
    match cause {
        io::ErrorKind::NotFound | io::ErrorKind::NotADirectory => Failure::Missing,
        io::ErrorKind::OutOfMemory => Failure::Refused,
        _ if noted => Failure::Closed,
        io::ErrorKind::PermissionDenied => Failure::Missing,
        _ => Failure::Refused,
    }
}

/// Notes that the path is closed for this cause, unless it is noted.
pub(crate) fn note<A: Allocator>(
    closed: &mut Vec<Closed<A>, A>,
    path: PathBuf<A>,
    cause: io::ErrorKind,
) -> Result<(), AllocError>
    ensures ok { OnOk result (closed.new.items ≡ with_closed closed.old.items (path, cause)) }
    ensures unchanged { OnErr result (closed.new.items ≡ closed.old.items) }
{
    if is_noted(closed.as_slice(), &path) {
        return Ok(());
    }
    closed.push((path, cause))?;
    Ok(())
}

/// Whether the path is noted.
fn is_noted<A: Allocator>(closed: &[Closed<A>], path: &PathBuf<A>) -> bool
    ensures { result ≡ list_any (λ other. path_eq other.0 path.now) closed.now }
{
    for (other, _cause) in closed {
        if *other == *path {
            return true;
        }
    }
    false
}
