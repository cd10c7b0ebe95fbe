//! What a watcher says of closed paths.
ghost use Rattle.std.specs.Prelude.{◌≡◌, ◌⊎◌, ◌++◌, ◌∷◌, []};
ghost use Rattle.notify_paths.specs.Errors.{IoKind, out_of_memory};
ghost use Rattle.poll_watcher.specs.Roots.Said.{SaysEach, SaysOnce, is_said, unsaid};

use notify_paths::{Error, ErrorKind, PathBuf};
use notify_types::Event;
use notify_watch::EventHandler;
use poll_rounds::Closed;
use std::alloc::Allocator;
use std::io;

/// Hands on an error for each path that is closed, unless it was said before and for the same cause.
pub(crate) fn say_each<A: Allocator + Copy, H: EventHandler<Result<Event<A>, Error<A>>>>(
    alloc: A,
    said: &[Closed<A>],
    closed: &[Closed<A>],
    handler: &mut H,
)
    requires { H.ready handler.old }
    ensures again { H.ready handler.new }
    ensures said { SaysEach H.handles (unsaid said.now closed.now) handler.old handler.new }
{
    for one in closed {
        say(alloc, said, one, handler);
    }
}

/// Hands on an error for a path that is closed, unless it was said before and for the same cause.
fn say<A: Allocator + Copy, H: EventHandler<Result<Event<A>, Error<A>>>>(
    alloc: A,
    said: &[Closed<A>],
    one: &Closed<A>,
    handler: &mut H,
)
    requires { H.ready handler.old }
    ensures again { H.ready handler.new }
    ensures said { SaysOnce H.handles (is_said said.now one.now) one.now handler.old handler.new }
{
    let (path, cause) = one;
    if is_said(said, path, *cause) {
        return;
    }
    handler.handle_event(Err(closed_error(alloc, path, *cause)));
}

/// Whether it was said.
fn is_said<A: Allocator>(said: &[Closed<A>], path: &PathBuf<A>, cause: io::ErrorKind) -> bool
    ensures { result ≡ is_said said.now (path.now, cause) }
{
    for (other, before) in said {
        if *other == *path && *before == cause {
            return true;
        }
    }
    false
}

/// The error that says it, or that there is no memory for it.
fn closed_error<A: Allocator + Copy>(alloc: A, path: &PathBuf<A>, cause: io::ErrorKind) -> Error<A>
    ensures { (result ≡ record { kind = IoKind cause; paths = path.now ∷ [] })
        ⊎ (result ≡ out_of_memory) }
{
    match path.try_clone() {
        Ok(path) => with_path(Error::new(alloc, ErrorKind::Io(cause)), path),
        Err(refused) => refused,
    }
}

/// The error with the path, or the one that there is no memory for it.
fn with_path<A: Allocator + Copy>(error: Error<A>, path: PathBuf<A>) -> Error<A>
    ensures { (result ≡ record error { paths = error.paths ++ path ∷ [] })
        ⊎ (result ≡ out_of_memory) }
{
    match error.add_path(path) {
        Ok(error) | Err(error) => error,
    }
}
