//! Hints: paths at which a polling watcher is asked to look soon, from any thread.
ghost use Rattle.std.specs.Prelude.{◌≡◌, IfErr};
ghost use Rattle.notify_paths.specs.Errors.{out_of_memory};

use crate::bell::Bell;
use notify_paths::{Error, PathBuf};
use std::alloc::{Allocator, Global};
use std::sync::{Arc, Wait};

/// Asks a polling watcher to look at paths soon, from any thread. It doesn't keep the watcher alive: after the
/// watcher is dropped its calls answer false, and nobody looks.
#[derive(Drop)]
pub struct Hints<R: Wait + Drop, A: Allocator = Global> {
    rt: R,
    bell: Arc<Bell<A>, A>,
}

impl<R: Wait + Copy + Drop, A: Allocator + Copy> Hints<R, A> {
    pub(crate) fn new(rt: R, alloc: A, bell: &Arc<Bell<A>, A>) -> Result<Hints<R, A>, Error<A>>
        ensures { IfErr result (λ e. e ≡ out_of_memory) }
    {
        match Arc::try_clone(bell) {
            Ok(bell) => Ok(Hints { rt, bell }),
            Err(_) => Err(Error::out_of_memory(alloc)),
        }
    }

    /// Asks for a look at the path and below it. If too many wait, or there is no memory for one more, a whole
    /// round is made in their place. Answers whether the watcher still is.
    pub fn look_at(&self, path: PathBuf<A>) -> bool {
        self.bell.ask_for(&self.rt, path)
    }

    /// Asks for a whole round. Answers whether the watcher still is.
    pub fn look_at_all(&self) -> bool {
        self.bell.ask_for_all(&self.rt)
    }
}
