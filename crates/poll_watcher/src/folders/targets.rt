//! Which files stand where links are followed.
ghost use Rattle.std.specs.Prelude.{◌≡◌, None};

use crate::entries::times::now_of;
use notify_paths::PathBuf;
use std::alloc::{AllocError, Allocator};
use std::collections::BTreeMap;
use std::fs::Metadata;
use std::os::unix::fs::MetadataExt;
use std::time::Clock;

/// What stood at a path at the last look, by its numbers, and since when, if something else stood there before.
#[derive(Clone, Copy, Debug)]
struct Target {
    device: u64,
    number: u64,
    /// In nanoseconds since 1970.
    since: Option<u64>,
}

/// What stood at some paths at the last look.
#[derive(Drop)]
pub(crate) struct Targets<A: Allocator> {
    seen: BTreeMap<PathBuf<A>, Target, A>,
}

impl<A: Allocator + Copy> Targets<A> {
    pub(crate) fn new(alloc: A) -> Targets<A> {
        Targets {
            seen: BTreeMap::new(alloc),
        }
    }

    /// Takes what stands at the path now. Returns since when, if something else stood there before: the moment of the
    /// look that found it.
    pub(crate) fn take(
        &mut self,
        clock: &impl Clock,
        path: &PathBuf<A>,
        metadata: &Metadata,
    ) -> Result<Option<u64>, AllocError> {
        let (device, number) = (metadata.dev(), metadata.ino());
        let since = match self.seen.get(path) {
            None => None,
            Some(target) if target.device == device && target.number == number => target.since,
            Some(_) => now_of(clock),
        };
        let target = Target {
            device,
            number,
            since,
        };
        self.seen.insert(path.clone()?, target)?;
        Ok(since)
    }
}

/// The later one of a modified time, if it is known, and the moment since when the file stands there.
pub(crate) fn later(modified: Option<u64>, since: Option<u64>) -> Option<u64>
    ensures { modified ≡ None → result ≡ None }
{
    match (modified, since) {
        (Some(modified), Some(since)) => Some(modified.max(since)),
        _ => modified,
    }
}
