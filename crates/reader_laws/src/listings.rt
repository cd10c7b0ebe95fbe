//! Listings whose changes go through a debouncer to a reader.
ghost use Rattle.reader_laws.specs.Listings.{ReaderHasTheLast};

use debounce_cache::FileIdCache;
use std::alloc::Allocator;

/// Does nothing. By its contract a reader who begins with the paths of a first listing, plays every batch
/// of a run, and then the outlook, has the paths of the last listing, if the run took just the changes
/// from each listing to the next, as [`compare`](poll_listing::compare) finds them.
///
/// The run begins where nothing waits. The moments are any, ticks, errors and roots may come anywhere
/// between, and events that were refused don't count.
pub fn law_of_listings<C: FileIdCache<A>, A: Allocator>()
    ensures { ReaderHasTheLast C.rules }
{}
