//! A reader of listings: what changes from each to the next goes through a debouncer.
ghost use Rattle.std.specs.Prelude.{◌≡◌, ◌⊎◌, [], IfErr, IfOk, OnOk};
ghost use Rattle.std.specs.Map.{keys_of};
ghost use Rattle.notify_paths.specs.Errors.{out_of_memory, FullKind};
ghost use Rattle.debounce_model.specs.Cache.{no_numbers};
ghost use Rattle.debounce_model.specs.Command.{TickCommand, BatchReply};
ghost use Rattle.debounce_model.specs.Play.{events_of, play};
ghost use Rattle.debounce_model.specs.Run.{Step};
ghost use Rattle.debounce_model.specs.State.{empty_state};
ghost use Rattle.poll_listing.specs.Changes.{changes};
ghost use Rattle.reader_laws.specs.Callers.Followed.{ReadsTheRest, TakesAll};

use crate::listings::law_of_listings;
use debounce_cache::NoCache;
use debounce_core::DebounceDataInner;
use notify_paths::Error;
use notify_types::{DebouncedEvent, Event, Moment};
use poll_listing::{Listing, compare};
use reader_paths::PathSet;
use std::alloc::{Allocator, Global};
use std::marker::Model;

/// A debouncer without a cache, which is told what changes from each listing to the next, and a reader of
/// its batches. It begins with the listing of nothing: what the first one has comes as creations.
#[derive(Drop)]
pub struct Follower<A: Allocator = Global> {
    core: DebounceDataInner<NoCache, A>,
    last: Listing<A>,
    reader: PathSet<A>,
    alloc: A,
}

impl<A: Allocator> Model for Follower<A> {
    ghost use Rattle.reader_laws.specs.Callers.Followed.{Followed, IsFollowed};

    ghost Value = { Followed };

    ghost view = { λ a. record { core = a.core; last = a.last; reader = a.reader } };

    ghost invariant = { λ a. IsFollowed a.core a.last a.reader };
}

impl<A: Allocator + Copy> Follower<A> {
    /// Begins with nothing. An event is emitted once it is as old as the timeout, in nanoseconds.
    pub fn new(alloc: A, timeout: Moment) -> Follower<A>
        ensures core { result.core.state ≡ empty_state timeout }
        ensures last { result.last ≡ [] }
        ensures reader { result.reader ≡ [] }
    {
        let core = DebounceDataInner::new(alloc, NoCache::new(), timeout);
        // This call shows the proof that the queues are well-formed.
        let _waiting = core.waiting();
        Follower {
            core,
            last: Listing::new(alloc),
            reader: PathSet::new(alloc),
            alloc,
        }
    }

    /// Takes what changed up to this listing, at this moment. If an event is refused, the follower is
    /// used up: what it took of the changes is no listing.
    pub fn see(self, next: Listing<A>, now: Moment) -> Result<Follower<A>, Error<A>>
        ensures ok { IfOk result (λ follower. follower.last ≡ next) }
        ensures core { IfOk result (λ follower.
            TakesAll self.core (changes self.last next) now follower.core) }
        ensures reader { IfOk result (λ follower. follower.reader ≡ self.reader) }
        ensures err { IfErr result (λ e. (e ≡ out_of_memory)
            ⊎ (e ≡ record { kind = FullKind; paths = [] })) }
    {
        let Follower {
            mut core,
            last,
            reader,
            alloc,
        } = self;
        let events = compare(alloc, &last, &next)?;
        take_all(&mut core, events, now)?;
        Ok(Follower {
            core,
            last: next,
            reader,
            alloc,
        })
    }

    /// Emits what is expired at this moment, which the reader plays.
    pub fn tick(self, now: Moment) -> Result<(Follower<A>, Vec<DebouncedEvent<A>, A>), Error<A>>
        ensures batch { IfOk result (λ r.
            Step no_numbers self.core (TickCommand now) (BatchReply r.1.items) r.0.core) }
        ensures reader { IfOk result (λ r. r.0.reader
            ≡ play self.reader (events_of r.1.items)) }
        ensures last { IfOk result (λ r. r.0.last ≡ self.last) }
        ensures err { IfErr result (λ e. e ≡ out_of_memory) }
    {
        let Follower {
            mut core,
            last,
            mut reader,
            alloc,
        } = self;
        let batch = core.debounced_events(now)?;
        reader.play(batch.as_slice())?;
        let follower = Follower {
            core,
            last,
            reader,
            alloc,
        };
        Ok((follower, batch))
    }

    /// Returns the paths that the reader has once it has also played what is pending: exactly those of
    /// the last listing.
    pub fn paths(&self) -> Result<PathSet<A>, Error<A>>
        ensures read { IfOk result (ReadsTheRest self.now.core.state self.now.reader) }
        ensures ok { IfOk result (λ paths. paths ≡ keys_of self.now.last) }
        ensures err { IfErr result (λ e. e ≡ out_of_memory) }
    {
        law_of_listings::<NoCache, A>();
        let mut paths = self.reader.try_clone()?;
        let outlook = self.core.outlook()?;
        paths.play(outlook.as_slice())?;
        Ok(paths)
    }
}

/// Takes all these events at one moment.
fn take_all<A: Allocator + Copy>(
    core: &mut DebounceDataInner<NoCache, A>,
    events: Vec<Event<A>, A>,
    now: Moment,
) -> Result<(), Error<A>>
    ensures ok { OnOk result (TakesAll core.old events.items now core.new) }
    ensures err { IfErr result (λ e. (e ≡ out_of_memory)
        ⊎ (e ≡ record { kind = FullKind; paths = [] })) }
{
    for event in events {
        core.add_event(event, now, true)?;
    }
    Ok(())
}
