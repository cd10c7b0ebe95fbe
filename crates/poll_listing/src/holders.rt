//! Who has the numbers of what was removed.
ghost use Rattle.std.specs.Prelude.{◌≡◌, ℕ, None, option_and_then, IfOk, OnOk};
ghost use Rattle.poll_listing.specs.Changes.{changes};
ghost use Rattle.poll_listing.specs.Holders.{ChangesEach, NotesRemoval, TellMoves, counted, held_from, holder_at, moved_place, new_holder, noted_after, noted_before, number_removed, place_with, seen_with};
ghost use Rattle.poll_listing.specs.Moves.{number_of};
ghost use Rattle.poll_listing.specs.Updates.{IsUpdate, updated};

use crate::entry::{FileNumber, Found};
use crate::listing::Listing;
use crate::pairs::UpdatedPairs;
use crate::updates::Updates;
use notify_types::Event;
use std::alloc::{AllocError, Allocator};
use std::collections::BTreeMap;

/// The number as one: the device's, and after it the file's.
fn number_of(number: FileNumber) -> Option<u128>
    ensures { result ≡ number_of number }
{
    match number {
        FileNumber::Unknown => None,
        FileNumber::Known(device, file) => Some(device as u128 * (1 << 64) + file as u128),
    }
}

/// What was seen of a number in a listing.
#[derive(Clone, Copy)]
pub(crate) enum Seen {
    Nothing,
    Once(Found),
    Often,
}

impl Seen {
    /// What is seen after one more that has the number.
    fn with(self, found: Found) -> Seen
        ensures { result ≡ seen_with self found }
    {
        match self {
            Seen::Nothing => Seen::Once(found),
            Seen::Once(_) | Seen::Often => Seen::Often,
        }
    }
}

/// Who has the number of something that was removed.
#[derive(Clone, Copy)]
pub(crate) struct Holder {
    /// How many events stand in front of the removal.
    place: usize,
    before: Seen,
    after: Seen,
}

impl Holder {
    fn new(place: usize) -> Holder
        ensures { result ≡ new_holder place }
    {
        Holder {
            place,
            before: Seen::Nothing,
            after: Seen::Nothing,
        }
    }

    /// Returns the place of the removal, if what was removed moved.
    fn moved_place(self) -> Option<usize>
        ensures { result ≡ moved_place self }
    {
        match (self.before, self.after) {
            (Seen::Once(before), Seen::Once(after)) if before.is_one_file(after) => Some(
                self.place,
            ),
            _ => None,
        }
    }
}

/// The holders of numbers.
pub(crate) type Holders<A> = BTreeMap<u128, Holder, A>;

/// Returns the place of the removal of what has this number, if it moved.
pub(crate) fn place_with<A: Allocator>(holders: &Holders<A>, number: FileNumber) -> Option<usize>
    ensures { result ≡ option_and_then (place_with holders.now.entries) (number_of number) }
{
    let number = number_of(number)?;
    holders.get(&number)?.moved_place()
}

/// Returns the holders of the numbers of what the updates remove. If there is none, the listing isn't walked over.
pub(crate) fn find_holders<A: Allocator + Copy>(
    alloc: A,
    old: &Listing<A>,
    updates: &Updates<A>,
    events: &[Event<A>],
) -> Result<Holders<A>, AllocError>
    requires update { IsUpdate old.now updates.now.entries }
    requires events { events.now ≡ changes old.now (updated old.now updates.now.entries) }
    ensures { IfOk result (λ holders.
        TellMoves old.now (updated old.now updates.now.entries) holders.entries) }
{
    let mut holders = gather(alloc, old, events)?;
    if !holders.is_empty() {
        count(
            &mut holders,
            UpdatedPairs::all(alloc, &old.entries, updates),
        );
    }
    Ok(holders)
}

/// Returns a holder for each known number of something whose removal is told.
fn gather<A: Allocator + Copy>(
    alloc: A,
    old: &Listing<A>,
    events: &[Event<A>],
) -> Result<Holders<A>, AllocError>
    ensures { IfOk result (λ holders. (number : ℕ) → holder_at holders.entries number
        ≡ held_from old.now number 0 None events.now) }
{
    let mut holders = BTreeMap::new(alloc);
    for (place, event) in events.iter().enumerate() {
        note_removal(&mut holders, old, place, event)?;
    }
    Ok(holders)
}

/// Puts in a holder, if the event tells that something with a known number was removed.
fn note_removal<A: Allocator + Copy>(
    holders: &mut Holders<A>,
    old: &Listing<A>,
    place: usize,
    event: &Event<A>,
) -> Result<(), AllocError>
    ensures { OnOk result
        (NotesRemoval old.now place event.now holders.old.entries holders.new.entries) }
{
    if let Some(number) = number_removed(old, event) {
        holders.insert(number, Holder::new(place))?;
    }
    Ok(())
}

/// Returns the number of what the event tells the removal of, if it is known.
fn number_removed<A: Allocator>(old: &Listing<A>, event: &Event<A>) -> Option<u128>
    ensures { result ≡ number_removed old.now event.now }
{
    if !event.kind.is_removal() {
        return None;
    }
    let found = old.get(event.first_path()?)?;
    number_of(found.number)
}

/// Counts for each holder who else has its number.
fn count<A: Allocator>(holders: &mut Holders<A>, mut pairs: UpdatedPairs<'_, A>)
    ensures { ChangesEach (counted pairs.entry) holders.old.entries holders.new.entries }
{
    while let Some(pair) = pairs.next() {
        note_before(holders, pair.before);
        note_after(holders, pair.after);
    }
}

/// Counts what stood at a path.
fn note_before<A: Allocator>(holders: &mut Holders<A>, found: Option<Found>)
    ensures { ChangesEach (noted_before found) holders.old.entries holders.new.entries }
{
    let Some(found) = found else {
        return;
    };
    let Some(number) = number_of(found.number) else {
        return;
    };
    if let Some(holder) = holders.get_mut(&number) {
        holder.before = holder.before.with(found);
    }
}

/// Counts what stands at a path now.
fn note_after<A: Allocator>(holders: &mut Holders<A>, found: Option<Found>)
    ensures { ChangesEach (noted_after found) holders.old.entries holders.new.entries }
{
    let Some(found) = found else {
        return;
    };
    let Some(number) = number_of(found.number) else {
        return;
    };
    if let Some(holder) = holders.get_mut(&number) {
        holder.after = holder.after.with(found);
    }
}
