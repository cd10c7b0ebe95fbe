//! The rename slot.
ghost use Rattle.std.specs.Prelude.{◌≡◌, ◌==◌, option_copied, slice_get};
ghost use Rattle.debounce_model.specs.Equality.{file_id_eq};
ghost use Rattle.debounce_model.specs.RenameSlot.{are_equal, fits, first_half};
ghost use Rattle.debounce_core.specs.Rename.Renames.{half_value};

use crate::rename::FirstHalf;
use debounce_model::FileId;
use notify_paths::PathBuf;
use notify_types::{DebouncedEvent, Moment};
use std::alloc::Allocator;
use std::marker::Model;

/// The first half of a rename, kept for the second, with its file's number.
#[derive(Drop)]
pub struct RenameSlot<A: Allocator> {
    half: DebouncedEvent<A>,
    number: Option<FileId>,
}

impl<A: Allocator> Model for RenameSlot<A> {
    ghost use Rattle.debounce_model.specs.RenameSlot.{SlotValue};

    ghost Value = { SlotValue };

    ghost view = { λ a. record { half = a.half; number = a.number } };
}

/// Whether both trackers are there and equal.
fn is_same_tracker(a: Option<u64>, b: Option<u64>) -> bool
    ensures { result ≡ are_equal (λ x y. x == y) a b }
{
    match (a, b) {
        (Some(a), Some(b)) => a == b,
        _ => false,
    }
}

/// Whether both numbers are there and equal.
fn is_same_file(a: Option<FileId>, b: Option<FileId>) -> bool
    ensures { result ≡ are_equal file_id_eq a b }
{
    match (a, b) {
        (Some(a), Some(b)) => a == b,
        _ => false,
    }
}

impl<A: Allocator> RenameSlot<A> {
    pub(crate) fn new(half: DebouncedEvent<A>, number: Option<FileId>) -> RenameSlot<A>
        ensures { result ≡ record { half = half; number = number } }
    {
        RenameSlot { half, number }
    }

    /// Whether the event, whose file has this number, is the second half.
    fn fits(&self, event: &DebouncedEvent<A>, number: Option<FileId>) -> bool
        ensures { result ≡ fits self.now event.now.event number }
    {
        is_same_tracker(self.half.event.tracker(), event.event.tracker())
            || is_same_file(self.number, number)
    }

    fn first_path(&self) -> Option<&PathBuf<A>>
        ensures { option_copied result ≡ slice_get self.now.half.event.paths 0 }
    {
        self.half.first_path()
    }

    fn time(&self) -> Moment
        ensures { result ≡ self.now.half.time }
    {
        self.half.time()
    }
}

/// The first half of this event's rename, if the slot holds it.
pub fn first_half<'a, A: Allocator>(
    slot: &'a Option<RenameSlot<A>>,
    event: &DebouncedEvent<A>,
    number: Option<FileId>,
) -> Option<FirstHalf<'a, A>>
    ensures { half_value result ≡ first_half slot.now event.now.event number }
{
    match slot {
        None => None,
        Some(slot) => {
            if !slot.fits(event, number) {
                return None;
            }
            match slot.first_path() {
                None => None,
                Some(from) => Some(FirstHalf {
                    from,
                    time: slot.time(),
                }),
            }
        }
    }
}
