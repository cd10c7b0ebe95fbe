//! The step table: what an event makes of what waits.
//!
//! [`Pending`] is what waits: the queues, and beside them two slots. Its `take` is the table, a row
//! for each case of an event: it is pushed, or removes, or is a half of a rename, or is kept alone.
//! [`rename_slot`] keeps a first half and tells whether a second one fits; what the two make of the queues
//! is in [`crate::rename`].
//!
//! ```text
//! let mut pending = Pending::new(rt.alloc());
//! pending.take(Case::Creation, event, None)?;
//! ```
ghost use Rattle.std.specs.Prelude.{◌≡◌, ◌<◌, [], false, length, None, Some, OnOk, OnErr};
ghost use Rattle.notify_types.specs.Event.{first_of};
ghost use Rattle.debounce_model.specs.Memory.{row_grows_nothing};
ghost use Rattle.debounce_model.specs.Queues.{push};
ghost use Rattle.debounce_model.specs.RenameSlot.{first_half};
ghost use Rattle.debounce_model.specs.Table.{FitsCase, renamed_to};
ghost use Rattle.debounce_model.specs.WellFormed.{AreQueues};
ghost use Rattle.debounce_core.specs.Table.Row.{IsRow};

pub mod rename_slot;

use crate::rename::join::join;
use crate::table::rename_slot::{RenameSlot, first_half};
use debounce_model::{Case, FileId};
use debounce_queues::IndexedQueues;
use notify_types::DebouncedEvent;
use std::alloc::{AllocError, Allocator};

/// What waits: the queues, the first half of a rename that is kept for the second, and the last event
/// that said that others were lost.
#[derive(Drop)]
pub struct Pending<A: Allocator> {
    pub queues: IndexedQueues<A>,
    pub rename_slot: Option<RenameSlot<A>>,
    pub rescan_slot: Option<DebouncedEvent<A>>,
}

impl<A: Allocator + Copy> Pending<A> {
    pub fn new(alloc: A) -> Pending<A>
        ensures queues { result.queues ≡ [] }
        ensures rename_slot { result.rename_slot ≡ None }
        ensures rescan_slot { result.rescan_slot ≡ None }
    {
        Pending {
            queues: IndexedQueues::new(alloc),
            rename_slot: None,
            rescan_slot: None,
        }
    }

    /// Takes an event of this case, with the cache's answer. All that can fail comes before the first
    /// change.
    pub fn take(
        &mut self,
        case: Case,
        event: DebouncedEvent<A>,
        answer: Option<FileId>,
    ) -> Result<(), AllocError>
        requires fits { FitsCase case event.event }
        requires queues { AreQueues self.old.queues }
        ensures ok { OnOk result (IsRow case self.old event answer self.new) }
        ensures unchanged { OnErr result (self.new ≡ self.old) }
        ensures sure { OnErr result (row_grows_nothing case self.old.queues event.event ≡ false) }
    {
        match case {
            Case::Rescan => {
                self.rescan_slot = Some(event);
                Ok(())
            }
            Case::Creation | Case::Plain => self.queues.push(event),
            Case::Removal => self.queues.remove(event),
            Case::RenameFrom => self.rename_from(event, answer),
            Case::RenameTo => self.rename_to(event, answer),
            Case::Ignored => Ok(()),
        }
    }

    /// The first half of a rename is pushed, and kept.
    fn rename_from(
        &mut self,
        event: DebouncedEvent<A>,
        number: Option<FileId>,
    ) -> Result<(), AllocError>
        requires { 0 < length event.event.paths }
        ensures ok { OnOk result (self.new ≡ record self.old {
          queues = push self.old.queues (first_of event.event.paths) event;
          rename_slot = Some (record { half = event; number = number });
        }) }
        ensures unchanged { OnErr result (self.new ≡ self.old) }
    {
        let half = event.clone()?;
        self.queues.push(event)?;
        self.rename_slot = Some(RenameSlot::new(half, number));
        Ok(())
    }

    /// The second half of a rename is joined to the first, if the slot keeps one that fits, and else pushed. The
    /// slot is empty then.
    fn rename_to(
        &mut self,
        event: DebouncedEvent<A>,
        number: Option<FileId>,
    ) -> Result<(), AllocError>
        requires path { 0 < length event.event.paths }
        requires queues { AreQueues self.old.queues }
        ensures ok { OnOk result (self.new ≡ record self.old {
          queues = renamed_to self.old.queues (first_of event.event.paths) event
              (first_half self.old.rename_slot event.event number);
          rename_slot = None;
        }) }
        ensures unchanged { OnErr result (self.new ≡ self.old) }
    {
        let half = first_half(&self.rename_slot, &event, number);
        join(&mut self.queues, half, event)?;
        self.rename_slot = None;
        Ok(())
    }
}
