//! The batch of a tick: what is due of the queues and of the rescan slot, in the order of a batch.
//!
//! [`emit::emit`] takes it out, and [`emit::copies_of_due`] copies it and leaves it where it waits. Either
//! borrows what is due, the event of the slot first ([`rescan_slot`]), and finds the places in order. All that can
//! fail comes before the first change.
//!
//! ```text
//! let emitted = emit(&mut queues, &mut rescan_slot, alloc, due)?;
//! ```

pub mod emit;
pub mod rescan_slot;
