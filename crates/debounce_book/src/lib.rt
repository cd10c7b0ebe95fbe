//! What stands under the lock of a running debouncer: the core, and beside it a journal of the
//! commands that it accepted, if one is kept.
//!
//! A [`Book`] is changed by its steps alone, each of which is one step of the core with one
//! entry of the journal, or is refused and leaves both.
//!
//! ```text
//! let mut book = Book::journaled(rt.alloc(), NoCache::new(), 50);
//! feed_step(&mut book, Ok(event), 0, true)?;
//! let (batch, errors) = tick_step(&mut book, 100);
//! ```
#![tactic(auto)]

mod book;
mod calls;
mod entry;
mod steps;
mod written;

pub use book::{Book, command_step};
pub use entry::Entry;
pub use steps::{Ticked, feed_step, root_step, tick_step, unroot_step};
