//! The queues of all paths: the events that wait at each, what of them is due, and an index of the queues by
//! the time of their fronts, newer ones first.
//!
//! [`Queue`] is the queue of one path, [`Due`] says which of its events are due, and [`first`]
//! what its first event says of the path. [`IndexedQueues`] holds the queues of all paths and the
//! index, and each of its methods leaves the index with just the fronts of the queues. A tick looks at the
//! oldest pair of the index. If it is due, the tick borrows what is due, and then takes it out: it searches for
//! each queue that is due, by the paths that the index has, or takes the map apart if all that waits is due.
//!
//! ```text
//! let mut queues = IndexedQueues::new(rt.alloc());
//! queues.push(event)?;
//! if queues.is_any_due(due) {
//!     let paths = queues.lend_due(due, &mut places)?;
//!     ..
//!     let visited = queues.take_due(paths, due, &mut batch)?;
//! }
//! ```
#![tactic(auto)]

mod below;
mod change;
mod due;
mod due_paths;
mod first;
mod front;
mod fronts;
mod index;
mod push;
mod put;
mod put_all;
mod queue;
mod queues;
mod removal;
mod room;
mod settle;
mod whole;

pub use due::Due;
pub use due_paths::DuePaths;
pub use first::{is_both, removes, were_created, were_removed};
pub use queue::Queue;
pub use queues::{IndexedQueues, Placed, QueueMap};
