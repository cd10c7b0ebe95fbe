//! The watcher that polls: its thread, what wakes it, and when it makes its rounds.
//!
//! [`roots`] has the paths that it watches, with their last listing; [`folders`] are those of the real file system, and
//! [`entries`] reads what stands there; [`hint_set`] keeps the paths at which it is asked to look soon.
#![tactic(auto)]

mod bell;
mod entries;
mod folders;
mod hint_set;
mod hints;
mod roots;
mod schedule;
mod watcher;

pub use folders::noting::NotingFolders;
pub use folders::real::RealFolders;
pub use hints::Hints;
pub use roots::polled::Polled;
pub use roots::round_folders::RoundFolders;
pub use watcher::{ClosedCount, LastFound, PollTask, PollWatcher, RoundTask};
