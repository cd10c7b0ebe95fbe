//! How a caller who makes the calls of a debouncer one by one states a law of whole runs: of two events and a
//! tick ([`two`]), of as many listings as there are ([`follower`]), and of a polling watcher's rounds over roots
//! that overlap ([`overlapping`]); what one knows whose handler comes back from a debouncer that ran, or who
//! fed it by hand ([`told`]); and of a whole chain, from folders whose tree is told to a reader ([`whole`]).

mod fixed_watcher;
mod follower;
mod overlapping;
mod told;
mod two;
mod whole;

pub use follower::Follower;
pub use told::{Called, finish_told, finish_told_fed, start_told_by_hand};
pub use whole::{ReadWhole, read_tree};
