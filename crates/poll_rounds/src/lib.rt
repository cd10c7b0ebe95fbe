//! Rounds of polling: folders are listed, and what changed since the last listing is reported.
#![tactic(auto)]

mod beside;
mod closed;
mod entries;
mod folders;
mod later;
mod look;
mod part;
mod round;
mod walk;

pub use closed::{Closed, NotesClosed, kept_look, kept_round};
pub use entries::Entries;
pub use folders::Folders;
pub use look::look_round;
pub use round::{hand_each, poll_round};
pub use walk::{list, list_root};
