//! What a polling watcher keeps: its roots, their last listing, and where its last round failed; and its steps.

mod deep;
pub mod polled;
pub mod round_folders;
mod said;
pub mod watched;
